//! The command that installs a project: the points of a run in their order, and how it ends.
//!
//! `run` answers the first refusal in the order, and each answer has its cause as a clause. Up to the
//! writing nothing of the project differs; while it is written only what lies in `node_modules` does.
#![tactic(auto)]

#[cfg(test)]
mod again_tests;
mod entry;
#[cfg(test)]
mod fault_tests;
#[cfg(test)]
mod fixtures;
mod gather;
mod graph;
mod laws;
mod manifest;
mod packages;
mod plan;
mod prepare;
mod ready;
#[cfg(test)]
mod refusal_tests;
mod scan;
mod standing;
mod store;
#[cfg(test)]
mod store_tests;
#[cfg(test)]
mod tests;
mod top;
mod words;
mod workspace;
mod write;

pub use laws::{cause_law, lookup_law, order_law, point_law, settled_law};
pub use pn_manifest::ManifestWhy;
pub use pn_status::{FileWhy, IntegrityWhy, Status, Which, tell};
pub use pn_workspace::WorkspaceWhy;
pub use top::run;
