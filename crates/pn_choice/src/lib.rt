//! The plain graph of what projects ask for over a registry.
//!
//! `plain` takes the edges of the projects in order, then those of each package in the order in which the packages are met.
//! A range leads to the greatest version that the old lockfile holds, else to the latest, else to the greatest of those that
//! satisfy it; a tag to its own version. A package's manifest is read at the edge that first leads to it. The graph is the
//! end of that walk (`pn_plain` has the definitions), and a refusal names the first edge that can't be taken.
#![tactic(auto)]

mod asked;
mod built;
mod face;
mod fault;
mod laws;
mod package;
mod project;
mod shelf;
mod sources;
mod top;
mod version;
mod way;
mod ways;

pub use built::unbuilt_field;
pub use fault::{ChoiceFault, RegistryLack};
pub use laws::{folders_law, settled_law, short_law, words_law};
pub use project::ProjectAt;
pub use sources::{Sources, no_shelves};
pub use top::plain;
pub use way::WayFault;
