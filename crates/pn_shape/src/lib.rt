//! The plain graph's value from the end of a walk.
//!
//! `plain_of` gives each project and each package the edges that it asked for and that lead somewhere, in time linear in
//! edges, projects and packages. What the end of a walk has to be for that is `IsFit`; the lemma `fit_of_walk` says which
//! walks end so.
#![tactic(auto)]

mod laws;
mod lists;
mod nodes;
mod shape;

pub use laws::shape_law;
pub use shape::plain_of;

#[cfg(test)]
mod tests;
