//! The dep paths of instances: what tells a package with its peers from the same package with others.
//!
//! The base text of an instance is its package's id, and then a group for each of its outer pairs. What a group holds depends
//! on where the pair leads: the id, for an instance that leads back; the base text, for another one; the peer's name and the
//! folder, for a project. `dep_paths` gives the base texts, where the second and later of equal ones have ordinals.
//! Each is a dep path that begins with its package's id, and no two are the same.
//!
//!     let paths = dep_paths(alloc, &plain, &instances)?; // react-dom@18.3.1(react@18.3.1)
//!
//! Base texts are made in the order of the outer relation's components, targets first; nothing recurses.
#![tactic(auto)]

mod base;
mod convert;
mod edges;
mod groups;
mod laws;
mod paths;
mod relation;

pub use laws::{paths_law, text_law};
pub use paths::dep_paths;

#[cfg(test)]
mod tests;
