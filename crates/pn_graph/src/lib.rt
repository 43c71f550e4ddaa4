//! The plain graph: projects and packages with links from alias to package or project, as a value, and what can be asked of
//! it.
//!
//! A `Plain` is made once its facts are known: indexes in range, folders and ids distinct, names rising, and no package with
//! its own name as an alias or a peer, nor one name as both. The look-ups take no memory. `reach` gives the packages that
//! dependencies lead to from a package, projects left out; `free_names` the peers that those who depend on a package have
//! to provide.
#![tactic(auto)]

mod explored;
mod find;
mod found;
mod free;
mod laws;
mod links;
mod lookups;
mod peer;
mod plain;
mod reached;

pub use free::free_names;
pub use laws::{free_law, reach_law};
pub use links::{At, Auto, Autos, Dep, Deps, Package, Packages, Project, Projects};
pub use peer::{Peer, Peers};
pub use plain::Plain;
pub use reached::reach;

#[cfg(test)]
mod tests;
