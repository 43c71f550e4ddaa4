//! Instances: packages with what their peers are, and what each of them and each project links to, as a value.
//!
//! An `Instances` is made once its facts are known: there are as many lists of links as instances, targets are in range, and
//! the names of each list rise. Its list `packages` has the package of each instance; `roots` has a list of links for each
//! project, so that there are as many projects as lists. The look-ups take no memory. `single` gives the instances of a graph
//! without peers: one of each package.
//!
//!     let instances = single(alloc, &plain)?;
//!     let package = instances.package(InstIx(0));
//!     let goal = instances.link(InstIx(0), &name);
#![tactic(auto)]

mod goal;
mod instances;
mod links;
mod lookups;
mod singles;

pub use goal::Goal;
pub use instances::Instances;
pub use links::{Link, LinkLists, Links, Places};
pub use lookups::goal_at;
pub use singles::single;

#[cfg(test)]
mod tests;
