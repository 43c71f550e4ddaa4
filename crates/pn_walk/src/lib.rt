//! Walks along edges that wait in a queue: the plain graph of what projects ask for, in the order in which its packages
//! are met.
//!
//! `walked` takes the edges of the projects in order, and then those of each package as it is met. What an edge leads to and
//! what a package asks for is told by an object of the trait `Ways`, so this layer knows no registry. Where the object's
//! relations are settled, so is the answer: one state or one refusal, that of the first edge in order that can't be taken, by
//! name.
//!
//! An edge's wish is followed as the edge is taken, and its package read where it wasn't met before: `Ways` says by `follows`
//! and `stops` which wishes calls follow and which packages they read, and `walked` that they are those of the walk, each once.
//!
//! The packages lie in the order in which they are met, and a map has the place of each under its id's text: an edge to a
//! package that was met costs a look-up.
#![tactic(auto)]

mod fault;
mod node;
mod queue;
mod refused;
mod state;
mod walk;
mod ways;
mod wish;

pub use fault::WalkFault;
pub use node::{Asks, Node, Wishes};
pub use state::{Queue, Taken};
pub use walk::walked;
pub use ways::Ways;
pub use wish::{Aim, Place, Wish};

#[cfg(test)]
mod tests;
