//! The strong components of a graph: the sets of places that reach each other.
//!
//! `components` gives each place the number of its component. Two places have one number exactly where each reaches the
//! other, and no edge leads to a greater number: who takes the components by their numbers meets targets first.
//!
//!     let numbers = components(alloc, 3, &[(0, 1), (1, 0), (1, 2)])?; // [1, 1, 0]
//!
//! `targets` gives the places that edges lead to from each place.
//!
//! A walk along the edges keeps the places of its way in a stack that is cut into parts: the places of a part reach each
//! other, and what comes later. An edge that leads back joins parts; a part without waiting edges is a component. Each edge
//! is looked at twice at most, and nothing recurses.
#![tactic(auto)]

mod rows;
mod strong;
mod walk;

pub use rows::targets;
pub use strong::components;

#[cfg(test)]
mod tests;
