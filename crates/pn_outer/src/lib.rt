//! Which peers the text of an instance names.
//!
//! An instance is a package with a peer context. Its provided peers are outer pairs of it, each a name and its target; an
//! outer pair of a dependency is one of the instance too, where its name is no alias of the instance's own package.
//! `outer_pairs` gives each instance exactly its outer pairs: the least sets with these two rules.
//!
//!     let outer = outer_pairs(alloc, &instances)?;
//!     let first = &outer.rows[0]; // the numbers of its pairs
//!     let name = &outer.pairs[first[0]].name;
//!
//! Each pair is carried from the instances that it is provided to, to those that depend on them; each dependency is
//! followed once a pair, and nothing recurses.
#![tactic(auto)]

mod dependents;
mod found;
mod instance;
mod laws;
mod outer;
mod provided;
mod range;
mod spread;

pub use instance::{Goal, Instance, Link, Links};
pub use laws::outer_law;
pub use outer::{Outer, outer_pairs};
pub use range::are_in_range;

#[cfg(test)]
mod tests;
