//! A lock without development dependencies.
//!
//! `prod` gives the lock that an install for production follows: projects have no development dependencies, and snapshots and
//! packages that only these lead to are gone. What no dependency leads to at all stays, since it isn't of development.
//!
//!     let lock = prod(alloc, &lock)?;
#![tactic(auto)]

mod copies;
mod found;
mod kept;
mod production;
mod starts;
mod walk;

pub use production::prod;

#[cfg(test)]
mod tests;
