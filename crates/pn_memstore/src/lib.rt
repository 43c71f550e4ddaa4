//! Content-addressed stores in memory, for tests.
//!
//! `SureStore` never fails and has one installer. `MemStore` has a schedule of other installers' steps,
//! and a list of calls that fail; its contract says which steps came before a call and whether it
//! failed. Both keep the journal of the steps on them, and make none that isn't lawful but discards.
//! `FoundStore` begins with the world that some steps left, lawful or not, and so may be damaged.
#![tactic(auto)]

mod check;
mod conditions;
mod folder;
mod found;
mod laws;
mod ledger;
mod mem;
mod objects;
mod others;
mod schedule;
mod sorting;
mod sure;
mod temps;
mod world;

pub use found::FoundStore;
pub use laws::{mem_law, sure_law};
pub use mem::MemStore;
pub use sure::SureStore;
pub use world::StoreWorld;

#[cfg(test)]
mod puts;
#[cfg(test)]
mod tests;
