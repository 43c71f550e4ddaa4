//! The lock of a resolution.
//!
//! `make` gives the lock of what a run asks for, of the graph that was chosen, of its instances with their dep paths, and of
//! the integrities of its packages. Its lists are in byte order of their keys, whatever the order of the graph is; each link
//! leads to the snapshot of the instance that it leads to there. Between a lock and what it was made of no difference is found.
//!
//!     let lock = make(alloc, &asked, &plain, &instances, &paths, &integrities)?;
//!     let lock = make_single(alloc, &asked, &plain, &integrities)?; // of a graph without peers
#![tactic(auto)]

mod catalogs;
mod importers;
mod made;
mod order;
mod packages;
mod passed;
mod singles;
mod snapshots;
mod targets;

pub use made::make;
pub use singles::make_single;

#[cfg(test)]
mod tests;
