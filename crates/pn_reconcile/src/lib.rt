//! Makes a project's tree have a plan: at and below the managed folders what is planned stands and nothing else, whatever
//! stood there. As little as can be is written: what stands as planned is read and left alone, and where all of it does the
//! store isn't asked. A call that stops in the middle, at any of its steps, leaves managed folders that a later scan still
//! knows as the installer's, so that it can be called again.
//!
//!     let scan = scan(alloc, &mut tree, &managed)?;
//!     reconcile(alloc, &mut tree, &mut disk, &plan, &scan)?;
//!
//! First each managed folder is made, where it is absent, and its marker, so that the folder is the installer's before
//! anything else is in it. Then what isn't planned as it stands is taken away, the last entry first. Then each planned entry
//! is repaired, in the plan's order: a folder before its entries.
#![tactic(auto)]

mod begin;
mod entries;
mod folders;
mod kinds;
mod marker;
mod whole;

pub use whole::reconcile;

#[cfg(test)]
mod tests;
