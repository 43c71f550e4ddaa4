//! Takes away what stands at and below managed folders and isn't planned, or is of another kind than planned: from the
//! last entry to the first, so that a folder is empty when it goes. What is planned and of its kind is left alone.
//!
//!     let scan = scan(alloc, &mut tree, &managed)?;
//!     clear(&mut tree, plan.as_slice(), scan.entries())?;
//!     let there = find(scan.entries(), path.as_str());
#![tactic(auto)]

mod clearing;
mod search;

pub use clearing::clear;
pub use search::find;
