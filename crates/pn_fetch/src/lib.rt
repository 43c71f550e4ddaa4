//! The files of an install's packages, put into the content-addressed store, and then the listing of each package.
//!
//! `fetch` claims a number of the store, puts each package's files under it, then its listing, and releases the number.
//! What it answers stands in the store: each listing, and each file that it names. What it moves to an address is such a
//! file or such a listing, and nothing else. In a store that was sound before, it all has its address as digest (`kept_law`).
//!
//!     let listings = fetch(alloc, &mut disk, &mut registry, collected.packages.as_slice())?;
#![tactic(auto)]

mod fault;
mod fetched;
mod files;
mod laws;
mod listed;
mod package;
mod packages;

pub use fault::FetchFault;
pub use fetched::fetch;
pub use laws::kept_law;

#[cfg(test)]
mod tests;
