//! The text of a lockfile.
//!
//! `print` writes the text of a lock, as pnpm writes a lockfile of version 9.0: fields in their order and maps in byte order of
//! keys, and nothing for an empty list other than that of the projects. The text is a function of the lock's lists, and it is
//! read as the data that was printed.
//!
//!     let text = print(alloc, &lock)?;
//!     sink.write(&text)?;
#![tactic(auto)]

mod catalogs;
mod entry;
mod importers;
mod laws;
mod link;
mod nodes;
mod packages;
mod snapshots;
mod target;
mod whole;

pub use laws::lock_law;
pub use whole::print;

#[cfg(test)]
mod tests;
