//! The lockfile of a tree, read and written.
//!
//! `read_lockfile` gives the lock that the file at a path spells, with its bytes, or none where nothing stands there; a file
//! that spells no lock is refused with the first thing that is wrong. `lockfile_text` gives a text that spells a lock, and
//! `write_lockfile` puts it in the file's place by one rename.
//!
//! ```text
//! let old = read_lockfile(alloc, &mut fs, &path)?;
//! let text = lockfile_text(alloc, &lock)?;
//! write_lockfile(alloc, &mut fs, &path, &temp, &text)?;
//! ```
#![tactic(auto)]

mod fault;
mod laws;
mod limits;
mod printing;
mod reading;
mod rewriting;

pub use fault::{LockWhy, LockfileFault, TextFault};
pub use laws::answer_law;
pub use limits::LOCKFILE_LIMIT;
pub use printing::lockfile_text;
pub use reading::{Found, read_lockfile};
pub use rewriting::write_lockfile;

#[cfg(test)]
mod tests;
