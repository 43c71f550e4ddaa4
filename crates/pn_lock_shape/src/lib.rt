//! The form of a lockfile.
//!
//! `read` reads what a node says as a lockfile of version 9.0, with the targets of dependencies as folders and dep paths that
//! aren't looked up yet. What data says is a definition, `draft_in`: a draft, or the keys that lead to the first entry of
//! another form. Each map is read in the file's order, and is kept in byte order of its keys.
//!
//!     let draft = read(alloc, &node)?;
//!     for importer in draft.importers.as_slice() { .. }
//!
//! Each kind of entry is an `Entry`, and one reader of maps reads them all. `place` finds a key in such a list.
#![tactic(auto)]

mod catalogs;
mod drafts;
mod entry;
mod fault;
mod fields;
mod importers;
mod keyed;
mod link;
mod names;
mod packages;
mod snapshots;
mod target;
mod whole;

pub use drafts::{Aim, Draft, DraftDependency, DraftImporter, DraftLink, DraftSnapshot};
pub use fault::ShapeFault;
pub use keyed::{Keyed, has_key, place};
pub use whole::read;
