//! The planned tree of an install by a lockfile: an instance a snapshot in the virtual store, the links of its projects, and
//! hoisted links.
//!
//! `layout` gives exactly what is planned, as a list of paths with files by their digests, or the length of the first path
//! that is too long. `lock_layout` says what is planned: the folders' names are those of dep paths, and each link leads to
//! what the lock says. The laws say what a tree is that has the plan: Node finds from each package itself and what the lock
//! links it to, and from each project its dependencies; the packages' files stand.
//!
//!     let plan = layout(alloc, &lock, &root, &store, &hoisted, &listings)?;
#![tactic(auto)]

mod files;
mod folders;
mod hoist;
mod homes;
mod instances;
mod laws;
mod managed;
mod plan;
mod tops;

pub use hoist::Hoist;
pub use laws::{finds_law, held_law, placed_law};
pub use plan::layout;
pub use pn_tree::LayoutFault;

#[cfg(test)]
mod tests;
