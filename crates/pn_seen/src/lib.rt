//! A manifest as it is seen, and what it asks for.
//!
//! - `seen` is what counts of a manifest: each name in one map, nothing under the manifest's own name, no peer that is a
//!   dependency. Its two steps are public, since what overrides change comes between them: `one_map`, and `dropped`.
//! - `wishes` is what a seen manifest asks for, in byte order of aliases, and `project_wishes` the same of a project, whose
//!   required peers count as dependencies where peers are installed by themselves.
//!
//! `asked_law` says that the aliases rise, that none is the manifest's own name, and that no peer is one of them.
#![tactic(auto)]

mod asked;
mod counts;
mod laws;
mod lookups;
mod owner;
mod sifted;

pub use asked::{project_wishes, wishes};
pub use counts::{dropped, one_map, seen};
pub use laws::asked_law;
pub use owner::Owner;

#[cfg(test)]
mod tests;
