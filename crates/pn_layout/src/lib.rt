//! The planned tree of an install of one project: packages without peers, one instance each, in the virtual store of the
//! project's `node_modules`, with links from aliases to ids, and files by their digests.
//!
//! `layout` gives exactly what is planned, as a list of paths, or the length of the first path that is too long. The laws say
//! what a tree is that has the plan: what each alias leads to is found in it, and the packages' files stand.
#![tactic(auto)]

mod homes;
mod laws;
mod outer;
mod parts;
mod plan;

pub use laws::{cause_law, finds_law, held_law, passed_law, same_law};
pub use plan::layout;
pub use pn_tree::LayoutFault;

#[cfg(test)]
mod tests;
