//! The packages of an install (`collect`): those of a plain graph, in byte order of their ids, each with its links, its
//! folder in the registry and its files; and the links of the root project. They keep what the layout of an install asks:
//! names and ids are sound, no two are one, each link leads to one of them, and their files are in the registry. A refusal
//! is that of the first package in that order that has no files, and there is none where all have theirs (`passed_law`).
#![tactic(auto)]

mod bare;
mod fault;
mod folder;
mod laws;
mod links;
mod package;
mod packages;
mod paths;

pub use fault::CollectFault;
pub use laws::{cause_law, passed_law, same_law};
pub use packages::{Collected, collect};
