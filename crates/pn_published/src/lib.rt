//! What a registry publishes under a name: its versions, which rise, the latest of them, and its tags;
//! and the choice among them.
//!
//! A told registry settles the answer. `/NAME/VERSION` is a folder for each version, and `/NAME/tags.json` says what the
//! tags are.
#![tactic(auto)]

mod choice;
mod entries;
mod fault;
mod laws;
mod order;
mod published;
mod shelf;
mod tags;
#[cfg(test)]
mod tests;
mod top;

pub use choice::choose;
pub use fault::PublishedFault;
pub use laws::{choice_law, published_law};
pub use order::version_cmp;
pub use published::{Published, Tag, Tags, Versions};
pub use top::versions;
