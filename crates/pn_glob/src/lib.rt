//! Patterns of paths and of names, and what lists of them match.
//!
//! A list is read exactly by the grammar of patterns, and no texts have two answers. `BadByte` names the first byte at
//! which no reading goes on. A pattern with braces stands for texts without them, and contracts see a list as those texts.
//! Matching allocates nothing.
//!
//!     let list = PatternList::paths(alloc, &texts)?;
//!     let found = list.matches("packages/app");
//!
//! Between two gaps each place of the text is tried once, so a match takes steps in proportion to the pattern's length
//! times the text's. No clause says so.
#![tactic(auto)]

mod bytes;
mod choices;
mod fault;
mod kind;
mod laws;
mod list;
mod parts;
mod paths;
mod pattern;

pub use fault::GlobFault;
pub use laws::{literal_law, matching_law, negative_law, settled_law, star_law};
pub use list::PatternList;

#[cfg(test)]
mod tests;
