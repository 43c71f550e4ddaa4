//! Maps of the YAML subset as texts.
//!
//! `print` writes one text of a map, and what it writes is read as the same map, each scalar plain where it was printed
//! plain. It takes what `read` of `pn_yaml` gives: no map has a key twice, and at most 64 levels are nested.
//!
//!     let node = read(alloc, bytes)?;
//!     let text = print(alloc, &node)?;
#![tactic(auto)]

mod laws;
mod level;
mod print_block;
mod print_flow;
mod word;

pub use laws::{print_law, stable_law};
pub use print_block::print;

#[cfg(test)]
mod tests;
