//! A form after YAML 1.2, read: block maps and lists, flow values on one line, quoted and plain scalars.
//!
//! What bytes say is a definition, `says`: data, or the first line at fault. `read` answers exactly that. Contracts see a
//! node as its data, by `view`. `pn_yaml_print` prints it.
//!
//!     if let Node::Map(members) = read(alloc, bytes)? {
//!         for (key, value) in members.as_slice() { .. }
//!     }
//!
//! Bytes are parted into lines first; each reader takes the lines that are left and gives a value and the rest.
#![tactic(auto)]

mod block;
mod escape;
mod fault;
mod flow;
mod keys;
mod laws;
mod line;
mod literal;
mod node;
mod plain;
mod quoted;
mod reading;
mod rows;
mod scalar;
mod spaces;
mod split;
mod value;

pub use fault::{Why, YamlFault};
pub use laws::{place_law, read_law};
pub use node::{Node, Scalar};
pub use reading::read;

#[cfg(test)]
mod tests;
