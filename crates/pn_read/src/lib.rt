//! Reads files of a tree whole, piece by piece, up to a limit: the bytes that stand there, or which
//! cause there is for none.
#![tactic(auto)]

mod pieces;
mod small;

pub use pieces::{ReadFault, read_file};
pub use small::{SmallFault, read_small};
