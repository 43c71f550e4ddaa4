//! Makes one planned entry stand at its path, where nothing or an entry of its kind stands. What stands as planned is
//! read and left alone, whatever is answered. A stored file comes from the store in pieces and is hashed on the way: after
//! `Ok` the bytes in the tree have the planned digest, whatever others do to the store meanwhile.
//!
//!     let mut buffer = vec![in alloc; 0u8; PIECE]?;
//!     let found = tree.kind(&path)?;
//!     repair(&mut tree, &mut disk, &path, &planned, found, &mut buffer)?;
#![tactic(auto)]

mod calls;
mod entry;
mod fault;
mod link;
mod stored;
mod text;

pub use entry::{is_fitting, repair};
pub use fault::RepairFault;

#[cfg(test)]
mod tests;
