//! What stands at and below managed folders, those whose contents an installer answers for: a folder is its own where only
//! folders stand on its path and it is empty or has its marker, a file `.pnpm-rs` whose bytes are a front of the marker's
//! text. `scan` refuses the first folder that isn't, before it lists what stands below any of them. It only reads, follows
//! no link, and where the tree is told the list is exact.
//!
//! ```text
//! let managed = [(folder, marker)];
//! let found = scan(alloc, &mut fs, &managed)?;
//! for (path, kind) in found.entries() { .. }
//! ```
#![tactic(auto)]

mod fault;
mod marker;
mod order;
mod ours;
mod result;
mod walk;
mod whole;

pub use fault::ScanFault;
pub use result::Scan;
pub use whole::scan;
