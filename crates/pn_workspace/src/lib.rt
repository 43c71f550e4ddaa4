//! Where a workspace is: its root, what the root's workspace file says, and where the virtual store lies.
//!
//! The root is the nearest of a folder and those above it that has a `pnpm-workspace.yaml`, or the folder itself where
//! none has.
//!
//!     let workspace = find(alloc, &place, &mut project)?;
//!     let store = virtual_store(alloc, &workspace, &place, &projects)?;
#![tactic(auto)]

mod fault;
mod laws;
mod search;
mod store;
#[cfg(test)]
mod tests;
mod within;

pub use fault::{StoreFault, WorkspaceFault, WorkspaceWhy};
pub use laws::{answer_law, place_law, root_law};
pub use search::{Workspace, find};
pub use store::{is_default_store, virtual_store};
