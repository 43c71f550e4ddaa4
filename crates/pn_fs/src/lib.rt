//! The outside of the installer: a tree of folders, files and links, and a sink of text.
#![tactic(auto)]

mod body;
mod fs;
mod kind;
mod list;
mod making;
mod mem;
mod memsink;
mod nodes;
mod piece;
mod sink;
mod sure;
mod suresink;

pub use body::Body;
pub use fs::{Fs, ReadFs};
pub use kind::Kind;
pub use making::{is_free, make, try_make};
pub use mem::MemFs;
pub use memsink::MemSink;
pub use sink::Sink;
pub use sure::SureFs;
pub use suresink::SureSink;

#[cfg(test)]
mod tests;
