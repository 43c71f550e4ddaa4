//! The real outside: a file system below a folder of the machine's, a store in one, and a stream of the process.
//!
//! None tells what it holds or took, so that no theorem rests on them; each tells its count of faults, and answers
//! `Failed` only where that rose. Paths and names are UTF-8: an entry with another name is a fault.
#![tactic(auto)]

mod faults;
mod names;
mod opened;
mod real_fs;
mod real_sink;
mod real_store;
mod store_names;
mod store_paths;

pub use real_fs::RealFs;
pub use real_sink::RealSink;
pub use real_store::RealStore;
