//! The packages of an install: each with its links, its folder in the registry and the paths of its files.
#![tactic(auto)]

mod links;
mod packages;

pub use links::{Link, Links};
pub use packages::Package;
