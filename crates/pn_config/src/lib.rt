//! The settings of `pnpm-workspace.yaml` as a value.
//!
//! `Config::read` is exact: each setting is what its key says, or its default where the file has no such key, and a
//! refusal names the first bad key in the file's order. Other keys are passed over.
//!
//!     let node = pn_yaml::read(alloc, bytes)?;
//!     let config = Config::read(alloc, Some(&node), &[])?;
//!     let store = config.virtual_store(alloc, &root)?;
#![tactic(auto)]

mod catalogs;
mod config;
mod fault;
mod folder;
mod key;
mod laws;
mod overrides;
mod patterns;
mod settings;
#[cfg(test)]
mod tests;
mod value;

pub use config::Config;
pub use fault::ConfigFault;
pub use laws::{answer_law, join_law, passed_law, resolved_law, settled_law};
pub use overrides::Overrides;
