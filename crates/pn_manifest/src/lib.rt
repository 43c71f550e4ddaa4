//! What a `package.json` says: a package's own name and version, its dependencies of each kind in byte order of names, its
//! peers, scripts, commands, and what it overrides. `Manifest::read` is exact: it gives what the JSON object says, or the
//! first field and key that is wrong.
#![tactic(auto)]

mod commands;
mod dependencies;
mod fault;
mod fields;
mod flag_map;
mod laws;
mod manifest;
mod map;
mod object;
mod overrides;
mod parts;
mod peer_list;
mod peers;
mod text_map;
mod texts;

pub use dependencies::{Dependencies, Dependency};
pub use fault::{ManifestFault, ManifestWhy};
pub use laws::manifest_law;
pub use manifest::Manifest;
pub use peers::{Peer, Peers};
pub use texts::{Entries, Entry, Names};

#[cfg(test)]
mod tests;
