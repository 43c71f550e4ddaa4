//! From a plain graph to its lock.
//!
//! `asked` is what a run asks of a lock by the manifests of its projects, as they are seen. `wanted` is what the graph's
//! packages are, in byte order of ids, each with the integrity that the old lock has for it. `lock` is the lock of what is
//! asked and of the graph, with the listings of the wanted packages; between the two no difference is found. `held` is the
//! ids that a lock holds.
//!
//!     let asked = asked(alloc, auto_peers, overrides, catalogs, &projects)?;
//!     let wanted = wanted(alloc, &plain, old)?;
//!     let lock = lock(alloc, &asked, &plain, &wanted, &listings)?;
#![tactic(auto)]

mod folders;
mod ids;
mod locks;
mod project;
mod search;
mod split;
mod wants;

pub use folders::asked;
pub use ids::held;
pub use locks::lock;
pub use project::{ProjectManifest, asked_project};
pub use wants::wanted;

#[cfg(test)]
mod tests;
