//! A lockfile as a value.
//!
//! A lock holds what a lockfile says: its settings, catalogs and overrides, the projects with their dependencies, the packages
//! with their integrities, and the snapshots with what they link to. Contracts see it as the record of these lists, and each
//! lock keeps `IsLock`: lists are in byte order of their keys, names and dep paths are in their grammars, no name stands twice
//! where one place looks it up, and each target is there.
//!
//!     let goal = lock.link(LockAt::Importer(0), &name);
//!     for package in lock.packages() { .. }
#![tactic(auto)]

mod folder;
mod goal;
mod lists;
mod lock;

pub use folder::is_folder;
pub use goal::{LockAt, LockGoal};
pub use lists::{
    LockCatalog, LockDependency, LockImporter, LockLink, LockPackage, LockPeer, LockSnapshot,
    Override,
};
pub use lock::Lock;
