// What the lists of a lock hold.
use crate::goal::LockGoal;
use pn_digest::Integrity;
use pn_text::{PkgId, PkgName, Text};
use sqlite_items::Items;

/// A dependency of a project: its name there, its specifier, and what it leads to.
#[derive(Drop)]
pub struct LockDependency {
    pub alias: PkgName,
    pub specifier: Text,
    pub to: LockGoal,
}

/// A dependency of a snapshot: its name there, and what it leads to.
#[derive(Drop)]
pub struct LockLink {
    pub alias: PkgName,
    pub to: LockGoal,
}

/// A project: its folder, `.` for the root, and its dependencies.
#[derive(Drop)]
pub struct LockImporter {
    pub folder: Text,
    pub dependencies: Items<LockDependency>,
    pub dev: Items<LockDependency>,
    pub optional: Items<LockDependency>,
}

/// A peer of a package, and its range as it is written.
#[derive(Drop)]
pub struct LockPeer {
    pub name: PkgName,
    pub range: Text,
}

/// A package: its id, its integrity, its peers, and those peers that are optional.
#[derive(Drop)]
pub struct LockPackage {
    pub id: PkgId,
    pub integrity: Integrity,
    pub peers: Items<LockPeer>,
    pub optional_peers: Items<PkgName>,
}

/// A package with its peers: its dep path, what it links to, and the peers of what it leads to that it doesn't have itself.
#[derive(Drop)]
pub struct LockSnapshot {
    pub path: Text,
    pub dependencies: Items<LockLink>,
    pub optional: Items<LockLink>,
    pub transitive: Items<PkgName>,
}

/// A rule of the settings: a selector and its value.
#[derive(Drop)]
pub struct Override {
    pub selector: Text,
    pub value: Text,
}

/// An entry of a catalog: its specifier, and the version that was chosen for it.
#[derive(Drop)]
pub struct LockCatalog {
    pub catalog: Text,
    pub name: PkgName,
    pub specifier: Text,
    pub version: Text,
}
