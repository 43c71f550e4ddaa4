// A lockfile whose targets aren't looked up yet.
use pn_lock::{LockCatalog, LockPackage, Override};
use pn_text::{PkgName, Text};
use sqlite_items::Items;

/// Where a target's text leads: to a project's folder, if one can be there, with the text as it is written; or to a dep path.
#[derive(Drop)]
pub enum Aim {
    Folder(Option<Text>, Text),
    Path(Text),
}

/// A dependency of a project.
#[derive(Drop)]
pub struct DraftDependency {
    pub alias: PkgName,
    pub specifier: Text,
    pub aim: Aim,
}

/// A dependency of a snapshot.
#[derive(Drop)]
pub struct DraftLink {
    pub alias: PkgName,
    pub aim: Aim,
}

/// A project: its folder, and its dependencies in byte order of aliases.
#[derive(Drop)]
pub struct DraftImporter {
    pub folder: Text,
    pub dependencies: Items<DraftDependency>,
    pub dev: Items<DraftDependency>,
    pub optional: Items<DraftDependency>,
}

/// A snapshot: its dep path, and its dependencies in byte order of aliases.
#[derive(Drop)]
pub struct DraftSnapshot {
    pub path: Text,
    pub dependencies: Items<DraftLink>,
    pub optional: Items<DraftLink>,
    pub transitive: Items<PkgName>,
}

/// What a lockfile says, with targets by their folders and dep paths.
#[derive(Drop)]
pub struct Draft {
    pub auto: bool,
    pub catalogs: Items<LockCatalog>,
    pub overrides: Items<Override>,
    pub importers: Items<DraftImporter>,
    pub packages: Items<LockPackage>,
    pub snapshots: Items<DraftSnapshot>,
}
