// Locks.
ghost use Rattle.std.specs.Prelude.{◌≡◌, Bool};
ghost use Rattle.pn_lock.specs.Links.{IsPlace, link_of, importer_goal, snapshot_goal, dependency_goal, link_goal};
ghost use Rattle.pn_lock.specs.Locks.{locked};
ghost use Rattle.pn_lock.specs.Kept.{IsLock};

use crate::goal::{LockAt, LockGoal};
use crate::lists::{
    LockCatalog, LockDependency, LockImporter, LockLink, LockPackage, LockSnapshot, Override,
};
use pn_text::PkgName;
use sqlite_items::Items;
use std::marker::Model;

/// What a lockfile says. Contracts see the record of its lists, each in byte order of its keys.
#[derive(Drop)]
pub struct Lock {
    auto_install_peers: bool,
    catalogs: Items<LockCatalog>,
    overrides: Items<Override>,
    importers: Items<LockImporter>,
    packages: Items<LockPackage>,
    snapshots: Items<LockSnapshot>,
}

impl Model for Lock {
    ghost use Rattle.pn_lock.specs.Locks.{Locked, locked};
    ghost use Rattle.pn_lock.specs.Kept.{IsLock};

    ghost Value = { Locked };

    ghost view = { λ a. locked a.auto_install_peers a.catalogs a.overrides a.importers a.packages a.snapshots };

    ghost invariant = { λ a. IsLock (locked a.auto_install_peers a.catalogs a.overrides a.importers a.packages a.snapshots) };
}

impl Lock {
    /// The lock of these lists.
    pub fn of(
        auto_install_peers: bool,
        catalogs: Items<LockCatalog>,
        overrides: Items<Override>,
        importers: Items<LockImporter>,
        packages: Items<LockPackage>,
        snapshots: Items<LockSnapshot>,
    ) -> Lock
        requires { IsLock (locked auto_install_peers catalogs overrides importers packages snapshots) }
        ensures { result ≡ locked auto_install_peers catalogs overrides importers packages snapshots }
    {
        Lock {
            auto_install_peers,
            catalogs,
            overrides,
            importers,
            packages,
            snapshots,
        }
    }

    /// Whether peers that are in no manifest are installed of themselves.
    pub fn auto_install_peers(&self) -> bool
        ensures { result ≡ self.now.auto }
    {
        self.auto_install_peers
    }

    /// The entries of the catalogs that are used, by catalog and name.
    pub fn catalogs(&self) -> &[LockCatalog]
        ensures list { result.now ≡ self.now.catalogs }
        ensures kept { IsLock self.now }
    {
        self.catalogs.as_slice()
    }

    /// The overrides, by selector.
    pub fn overrides(&self) -> &[Override]
        ensures list { result.now ≡ self.now.overrides }
        ensures kept { IsLock self.now }
    {
        self.overrides.as_slice()
    }

    /// The projects, by folder.
    pub fn importers(&self) -> &[LockImporter]
        ensures list { result.now ≡ self.now.importers }
        ensures kept { IsLock self.now }
    {
        self.importers.as_slice()
    }

    /// The packages, by id.
    pub fn packages(&self) -> &[LockPackage]
        ensures list { result.now ≡ self.now.packages }
        ensures kept { IsLock self.now }
    {
        self.packages.as_slice()
    }

    /// The snapshots, by dep path.
    pub fn snapshots(&self) -> &[LockSnapshot]
        ensures list { result.now ≡ self.now.snapshots }
        ensures kept { IsLock self.now }
    {
        self.snapshots.as_slice()
    }

    /// What a name leads to from a project or a snapshot, or none where it has no such name.
    pub fn link(&self, at: LockAt, alias: &PkgName) -> Option<LockGoal>
        requires { IsPlace self.now at }
        ensures { result ≡ link_of self.now at alias.now }
    {
        match at {
            LockAt::Importer(n) => match self.importers.get(n as usize) {
                Some(importer) => importer_goal(importer, alias),
                None => unreachable!(),
            },
            LockAt::Snapshot(n) => match self.snapshots.get(n as usize) {
                Some(snapshot) => snapshot_goal(snapshot, alias),
                None => unreachable!(),
            },
        }
    }
}

fn importer_goal(importer: &LockImporter, alias: &PkgName) -> Option<LockGoal>
    ensures { result ≡ importer_goal alias.now importer.now }
{
    if let Some(to) = dependency_goal(importer.dependencies.as_slice(), alias) {
        return Some(to);
    }
    if let Some(to) = dependency_goal(importer.dev.as_slice(), alias) {
        return Some(to);
    }
    dependency_goal(importer.optional.as_slice(), alias)
}

fn snapshot_goal(snapshot: &LockSnapshot, alias: &PkgName) -> Option<LockGoal>
    ensures { result ≡ snapshot_goal alias.now snapshot.now }
{
    if let Some(to) = link_goal(snapshot.dependencies.as_slice(), alias) {
        return Some(to);
    }
    link_goal(snapshot.optional.as_slice(), alias)
}

fn dependency_goal(dependencies: &[LockDependency], alias: &PkgName) -> Option<LockGoal>
    ensures { result ≡ dependency_goal alias.now dependencies.now }
{
    for dependency in dependencies {
        if dependency.alias.as_str() == alias.as_str() {
            return Some(dependency.to);
        }
    }
    None
}

fn link_goal(links: &[LockLink], alias: &PkgName) -> Option<LockGoal>
    ensures { result ≡ link_goal alias.now links.now }
{
    for link in links {
        if link.alias.as_str() == alias.as_str() {
            return Some(link.to);
        }
    }
    None
}
