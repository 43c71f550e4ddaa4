// The planned tree of a small workspace.
ghost use Rattle.std.specs.Prelude.{◌≡◌, ◌∷◌, [], IfOk};
ghost use Rattle.pn_lock_layout.specs.Placed.{AreListings, IsCleanListing, IsPlaced};
ghost use Rattle.pn_lock_layout.specs.Rows.{dependency, held, importers, link, lock, packages, project, snapshot, snapshots, w};

use crate::plan::layout;
use pn_digest::{Digest, Integrity, Listing, Planned, PlannedTree};
use pn_lock::{Lock, LockDependency, LockGoal, LockImporter, LockLink, LockPackage, LockSnapshot};
use pn_text::{AbsPath, PkgId, PkgName, RelPath, Text};
use sqlite_items::Items;
use std::alloc::Global;
use std::test::Fail;

fn dependency(alloc: Global, alias: &str, to: LockGoal) -> Result<Items<LockDependency>, Fail>
    ensures { IfOk result (λ ds. ds ≡ dependency alias.now to ∷ []) }
{
    let alias = PkgName::read(alloc, alias)?;
    let specifier = Text::of(alloc, "1")?;
    let mut items = Items::new(alloc);
    items.push(LockDependency {
        alias,
        specifier,
        to,
    })?;
    Ok(items)
}

fn project(
    alloc: Global,
    folder: &str,
    dependencies: Items<LockDependency>,
    dev: Items<LockDependency>,
) -> Result<LockImporter, Fail>
    ensures { IfOk result (λ i. i ≡ project folder.now dependencies dev) }
{
    let folder = Text::of(alloc, folder)?;
    Ok(LockImporter {
        folder,
        dependencies,
        dev,
        optional: Items::new(alloc),
    })
}

fn importers(alloc: Global) -> Result<Items<LockImporter>, Fail>
    ensures { IfOk result (λ is. is ≡ importers) }
{
    let a = dependency(alloc, "a", LockGoal::Snapshot(0))?;
    let b = dependency(alloc, "b", LockGoal::Importer(1))?;
    let root = project(alloc, ".", a, b)?;
    let c = dependency(alloc, "c", LockGoal::Snapshot(1))?;
    let other = project(alloc, "packages/b", c, Items::new(alloc))?;
    let mut items = Items::new(alloc);
    items.push(root)?;
    items.push(other)?;
    Ok(items)
}

fn held(alloc: Global, id: &str) -> Result<LockPackage, Fail>
    ensures { IfOk result (λ p. p ≡ held id.now) }
{
    let peers = Items::new(alloc);
    let optional_peers = Items::new(alloc);
    match PkgId::read(alloc, id)? {
        Some(id) => Ok(LockPackage {
            id,
            integrity: Integrity::of(Digest::of([7; 64])),
            peers,
            optional_peers,
        }),
        None => Err(Fail::from("no id")),
    }
}

fn packages(alloc: Global) -> Result<Items<LockPackage>, Fail>
    ensures { IfOk result (λ ps. ps ≡ packages) }
{
    let a = held(alloc, "a@1.0.0")?;
    let c = held(alloc, "c@1.0.0")?;
    let mut items = Items::new(alloc);
    items.push(a)?;
    items.push(c)?;
    Ok(items)
}

fn link(alloc: Global, alias: &str, to: LockGoal) -> Result<Items<LockLink>, Fail>
    ensures { IfOk result (λ ks. ks ≡ link alias.now to ∷ []) }
{
    let alias = PkgName::read(alloc, alias)?;
    let mut items = Items::new(alloc);
    items.push(LockLink { alias, to })?;
    Ok(items)
}

fn snapshot(
    alloc: Global,
    path: &str,
    dependencies: Items<LockLink>,
    optional: Items<LockLink>,
) -> Result<LockSnapshot, Fail>
    ensures { IfOk result (λ s. s ≡ snapshot path.now dependencies optional) }
{
    let path = Text::of(alloc, path)?;
    Ok(LockSnapshot {
        path,
        dependencies,
        optional,
        transitive: Items::new(alloc),
    })
}

fn snapshots(alloc: Global) -> Result<Items<LockSnapshot>, Fail>
    ensures { IfOk result (λ ss. ss ≡ snapshots) }
{
    let c = link(alloc, "c", LockGoal::Snapshot(1))?;
    let b = link(alloc, "b", LockGoal::Importer(1))?;
    let first = snapshot(alloc, "a@1.0.0(c@1.0.0)", c, b)?;
    let second = snapshot(alloc, "c@1.0.0", Items::new(alloc), Items::new(alloc))?;
    let mut items = Items::new(alloc);
    items.push(first)?;
    items.push(second)?;
    Ok(items)
}

fn lock(alloc: Global) -> Result<Lock, Fail>
    ensures { IfOk result (λ l. l ≡ lock) }
{
    let importers = importers(alloc)?;
    let packages = packages(alloc)?;
    let snapshots = snapshots(alloc)?;
    Ok(Lock::of(
        true,
        Items::new(alloc),
        Items::new(alloc),
        importers,
        packages,
        snapshots,
    ))
}

fn listing(alloc: Global, name: &str) -> Result<Listing, Fail>
    ensures { IfOk result IsCleanListing }
{
    let path = RelPath::read(alloc, name)?;
    if path.has_modules() {
        return Err(Fail::from("no clean path"));
    }
    let mut files = Vec::new(alloc);
    files.push((path, Digest::of([7; 64])))?;
    Ok(Listing::of_files(alloc, files)?)
}

fn listings(alloc: Global) -> Result<Vec<Listing>, Fail>
    ensures { IfOk result (λ v. AreListings lock v.items) }
{
    let x = listing(alloc, "x.js")?;
    let y = listing(alloc, "y.js")?;
    let mut all = Vec::new(alloc);
    all.push(x)?;
    all.push(y)?;
    Ok(all)
}

fn line(alloc: Global, what: &Planned) -> Result<Text, Fail> {
    let text = match what {
        Planned::Folder => Text::of(alloc, "folder")?,
        Planned::Bytes(bytes) => bytes.copy(alloc)?,
        Planned::Stored(_) => Text::of(alloc, "file")?,
        Planned::Link(to) => to.copy(alloc)?,
    };
    Ok(text)
}

fn shown(alloc: Global, tree: &PlannedTree) -> Result<String, Fail> {
    let mut all = String::new(alloc);
    for (path, what) in tree.as_slice() {
        all.push_str(path.as_str())?;
        all.push_str(" ")?;
        all.push_str(line(alloc, what)?.as_str())?;
        all.push_str("\n")?;
    }
    Ok(all)
}

fn planned(alloc: Global, store: &AbsPath) -> Result<PlannedTree, Fail>
    requires { IsPlaced lock w store.now [] }
{
    let lock = lock(alloc)?;
    let listings = listings(alloc)?;
    let root = AbsPath::read(alloc, "/w")?;
    Ok(layout(alloc, &lock, &root, store, &[], &listings)?)
}

#[test]
fn snapshots_stand_in_the_default_virtual_store(rt: HostRuntime) -> Result<(), Fail> {
    let alloc = rt.alloc();
    let store = AbsPath::read(alloc, "/w/node_modules/.pnpm")?;
    let tree = planned(alloc, &store)?;
    assert_eq!(rt;
        shown(alloc, &tree)?.as_str(),
        "/w/node_modules folder\n/w/node_modules/.pnpm folder\n/w/node_modules/.pnpm-rs pnpm-rs 1\n\n\
         /w/node_modules/.pnpm/a@1.0.0_c@1.0.0 folder\n/w/node_modules/.pnpm/a@1.0.0_c@1.0.0/node_modules folder\n\
         /w/node_modules/.pnpm/a@1.0.0_c@1.0.0/node_modules/a folder\n\
         /w/node_modules/.pnpm/a@1.0.0_c@1.0.0/node_modules/a/x.js file\n\
         /w/node_modules/.pnpm/a@1.0.0_c@1.0.0/node_modules/b ../../../../packages/b\n\
         /w/node_modules/.pnpm/a@1.0.0_c@1.0.0/node_modules/c ../../c@1.0.0/node_modules/c\n\
         /w/node_modules/.pnpm/c@1.0.0 folder\n/w/node_modules/.pnpm/c@1.0.0/node_modules folder\n\
         /w/node_modules/.pnpm/c@1.0.0/node_modules/c folder\n/w/node_modules/.pnpm/c@1.0.0/node_modules/c/y.js file\n\
         /w/node_modules/a .pnpm/a@1.0.0_c@1.0.0/node_modules/a\n/w/node_modules/b ../packages/b\n\
         /w/packages/b/node_modules folder\n/w/packages/b/node_modules/.pnpm-rs pnpm-rs 1\n\n\
         /w/packages/b/node_modules/c ../../../node_modules/.pnpm/c@1.0.0/node_modules/c\n"
    );
    Ok(())
}

#[test]
fn another_virtual_store_names_the_root(rt: HostRuntime) -> Result<(), Fail> {
    let alloc = rt.alloc();
    let store = AbsPath::read(alloc, "/v")?;
    let tree = planned(alloc, &store)?;
    assert_eq!(rt;
        shown(alloc, &tree)?.as_str(),
        "/v folder\n/v/.pnpm-rs pnpm-rs 1 /w\n\n\
         /v/a@1.0.0_c@1.0.0 folder\n/v/a@1.0.0_c@1.0.0/node_modules folder\n\
         /v/a@1.0.0_c@1.0.0/node_modules/a folder\n/v/a@1.0.0_c@1.0.0/node_modules/a/x.js file\n\
         /v/a@1.0.0_c@1.0.0/node_modules/b ../../../w/packages/b\n\
         /v/a@1.0.0_c@1.0.0/node_modules/c ../../c@1.0.0/node_modules/c\n\
         /v/c@1.0.0 folder\n/v/c@1.0.0/node_modules folder\n/v/c@1.0.0/node_modules/c folder\n\
         /v/c@1.0.0/node_modules/c/y.js file\n\
         /w/node_modules folder\n/w/node_modules/.pnpm-rs pnpm-rs 1\n\n\
         /w/node_modules/a ../../v/a@1.0.0_c@1.0.0/node_modules/a\n/w/node_modules/b ../packages/b\n\
         /w/packages/b/node_modules folder\n/w/packages/b/node_modules/.pnpm-rs pnpm-rs 1\n\n\
         /w/packages/b/node_modules/c ../../../../v/c@1.0.0/node_modules/c\n"
    );
    Ok(())
}
