// A small lock without its development dependency.
ghost use Rattle.std.specs.Prelude.{◌≡◌, ◌∷◌, [], IfOk};
ghost use Rattle.pn_lock_prod.specs.Rows.{dependency, held, importers, link, lock, packages, project, snapshot, snapshots};

use crate::prod;
use pn_digest::{Digest, Integrity};
use pn_lock::{Lock, LockDependency, LockGoal, LockImporter, LockLink, LockPackage, LockSnapshot};
use pn_text::{PkgId, PkgName, Text};
use sqlite_items::Items;
use std::alloc::Global;
use std::test::Fail;

fn dependency(alloc: Global, alias: &str, n: u32) -> Result<Items<LockDependency>, Fail>
    ensures { IfOk result (λ ds. ds ≡ dependency alias.now n ∷ []) }
{
    let alias = PkgName::read(alloc, alias)?;
    let specifier = Text::of(alloc, "1")?;
    let mut items = Items::new(alloc);
    items.push(LockDependency {
        alias,
        specifier,
        to: LockGoal::Snapshot(n),
    })?;
    Ok(items)
}

fn importers(alloc: Global) -> Result<Items<LockImporter>, Fail>
    ensures { IfOk result (λ is. is ≡ importers) }
{
    let dependencies = dependency(alloc, "b", 1)?;
    let dev = dependency(alloc, "a", 0)?;
    let mut items = Items::new(alloc);
    items.push(LockImporter {
        folder: Text::of(alloc, ".")?,
        dependencies,
        dev,
        optional: Items::new(alloc),
    })?;
    Ok(items)
}

fn held(alloc: Global, id: &str) -> Result<LockPackage, Fail>
    ensures { IfOk result (λ p. p ≡ held id.now) }
{
    let peers = Items::new(alloc);
    let optional_peers = Items::new(alloc);
    match PkgId::read(alloc, id)? {
        Some(id) => Ok(LockPackage {
            id,
            integrity: Integrity::of(Digest::of([7; 64])),
            peers,
            optional_peers,
        }),
        None => Err(Fail::from("no id")),
    }
}

fn packages(alloc: Global) -> Result<Items<LockPackage>, Fail>
    ensures { IfOk result (λ ps. ps ≡ packages) }
{
    let a = held(alloc, "a@1.0.0")?;
    let b = held(alloc, "b@1.0.0")?;
    let mut items = Items::new(alloc);
    items.push(a)?;
    items.push(b)?;
    Ok(items)
}

fn snapshot(alloc: Global, path: &str, links: Items<LockLink>) -> Result<LockSnapshot, Fail>
    ensures { IfOk result (λ s. s ≡ snapshot path.now links) }
{
    Ok(LockSnapshot {
        path: Text::of(alloc, path)?,
        dependencies: links,
        optional: Items::new(alloc),
        transitive: Items::new(alloc),
    })
}

fn snapshots(alloc: Global) -> Result<Items<LockSnapshot>, Fail>
    ensures { IfOk result (λ ss. ss ≡ snapshots) }
{
    let alias = PkgName::read(alloc, "b")?;
    let mut links = Items::new(alloc);
    links.push(LockLink {
        alias,
        to: LockGoal::Snapshot(1),
    })?;
    let a = snapshot(alloc, "a@1.0.0", links)?;
    let b = snapshot(alloc, "b@1.0.0", Items::new(alloc))?;
    let mut items = Items::new(alloc);
    items.push(a)?;
    items.push(b)?;
    Ok(items)
}

fn lock(alloc: Global) -> Result<Lock, Fail>
    ensures { IfOk result (λ l. l ≡ lock) }
{
    let importers = importers(alloc)?;
    let packages = packages(alloc)?;
    let snapshots = snapshots(alloc)?;
    Ok(Lock::of(
        true,
        Items::new(alloc),
        Items::new(alloc),
        importers,
        packages,
        snapshots,
    ))
}

// The ids, the dep paths and the names of the projects' dependencies.
fn shown(alloc: Global, lock: &Lock) -> Result<String, Fail> {
    let mut text = String::new(alloc);
    for package in lock.packages() {
        text.push_str(package.id.as_str())?;
        text.push_str(" ")?;
    }
    for snapshot in lock.snapshots() {
        text.push_str(snapshot.path.as_str())?;
        text.push_str(" ")?;
    }
    for importer in lock.importers() {
        push_names(importer.dependencies.as_slice(), &mut text)?;
        push_names(importer.dev.as_slice(), &mut text)?;
    }
    Ok(text)
}

fn push_names(dependencies: &[LockDependency], text: &mut String) -> Result<(), Fail> {
    for dependency in dependencies {
        text.push_str(dependency.alias.as_str())?;
        if dependency.to == LockGoal::Snapshot(0) {
            text.push_str(" first")?;
        }
    }
    Ok(())
}

#[test]
fn a_development_dependency_goes_and_what_others_lead_to_stays(
    rt: HostRuntime,
) -> Result<(), Fail> {
    let alloc = rt.alloc();
    let old = lock(alloc)?;
    let new = prod(alloc, &old)?;
    let text = shown(alloc, &new)?;
    assert!(rt; text.as_str() == "b@1.0.0 b@1.0.0 b first");
    Ok(())
}
