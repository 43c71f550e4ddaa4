// Locks that are made by hand, and their texts.
ghost use Rattle.std.specs.Prelude.{◌≡◌, [], ◌∷◌, IfOk, map};
ghost use Rattle.pn_lock_print.specs.LockSamples.{dependency, entry, importer, link, packed, one_of_each, peer, rule, snapshot, two_packages};

use crate::print;
use pn_digest::{Digest, Integrity};
use pn_lock::{
    Lock, LockCatalog, LockDependency, LockGoal, LockImporter, LockLink, LockPackage, LockPeer,
    LockSnapshot, Override,
};
use pn_text::{PkgId, PkgName, Text};
use sqlite_items::Items;
use std::alloc::Global;
use std::test::Fail;

// The SHA-512 of no bytes.
const DIGEST: [u8; 64] = [
    207, 131, 225, 53, 126, 239, 184, 189, 241, 84, 40, 80, 214, 109, 128, 7, 214, 32, 228, 5, 11,
    87, 21, 220, 131, 244, 169, 33, 211, 108, 233, 206, 71, 208, 209, 60, 93, 133, 242, 176, 255,
    131, 24, 210, 135, 126, 236, 47, 99, 185, 49, 189, 71, 65, 122, 129, 165, 56, 50, 122, 249, 39,
    218, 62,
];

const TWO_PACKAGES: &str = "lockfileVersion: '9.0'

settings:
  autoInstallPeers: true
  excludeLinksFromLockfile: false

importers:

  .:
    dependencies:
      a:
        specifier: 1.0.0
        version: 1.0.0

packages:

  a@1.0.0:
    resolution: {integrity: sha512-z4PhNX7vuL3xVChQ1m2AB9Yg5AULVxXcg/SpIdNs6c5H0NE8XYXysP+DGNKHfuwvY7kxvUdBeoGlODJ6+SfaPg==}

  b@1.0.0:
    resolution: {integrity: sha512-z4PhNX7vuL3xVChQ1m2AB9Yg5AULVxXcg/SpIdNs6c5H0NE8XYXysP+DGNKHfuwvY7kxvUdBeoGlODJ6+SfaPg==}

snapshots:

  a@1.0.0:
    dependencies:
      b: 1.0.0

  b@1.0.0: {}
";

const ONE_OF_EACH: &str = "lockfileVersion: '9.0'

settings:
  autoInstallPeers: false
  excludeLinksFromLockfile: false

catalogs:
  default:
    c:
      specifier: ^2.0.0
      version: 2.0.0

overrides:
  a>b: '-'

importers:

  lib:
    dependencies:
      other:
        specifier: npm:c@2.0.0
        version: c@2.0.0(z@1.0.0)
    devDependencies:
      self:
        specifier: link:.
        version: link:.

packages:

  c@2.0.0:
    resolution: {integrity: sha512-z4PhNX7vuL3xVChQ1m2AB9Yg5AULVxXcg/SpIdNs6c5H0NE8XYXysP+DGNKHfuwvY7kxvUdBeoGlODJ6+SfaPg==}
    peerDependencies:
      z: '*'
    peerDependenciesMeta:
      z:
        optional: true

snapshots:

  c@2.0.0(z@1.0.0):
    dependencies:
      lib: link:lib
    optionalDependencies:
      d: c@2.0.0(z@1.0.0)
    transitivePeerDependencies:
      - react
";

fn dependencies(
    alloc: Global,
    rows: &[(&str, &str, LockGoal)],
) -> Result<Items<LockDependency>, Fail>
    ensures { IfOk result (λ ds. ds ≡ map (λ r. dependency r.0.now r.1.now r.2) rows.now) }
{
    let mut items = Items::new(alloc);
    for (alias, specifier, to) in rows {
        let alias = PkgName::read(alloc, alias)?;
        let specifier = Text::of(alloc, specifier)?;
        items.push(LockDependency {
            alias,
            specifier,
            to: *to,
        })?;
    }
    Ok(items)
}

fn links(alloc: Global, rows: &[(&str, LockGoal)]) -> Result<Items<LockLink>, Fail>
    ensures { IfOk result (λ ls. ls ≡ map (λ r. link r.0.now r.1) rows.now) }
{
    let mut items = Items::new(alloc);
    for (alias, to) in rows {
        let alias = PkgName::read(alloc, alias)?;
        items.push(LockLink { alias, to: *to })?;
    }
    Ok(items)
}

fn peers(alloc: Global, rows: &[(&str, &str)]) -> Result<Items<LockPeer>, Fail>
    ensures { IfOk result (λ ps. ps ≡ map (λ r. peer r.0.now r.1.now) rows.now) }
{
    let mut items = Items::new(alloc);
    for (name, range) in rows {
        let name = PkgName::read(alloc, name)?;
        let range = Text::of(alloc, range)?;
        items.push(LockPeer { name, range })?;
    }
    Ok(items)
}

fn names(alloc: Global, texts: &[&str]) -> Result<Items<PkgName>, Fail>
    ensures { IfOk result (λ ns. ns ≡ map (λ t. t.now) texts.now) }
{
    let mut items = Items::new(alloc);
    for text in texts {
        let name = PkgName::read(alloc, text)?;
        items.push(name)?;
    }
    Ok(items)
}

fn importer(
    alloc: Global,
    folder: &str,
    rows: &[(&str, &str, LockGoal)],
    dev: &[(&str, &str, LockGoal)],
) -> Result<LockImporter, Fail>
    ensures { IfOk result (λ i. i ≡ importer folder.now (map (λ r. dependency r.0.now r.1.now r.2) rows.now)
        (map (λ r. dependency r.0.now r.1.now r.2) dev.now) []) }
{
    Ok(LockImporter {
        folder: Text::of(alloc, folder)?,
        dependencies: dependencies(alloc, rows)?,
        dev: dependencies(alloc, dev)?,
        optional: Items::new(alloc),
    })
}

fn id(alloc: Global, text: &str) -> Result<PkgId, Fail>
    ensures { IfOk result (λ id. id ≡ text.now) }
{
    match PkgId::read(alloc, text)? {
        Some(id) => Ok(id),
        None => Err(Fail::from("no id")),
    }
}

fn package(
    alloc: Global,
    text: &str,
    rows: &[(&str, &str)],
    optional: &[&str],
) -> Result<LockPackage, Fail>
    ensures { IfOk result (λ p. p ≡ packed text.now (map (λ r. peer r.0.now r.1.now) rows.now) (map (λ t. t.now) optional.now)) }
{
    Ok(LockPackage {
        id: id(alloc, text)?,
        integrity: Integrity::of(Digest::of(DIGEST)),
        peers: peers(alloc, rows)?,
        optional_peers: names(alloc, optional)?,
    })
}

fn snapshot(
    alloc: Global,
    path: &str,
    rows: &[(&str, LockGoal)],
    optional: &[(&str, LockGoal)],
    transitive: &[&str],
) -> Result<LockSnapshot, Fail>
    ensures { IfOk result (λ s. s ≡ snapshot path.now (map (λ r. link r.0.now r.1) rows.now)
        (map (λ r. link r.0.now r.1) optional.now) (map (λ t. t.now) transitive.now)) }
{
    Ok(LockSnapshot {
        path: Text::of(alloc, path)?,
        dependencies: links(alloc, rows)?,
        optional: links(alloc, optional)?,
        transitive: names(alloc, transitive)?,
    })
}

fn catalogs(alloc: Global, rows: &[(&str, &str, &str, &str)]) -> Result<Items<LockCatalog>, Fail>
    ensures { IfOk result (λ es. es ≡ map (λ r. entry r.0.now r.1.now r.2.now r.3.now) rows.now) }
{
    let mut items = Items::new(alloc);
    for (catalog, name, specifier, version) in rows {
        let entry = LockCatalog {
            catalog: Text::of(alloc, catalog)?,
            name: PkgName::read(alloc, name)?,
            specifier: Text::of(alloc, specifier)?,
            version: Text::of(alloc, version)?,
        };
        items.push(entry)?;
    }
    Ok(items)
}

fn rules(alloc: Global, rows: &[(&str, &str)]) -> Result<Items<Override>, Fail>
    ensures { IfOk result (λ os. os ≡ map (λ r. rule r.0.now r.1.now) rows.now) }
{
    let mut items = Items::new(alloc);
    for (selector, value) in rows {
        let selector = Text::of(alloc, selector)?;
        let value = Text::of(alloc, value)?;
        items.push(Override { selector, value })?;
    }
    Ok(items)
}

fn one<T: Drop>(alloc: Global, item: T) -> Result<Items<T>, Fail>
    ensures { IfOk result (λ is. is ≡ item ∷ []) }
{
    let mut items = Items::new(alloc);
    items.push(item)?;
    Ok(items)
}

fn two_packages(alloc: Global) -> Result<Lock, Fail>
    ensures { IfOk result (λ l. l ≡ two_packages) }
{
    let a = importer(alloc, ".", &[("a", "1.0.0", LockGoal::Snapshot(0))], &[])?;
    let importers = one(alloc, a)?;
    let mut packages = one(alloc, package(alloc, "a@1.0.0", &[], &[])?)?;
    packages.push(package(alloc, "b@1.0.0", &[], &[])?)?;
    let a = snapshot(alloc, "a@1.0.0", &[("b", LockGoal::Snapshot(1))], &[], &[])?;
    let mut snapshots = one(alloc, a)?;
    snapshots.push(snapshot(alloc, "b@1.0.0", &[], &[], &[])?)?;
    let catalogs = Items::new(alloc);
    let rules = Items::new(alloc);
    Ok(Lock::of(true, catalogs, rules, importers, packages, snapshots))
}

fn one_of_each(alloc: Global) -> Result<Lock, Fail>
    ensures { IfOk result (λ l. l ≡ one_of_each) }
{
    let lib = importer(
        alloc,
        "lib",
        &[("other", "npm:c@2.0.0", LockGoal::Snapshot(0))],
        &[("self", "link:.", LockGoal::Importer(0))],
    )?;
    let importers = one(alloc, lib)?;
    let packages = one(alloc, package(alloc, "c@2.0.0", &[("z", "*")], &["z"])?)?;
    let path = snapshot(
        alloc,
        "c@2.0.0(z@1.0.0)",
        &[("lib", LockGoal::Importer(0))],
        &[("d", LockGoal::Snapshot(0))],
        &["react"],
    )?;
    let snapshots = one(alloc, path)?;
    let catalogs = catalogs(alloc, &[("default", "c", "^2.0.0", "2.0.0")])?;
    let rules = rules(alloc, &[("a>b", "-")])?;
    Ok(Lock::of(false, catalogs, rules, importers, packages, snapshots))
}

// Whether a lock is printed as this text.
fn is_printed(alloc: Global, lock: &Lock, text: &str) -> Result<bool, Fail> {
    let bytes = print(alloc, lock)?;
    Ok(bytes.as_slice() == text.as_bytes())
}

#[test]
fn locks_are_printed(rt: HostRuntime) -> Result<(), Fail> {
    let alloc = rt.alloc();
    let two = two_packages(alloc)?;
    assert!(rt; is_printed(alloc, &two, TWO_PACKAGES)?);
    let each = one_of_each(alloc)?;
    assert!(rt; is_printed(alloc, &each, ONE_OF_EACH)?);
    Ok(())
}
