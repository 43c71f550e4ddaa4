// What is kept of a lock.
ghost use Rattle.std.specs.Prelude.{◌≡◌, ◌<◌, ◌^◌, ◌||◌, IfOk, length, map, not};
ghost use Rattle.std.specs.List.{All, filter};
ghost use Rattle.pn_lock_prod.specs.Kept.{has_any, has_marked, new_dependency, new_goal, new_importer, new_link, new_snapshot, new_snapshots, numbers_from, stays};
ghost use Rattle.pn_lock_prod.specs.Places.{AreNumbered, AreNumberedLinks, HasNumber, IsNumberedImporter, IsNumberedSnapshot};

use crate::copies::{names, package_copy};
use pn_deppath::split_path;
use pn_lock::{LockDependency, LockGoal, LockImporter, LockLink, LockPackage, LockSnapshot};
use pn_text::{Memory, PkgId};
use sqlite_items::Items;
use std::alloc::Global;

/// The new places of snapshots: how many with a mark are before each.
pub(crate) fn numbers(alloc: Global, marks: &[bool]) -> Result<Vec<u32>, Memory>
    requires { length marks.now < 2 ^ 32 }
    ensures { IfOk result (λ v. v.items ≡ numbers_from 0 marks.now) }
{
    let mut numbers = Vec::new(alloc);
    let mut next = 0u32;
    for mark in marks {
        numbers.push(next)?;
        if *mark {
            next += 1;
        }
    }
    Ok(numbers)
}

fn new_goal(numbers: &[u32], to: LockGoal) -> LockGoal
    requires { HasNumber (length numbers.now) to }
    ensures { result ≡ new_goal numbers.now to }
{
    match to {
        LockGoal::Importer(q) => LockGoal::Importer(q),
        LockGoal::Snapshot(k) => LockGoal::Snapshot(numbers[k as usize]),
    }
}

/// The projects without their development dependencies.
pub(crate) fn new_importers(
    alloc: Global,
    numbers: &[u32],
    these: &[LockImporter],
) -> Result<Items<LockImporter>, Memory>
    requires { All (IsNumberedImporter (length numbers.now)) these.now }
    ensures { IfOk result (λ is. is ≡ map (new_importer numbers.now) these.now) }
{
    let mut all = Items::new(alloc);
    for old in these {
        let one = new_importer(alloc, numbers, old)?;
        all.push(one)?;
    }
    Ok(all)
}

fn new_importer(alloc: Global, numbers: &[u32], old: &LockImporter) -> Result<LockImporter, Memory>
    requires { IsNumberedImporter (length numbers.now) old.now }
    ensures { IfOk result (λ i. i ≡ new_importer numbers.now old.now) }
{
    let folder = old.folder.copy(alloc)?;
    let dependencies = new_dependencies(alloc, numbers, old.dependencies.as_slice())?;
    let optional = new_dependencies(alloc, numbers, old.optional.as_slice())?;
    Ok(LockImporter {
        folder,
        dependencies,
        dev: Items::new(alloc),
        optional,
    })
}

fn new_dependencies(
    alloc: Global,
    numbers: &[u32],
    these: &[LockDependency],
) -> Result<Items<LockDependency>, Memory>
    requires { AreNumbered (length numbers.now) these.now }
    ensures { IfOk result (λ ds. ds ≡ map (new_dependency numbers.now) these.now) }
{
    let mut all = Items::new(alloc);
    for old in these {
        let one = new_dependency(alloc, numbers, old)?;
        all.push(one)?;
    }
    Ok(all)
}

fn new_dependency(
    alloc: Global,
    numbers: &[u32],
    old: &LockDependency,
) -> Result<LockDependency, Memory>
    requires { HasNumber (length numbers.now) old.now.to }
    ensures { IfOk result (λ d. d ≡ new_dependency numbers.now old.now) }
{
    let alias = old.alias.copy(alloc)?;
    let specifier = old.specifier.copy(alloc)?;
    Ok(LockDependency {
        alias,
        specifier,
        to: new_goal(numbers, old.to),
    })
}

/// The snapshots with a mark.
pub(crate) fn new_snapshots(
    alloc: Global,
    numbers: &[u32],
    marks: &[bool],
    these: &[LockSnapshot],
) -> Result<Items<LockSnapshot>, Memory>
    requires numbered { All (IsNumberedSnapshot (length numbers.now)) these.now }
    requires count { length marks.now ≡ length these.now }
    ensures { IfOk result (λ ss. ss ≡ new_snapshots numbers.now marks.now these.now) }
{
    let mut all = Items::new(alloc);
    for (n, old) in these.iter().enumerate() {
        if marks[n] {
            let one = new_snapshot(alloc, numbers, old)?;
            all.push(one)?;
        }
    }
    Ok(all)
}

fn new_snapshot(alloc: Global, numbers: &[u32], old: &LockSnapshot) -> Result<LockSnapshot, Memory>
    requires { IsNumberedSnapshot (length numbers.now) old.now }
    ensures { IfOk result (λ s. s ≡ new_snapshot numbers.now old.now) }
{
    let path = old.path.copy(alloc)?;
    let dependencies = new_links(alloc, numbers, old.dependencies.as_slice())?;
    let optional = new_links(alloc, numbers, old.optional.as_slice())?;
    let transitive = names(alloc, old.transitive.as_slice())?;
    Ok(LockSnapshot {
        path,
        dependencies,
        optional,
        transitive,
    })
}

fn new_links(alloc: Global, numbers: &[u32], these: &[LockLink]) -> Result<Items<LockLink>, Memory>
    requires { AreNumberedLinks (length numbers.now) these.now }
    ensures { IfOk result (λ ls. ls ≡ map (new_link numbers.now) these.now) }
{
    let mut all = Items::new(alloc);
    for old in these {
        let one = new_link(alloc, numbers, old)?;
        all.push(one)?;
    }
    Ok(all)
}

fn new_link(alloc: Global, numbers: &[u32], old: &LockLink) -> Result<LockLink, Memory>
    requires { HasNumber (length numbers.now) old.now.to }
    ensures { IfOk result (λ l. l ≡ new_link numbers.now old.now) }
{
    let alias = old.alias.copy(alloc)?;
    Ok(LockLink {
        alias,
        to: new_goal(numbers, old.to),
    })
}

/// The packages that stay.
pub(crate) fn packages(
    alloc: Global,
    marks: &[bool],
    snapshots: &[LockSnapshot],
    these: &[LockPackage],
) -> Result<Items<LockPackage>, Memory>
    requires { length marks.now ≡ length snapshots.now }
    ensures { IfOk result (λ ps. ps ≡ filter (stays marks.now snapshots.now) these.now) }
{
    let mut all = Items::new(alloc);
    for old in these {
        if stays(marks, snapshots, &old.id) {
            let one = package_copy(alloc, old)?;
            all.push(one)?;
        }
    }
    Ok(all)
}

// Whether a package has a snapshot with a mark, or none at all.
fn stays(marks: &[bool], snapshots: &[LockSnapshot], id: &PkgId) -> bool
    requires { length marks.now ≡ length snapshots.now }
    ensures { result ≡ (has_marked id.now marks.now snapshots.now || not (has_any id.now snapshots.now)) }
{
    if has_marked(marks, snapshots, id) {
        return true;
    }
    !has_any(snapshots, id)
}

fn has_any(snapshots: &[LockSnapshot], id: &PkgId) -> bool
    ensures { result ≡ has_any id.now snapshots.now }
{
    for snapshot in snapshots {
        if split_path(snapshot.path.as_str()).0 == id.as_str() {
            return true;
        }
    }
    false
}

fn has_marked(marks: &[bool], snapshots: &[LockSnapshot], id: &PkgId) -> bool
    requires { length marks.now ≡ length snapshots.now }
    ensures { result ≡ has_marked id.now marks.now snapshots.now }
{
    for (n, snapshot) in snapshots.iter().enumerate() {
        if marks[n] && split_path(snapshot.path.as_str()).0 == id.as_str() {
            return true;
        }
    }
    false
}
