// A draft's targets are looked up.
ghost use Rattle.std.specs.Prelude.{◌≡◌, ◌<◌, ◌^◌, IfOk, length, map, true};
ghost use Rattle.pn_lock.specs.Kept.{Rises, is_in};
ghost use Rattle.pn_lock.specs.Locks.{ids_of};
ghost use Rattle.pn_lock_shape.specs.Kept.{folders_in, paths_in};
ghost use Rattle.pn_deppath.specs.Paths.{id_part};
ghost use Rattle.pn_lock_read.specs.Answers.{IsFault, Settles};
ghost use Rattle.pn_lock_read.specs.Settling.{all_of, known, settled_dependency, settled_importer, settled_link, settled_snapshot};

use crate::fault::LockFault;
use crate::places::{dangling, goal_at};
use pn_deppath::split_path;
use pn_lock::{LockDependency, LockImporter, LockLink, LockPackage, LockSnapshot};
use pn_lock_shape::{DraftDependency, DraftImporter, DraftLink, DraftSnapshot, has_key};
use pn_text::{Memory, PkgName, Text};
use sqlite_items::Items;
use std::alloc::Global;

fn dependency(
    alloc: Global,
    importers: &[DraftImporter],
    snapshots: &[DraftSnapshot],
    from: &Text,
    draft: &DraftDependency,
) -> Result<LockDependency, LockFault>
    requires folders_rise { Rises (folders_in importers.now) }
    requires paths_rise { Rises (paths_in snapshots.now) }
    requires importers_few { length importers.now < 2 ^ 32 }
    requires snapshots_few { length snapshots.now < 2 ^ 32 }
    ensures { Settles result (settled_dependency (folders_in importers.now) (paths_in snapshots.now) from.now draft.now) }
{
    let to = goal_at(alloc, importers, snapshots, from, &draft.aim)?;
    Ok(LockDependency {
        alias: draft.alias.copy(alloc)?,
        specifier: draft.specifier.copy(alloc)?,
        to,
    })
}

fn dependencies(
    alloc: Global,
    importers: &[DraftImporter],
    snapshots: &[DraftSnapshot],
    from: &Text,
    drafts: &[DraftDependency],
) -> Result<Items<LockDependency>, LockFault>
    requires folders_rise { Rises (folders_in importers.now) }
    requires paths_rise { Rises (paths_in snapshots.now) }
    requires importers_few { length importers.now < 2 ^ 32 }
    requires snapshots_few { length snapshots.now < 2 ^ 32 }
    ensures { Settles result (all_of (settled_dependency (folders_in importers.now) (paths_in snapshots.now) from.now) drafts.now) }
{
    let mut all = Items::new(alloc);
    for draft in drafts {
        let one = dependency(alloc, importers, snapshots, from, draft)?;
        all.push(one)?;
    }
    Ok(all)
}

fn importer(
    alloc: Global,
    importers: &[DraftImporter],
    snapshots: &[DraftSnapshot],
    draft: &DraftImporter,
) -> Result<LockImporter, LockFault>
    requires folders_rise { Rises (folders_in importers.now) }
    requires paths_rise { Rises (paths_in snapshots.now) }
    requires importers_few { length importers.now < 2 ^ 32 }
    requires snapshots_few { length snapshots.now < 2 ^ 32 }
    ensures { Settles result (settled_importer (folders_in importers.now) (paths_in snapshots.now) draft.now) }
{
    let from = &draft.folder;
    let first = dependencies(
        alloc,
        importers,
        snapshots,
        from,
        draft.dependencies.as_slice(),
    )?;
    let dev = dependencies(alloc, importers, snapshots, from, draft.dev.as_slice())?;
    let optional = dependencies(alloc, importers, snapshots, from, draft.optional.as_slice())?;
    Ok(LockImporter {
        folder: from.copy(alloc)?,
        dependencies: first,
        dev,
        optional,
    })
}

/// The projects of a draft, with their targets looked up.
pub(crate) fn importers(
    alloc: Global,
    drafts: &[DraftImporter],
    snapshots: &[DraftSnapshot],
) -> Result<Items<LockImporter>, LockFault>
    requires folders_rise { Rises (folders_in drafts.now) }
    requires paths_rise { Rises (paths_in snapshots.now) }
    requires importers_few { length drafts.now < 2 ^ 32 }
    requires snapshots_few { length snapshots.now < 2 ^ 32 }
    ensures { Settles result (all_of (settled_importer (folders_in drafts.now) (paths_in snapshots.now)) drafts.now) }
{
    let mut all = Items::new(alloc);
    for draft in drafts {
        let one = importer(alloc, drafts, snapshots, draft)?;
        all.push(one)?;
    }
    Ok(all)
}

fn link(
    alloc: Global,
    importers: &[DraftImporter],
    snapshots: &[DraftSnapshot],
    from: &Text,
    draft: &DraftLink,
) -> Result<LockLink, LockFault>
    requires folders_rise { Rises (folders_in importers.now) }
    requires paths_rise { Rises (paths_in snapshots.now) }
    requires importers_few { length importers.now < 2 ^ 32 }
    requires snapshots_few { length snapshots.now < 2 ^ 32 }
    ensures { Settles result (settled_link (folders_in importers.now) (paths_in snapshots.now) from.now draft.now) }
{
    let to = goal_at(alloc, importers, snapshots, from, &draft.aim)?;
    Ok(LockLink {
        alias: draft.alias.copy(alloc)?,
        to,
    })
}

fn links(
    alloc: Global,
    importers: &[DraftImporter],
    snapshots: &[DraftSnapshot],
    from: &Text,
    drafts: &[DraftLink],
) -> Result<Items<LockLink>, LockFault>
    requires folders_rise { Rises (folders_in importers.now) }
    requires paths_rise { Rises (paths_in snapshots.now) }
    requires importers_few { length importers.now < 2 ^ 32 }
    requires snapshots_few { length snapshots.now < 2 ^ 32 }
    ensures { Settles result (all_of (settled_link (folders_in importers.now) (paths_in snapshots.now) from.now) drafts.now) }
{
    let mut all = Items::new(alloc);
    for draft in drafts {
        let one = link(alloc, importers, snapshots, from, draft)?;
        all.push(one)?;
    }
    Ok(all)
}

fn snapshot(
    alloc: Global,
    importers: &[DraftImporter],
    packages: &[LockPackage],
    snapshots: &[DraftSnapshot],
    draft: &DraftSnapshot,
) -> Result<LockSnapshot, LockFault>
    requires folders_rise { Rises (folders_in importers.now) }
    requires ids_rise { Rises (ids_of packages.now) }
    requires paths_rise { Rises (paths_in snapshots.now) }
    requires importers_few { length importers.now < 2 ^ 32 }
    requires snapshots_few { length snapshots.now < 2 ^ 32 }
    ensures { Settles result (settled_snapshot (folders_in importers.now) (ids_of packages.now) (paths_in snapshots.now) draft.now) }
{
    let from = &draft.path;
    known(alloc, packages, from)?;
    let first = links(
        alloc,
        importers,
        snapshots,
        from,
        draft.dependencies.as_slice(),
    )?;
    let optional = links(alloc, importers, snapshots, from, draft.optional.as_slice())?;
    Ok(LockSnapshot {
        path: from.copy(alloc)?,
        dependencies: first,
        optional,
        transitive: copy_names(alloc, draft.transitive.as_slice())?,
    })
}

// A snapshot's id is among the packages.
fn known(alloc: Global, packages: &[LockPackage], path: &Text) -> Result<bool, LockFault>
    requires { Rises (ids_of packages.now) }
    ensures { Settles result (known (ids_of packages.now) path.now) }
{
    let (id, _) = split_path(path.as_str());
    if has_id(packages, id) {
        return Ok(true);
    }
    let id = Text::of(alloc, id)?;
    Err(dangling(alloc, path, &id))
}

fn has_id(packages: &[LockPackage], id: &str) -> bool
    requires { Rises (ids_of packages.now) }
    ensures { result ≡ is_in (ids_of packages.now) id.now }
{
    has_key(packages, id)
}

fn copy_names(alloc: Global, names: &[PkgName]) -> Result<Items<PkgName>, Memory>
    ensures { IfOk result (λ all. all ≡ names.now) }
{
    let mut all = Items::new(alloc);
    for name in names {
        all.push(name.copy(alloc)?)?;
    }
    Ok(all)
}

/// The snapshots of a draft, with their targets looked up.
pub(crate) fn snapshots(
    alloc: Global,
    importers: &[DraftImporter],
    packages: &[LockPackage],
    drafts: &[DraftSnapshot],
) -> Result<Items<LockSnapshot>, LockFault>
    requires folders_rise { Rises (folders_in importers.now) }
    requires ids_rise { Rises (ids_of packages.now) }
    requires paths_rise { Rises (paths_in drafts.now) }
    requires importers_few { length importers.now < 2 ^ 32 }
    requires snapshots_few { length drafts.now < 2 ^ 32 }
    ensures { Settles result (all_of (settled_snapshot (folders_in importers.now) (ids_of packages.now) (paths_in drafts.now)) drafts.now) }
{
    let mut all = Items::new(alloc);
    for draft in drafts {
        let one = snapshot(alloc, importers, packages, drafts, draft)?;
        all.push(one)?;
    }
    Ok(all)
}
