// Where targets are.
ghost use Rattle.std.specs.Prelude.{◌≡◌, ◌<◌, ◌^◌, IfOk, length};
ghost use Rattle.pn_lock.specs.Kept.{Rises};
ghost use Rattle.pn_lock.specs.Locks.{place_of};
ghost use Rattle.pn_lock_shape.specs.Kept.{folders_in, paths_in};
ghost use Rattle.pn_lock_read.specs.Answers.{IsFault, Settles};
ghost use Rattle.pn_lock_read.specs.Settling.{goal_at, place_or};

use crate::fault::LockFault;
use pn_lock::LockGoal;
use pn_lock_shape::{Aim, DraftImporter, DraftSnapshot, place};
use pn_text::Text;
use std::alloc::Global;

/// The goal of a target, among the projects and the snapshots.
pub(crate) fn goal_at(
    alloc: Global,
    importers: &[DraftImporter],
    snapshots: &[DraftSnapshot],
    from: &Text,
    aim: &Aim,
) -> Result<LockGoal, LockFault>
    requires folders_rise { Rises (folders_in importers.now) }
    requires paths_rise { Rises (paths_in snapshots.now) }
    requires importers_few { length importers.now < 2 ^ 32 }
    requires snapshots_few { length snapshots.now < 2 ^ 32 }
    ensures { Settles result (goal_at (folders_in importers.now) (paths_in snapshots.now) from.now aim.now) }
{
    match aim {
        Aim::Folder(None, text) => Err(dangling(alloc, from, text)),
        Aim::Folder(Some(folder), text) => importer_at(alloc, importers, from, folder, text),
        Aim::Path(path) => snapshot_at(alloc, snapshots, from, path),
    }
}

fn importer_at(
    alloc: Global,
    importers: &[DraftImporter],
    from: &Text,
    folder: &Text,
    text: &Text,
) -> Result<LockGoal, LockFault>
    requires rise { Rises (folders_in importers.now) }
    requires few { length importers.now < 2 ^ 32 }
    ensures { Settles result (place_or from.now text.now LockGoal.Importer (place_of folder.now (folders_in importers.now))) }
{
    match place(importers, folder.as_str()) {
        Some(n) => Ok(LockGoal::Importer(n as u32)),
        None => Err(dangling(alloc, from, text)),
    }
}

fn snapshot_at(
    alloc: Global,
    snapshots: &[DraftSnapshot],
    from: &Text,
    path: &Text,
) -> Result<LockGoal, LockFault>
    requires rise { Rises (paths_in snapshots.now) }
    requires few { length snapshots.now < 2 ^ 32 }
    ensures { Settles result (place_or from.now path.now LockGoal.Snapshot (place_of path.now (paths_in snapshots.now))) }
{
    match place(snapshots, path.as_str()) {
        Some(n) => Ok(LockGoal::Snapshot(n as u32)),
        None => Err(dangling(alloc, from, path)),
    }
}

/// What leads to nothing, and where to.
pub(crate) fn dangling(alloc: Global, from: &Text, to: &Text) -> LockFault
    ensures { IsFault (LockFault.Dangling from.now to.now) result }
{
    let Ok(from) = from.copy(alloc) else {
        return LockFault::Memory;
    };
    match to.copy(alloc) {
        Ok(to) => LockFault::Dangling(from, to),
        Err(_) => LockFault::Memory,
    }
}
