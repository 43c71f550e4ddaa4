// The planned tree of a lock.
ghost use Rattle.std.specs.Prelude.{◌≡◌, IfErr, IfOk, OnOk, map};
ghost use Rattle.pn_deppath.specs.Folders.{folder_name};
ghost use Rattle.pn_layout.specs.Layout.{Fits};
ghost use Rattle.pn_lock.specs.Locks.{folders_of, paths_of};
ghost use Rattle.pn_tree.specs.Laws.{AreEntries};
ghost use Rattle.pn_tree.specs.Refusals.{LayoutRefused};
ghost use Rattle.pn_lock_layout.specs.Closed.{AreClosed};
ghost use Rattle.pn_lock_layout.specs.Folders.{near_home};
ghost use Rattle.pn_lock_layout.specs.Layouts.{lock_layout, managed_of};
ghost use Rattle.pn_lock_layout.specs.Placed.{AreListings, IsPlaced};
ghost use Rattle.pn_lock_layout.specs.Places.{folder_of};

use crate::folders::Folders;
use crate::hoist::Hoist;
use crate::homes::dir_names;
use crate::instances::instances_of;
use crate::managed::managed_of;
use crate::tops::tops_of;
use pn_deppath::folder_law;
use pn_digest::{Listing, PlannedTree};
use pn_lock::Lock;
use pn_text::{AbsPath, Text};
use pn_tree::LayoutFault;
use std::alloc::Global;

/// Plans what is to stand in the managed folders of an install by a lock, whose root and virtual store lie there: markers,
/// packages with the files of their listings, and links. Refuses with `TooLong` where a planned path has more than 4,096
/// bytes, or with `Memory`.
pub fn layout(
    alloc: Global,
    lock: &Lock,
    root: &AbsPath,
    store: &AbsPath,
    hoisted: &[Hoist],
    listings: &[Listing],
) -> Result<PlannedTree, LayoutFault>
    requires placed { IsPlaced lock.now root.now store.now hoisted.now }
    requires listings { AreListings lock.now listings.now }
    ensures entries { IfOk result (AreEntries (lock_layout lock.now root.now store.now hoisted.now listings.now)) }
    ensures closed { IfOk result (AreClosed (managed_of root.now store.now lock.now.importers)) }
    ensures short { OnOk result (Fits (lock_layout lock.now root.now store.now hoisted.now listings.now)) }
    ensures refused { IfErr result (LayoutRefused (lock_layout lock.now root.now store.now hoisted.now listings.now)) }
{
    let dirs = dir_names(alloc, lock)?;
    let folders = Folders::of(alloc, lock, root, store, &dirs)?;
    planned(alloc, lock, root, store, hoisted, listings, &dirs, &folders)
}

// The plan, where the folders are known.
fn planned(
    alloc: Global,
    lock: &Lock,
    root: &AbsPath,
    store: &AbsPath,
    hoisted: &[Hoist],
    listings: &[Listing],
    dirs: &[Text],
    folders: &Folders,
) -> Result<PlannedTree, LayoutFault>
    requires placed { IsPlaced lock.now root.now store.now hoisted.now }
    requires listings { AreListings lock.now listings.now }
    requires dirs { dirs.now ≡ map (folder_name (paths_of lock.now.snapshots)) (paths_of lock.now.snapshots) }
    requires importers { folders.now.importers.items ≡ map (folder_of root.now) (folders_of lock.now.importers) }
    requires snapshots { folders.now.snapshots.items ≡ map (near_home (paths_of lock.now.snapshots) root.now store.now) (paths_of lock.now.snapshots) }
    ensures entries { IfOk result (AreEntries (lock_layout lock.now root.now store.now hoisted.now listings.now)) }
    ensures closed { IfOk result (AreClosed (managed_of root.now store.now lock.now.importers)) }
    ensures short { OnOk result (Fits (lock_layout lock.now root.now store.now hoisted.now listings.now)) }
    ensures refused { IfErr result (LayoutRefused (lock_layout lock.now root.now store.now hoisted.now listings.now)) }
{
    folder_law(); // dep paths have folders of their own
    let managed = managed_of(alloc, lock.importers(), root, store, &folders.importers)?;
    let instances = instances_of(alloc, lock, folders, dirs, listings)?;
    let tops = tops_of(alloc, lock.importers(), root, folders, hoisted)?;
    pn_tree::layout(alloc, store, &managed, &instances, &tops)
}
