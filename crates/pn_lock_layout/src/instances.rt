// The instances of a lock's snapshots.
ghost use Rattle.std.specs.Prelude.{◌≡◌, ◌++◌, IfOk, OnOk, length, map};
ghost use Rattle.std.specs.List.{Contains};
ghost use Rattle.pn_deppath.specs.Folders.{folder_name};
ghost use Rattle.pn_lock.specs.Locks.{paths_of};
ghost use Rattle.pn_lock_layout.specs.Folders.{found_folder};
ghost use Rattle.pn_lock_layout.specs.Layouts.{all_links, instance_of, target_of};

use crate::files::files_of;
use crate::folders::Folders;
use crate::homes::name_of;
use pn_deppath::split_path;
use pn_digest::Listing;
use pn_lock::{Lock, LockLink, LockSnapshot};
use pn_text::{Memory, Text};
use pn_tree::{Instance, Target, Targets};
use std::alloc::Global;

/// An instance for each snapshot.
pub fn instances_of(
    alloc: Global,
    lock: &Lock,
    folders: &Folders,
    dirs: &[Text],
    listings: &[Listing],
) -> Result<Vec<Instance>, Memory>
    requires dirs { dirs.now ≡ map (folder_name (paths_of lock.now.snapshots)) (paths_of lock.now.snapshots) }
    requires count { length listings.now ≡ length lock.now.packages }
    ensures { IfOk result (λ v. v.items ≡ map (instance_of (found_folder folders.now) lock.now listings.now) lock.now.snapshots) }
{
    let mut all = Vec::new(alloc);
    for (n, snapshot) in lock.snapshots().iter().enumerate() {
        let one = instance(alloc, lock, folders, listings, snapshot, &dirs[n])?;
        all.push(one)?;
    }
    Ok(all)
}

fn instance(
    alloc: Global,
    lock: &Lock,
    folders: &Folders,
    listings: &[Listing],
    snapshot: &LockSnapshot,
    dir: &Text,
) -> Result<Instance, Memory>
    requires snapshot { Contains lock.now.snapshots snapshot.now }
    requires dir { dir.now ≡ folder_name (paths_of lock.now.snapshots) snapshot.now.path }
    requires count { length listings.now ≡ length lock.now.packages }
    ensures { IfOk result (λ g. g ≡ instance_of (found_folder folders.now) lock.now listings.now snapshot.now) }
{
    let id = split_path(snapshot.path.as_str()).0;
    let files = files_of(alloc, lock.packages(), listings, id)?;
    let name = name_of(alloc, id)?;
    let dir = dir.copy(alloc)?;
    let links = Targets::of(targets_of(alloc, folders, snapshot)?);
    Ok(Instance {
        dir,
        name,
        files,
        links,
    })
}

fn targets_of(
    alloc: Global,
    folders: &Folders,
    snapshot: &LockSnapshot,
) -> Result<Vec<Target>, Memory>
    ensures { IfOk result (λ v. v.items ≡ map (target_of (found_folder folders.now)) (all_links snapshot.now)) }
{
    let mut all = Vec::new(alloc);
    add_targets(alloc, folders, snapshot.dependencies.as_slice(), &mut all)?;
    add_targets(alloc, folders, snapshot.optional.as_slice(), &mut all)?;
    Ok(all)
}

fn add_targets(
    alloc: Global,
    folders: &Folders,
    links: &[LockLink],
    all: &mut Vec<Target>,
) -> Result<(), Memory>
    ensures { OnOk result (all.new.items ≡ all.old.items ++ map (target_of (found_folder folders.now)) links.now) }
{
    for link in links {
        let one = target(alloc, folders, link)?;
        all.push(one)?;
    }
    Ok(())
}

fn target(alloc: Global, folders: &Folders, link: &LockLink) -> Result<Target, Memory>
    ensures { IfOk result (λ t. t ≡ target_of (found_folder folders.now) link.now) }
{
    let name = link.alias.copy(alloc)?;
    let to = folders.folder(alloc, link.to)?;
    Ok(Target { name, to })
}
