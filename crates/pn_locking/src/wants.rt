// The packages that a graph wants.
ghost use Rattle.std.specs.Prelude.{◌≡◌, IfOk, IsPermutation, map, option_map};
ghost use Rattle.std.specs.List.{All};
ghost use Rattle.pn_lock.specs.Kept.{Rises};
ghost use Rattle.pn_lock.specs.Locks.{ids_of as locked_ids};
ghost use Rattle.pn_lock_make.specs.Singles.{package_ids};
ghost use Rattle.pn_wanted.specs.declared.wanted.Wanted.{Wanted};
ghost use Rattle.pn_wanted.specs.Wanted.{IsRising, ids_of};
ghost use Rattle.pn_locking.specs.Wants.{locked_at, locked_in, wanted_of};

use crate::ids::ids_of;
use crate::search::place;
use pn_digest::Integrity;
use pn_graph::{Package, Plain};
use pn_lock::{Lock, LockPackage};
use pn_text::{Memory, PkgId};
use pn_wanted::Wanted;
use std::alloc::Global;

/// The packages of a graph in byte order of ids, each with the integrity that the old lock has for it.
pub fn wanted(alloc: Global, plain: &Plain, old: Option<&Lock>) -> Result<Vec<Wanted>, Memory>
    ensures rising { IfOk result (λ v. IsRising v.items) }
    ensures same { IfOk result (λ v. IsPermutation (package_ids plain.now.packages) (ids_of v.items)) }
    ensures locked { IfOk result (λ v. All (λ (w : Wanted). w.locked ≡ locked_at (option_map (λ l. l.now) old.entry) w.id) v.items) }
{
    let ids = ids_in_order(alloc, plain)?;
    match old {
        Some(lock) => with_locked(alloc, &ids, lock.packages()),
        None => with_locked(alloc, &ids, &[]),
    }
}

fn ids_in_order(alloc: Global, plain: &Plain) -> Result<Vec<PkgId>, Memory>
    ensures rising { IfOk result (λ v. Rises v.items) }
    ensures same { IfOk result (λ v. IsPermutation (package_ids plain.now.packages) v.items) }
{
    let mut ids = package_ids(alloc, plain.packages.as_slice())?;
    ids.sort()?;
    Ok(ids)
}

fn package_ids(alloc: Global, packages: &[Package]) -> Result<Vec<PkgId>, Memory>
    ensures { IfOk result (λ v. v.items ≡ package_ids packages.now) }
{
    let mut ids = Vec::new(alloc);
    for package in packages {
        ids.push(package.id.copy(alloc)?)?;
    }
    Ok(ids)
}

fn with_locked(
    alloc: Global,
    ids: &[PkgId],
    packages: &[LockPackage],
) -> Result<Vec<Wanted>, Memory>
    requires { Rises (locked_ids packages.now) }
    ensures { IfOk result (λ v. v.items ≡ map (wanted_of packages.now) ids.now) }
{
    let places = ids_of(alloc, packages)?;
    let mut all = Vec::new(alloc);
    for id in ids {
        let locked = locked_in(&places, packages, id);
        let id = id.copy(alloc)?;
        all.push(Wanted { id, locked })?;
    }
    Ok(all)
}

fn locked_in(places: &[PkgId], packages: &[LockPackage], id: &PkgId) -> Option<Integrity>
    requires rising { Rises (locked_ids packages.now) }
    requires places { places.now ≡ locked_ids packages.now }
    ensures { result ≡ locked_in id.now packages.now }
{
    match place(places, id) {
        Some(at) => Some(packages[at].integrity),
        None => None,
    }
}
