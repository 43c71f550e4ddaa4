// The lock of a graph.
ghost use Rattle.std.specs.Prelude.{◌≡◌, ◌<◌, IfOk, IsPermutation, None, length, map};
ghost use Rattle.pn_asked.specs.Differences.{first_of};
ghost use Rattle.pn_instances.specs.Singles.{project_links};
ghost use Rattle.pn_lock.specs.declared.lists.LockPackage.{LockPackage};
ghost use Rattle.pn_lock.specs.Kept.{Rises};
ghost use Rattle.pn_lock.specs.Locks.{ids_of as locked_ids};
ghost use Rattle.pn_lock_make.specs.Made.{AreResolved};
ghost use Rattle.pn_lock_make.specs.Singles.{IsMadeSingly, package_ids};
ghost use Rattle.pn_wanted.specs.Wanted.{IsRising, ids_of};
ghost use Rattle.pn_locking.specs.Integrities.{AreAsked, digest_at, digests_of, integrities_of};

use crate::search::place;
use pn_asked::Asked;
use pn_digest::{Integrity, Listing};
use pn_graph::{Package, Plain};
use pn_lock::Lock;
use pn_lock_make::make_single;
use pn_text::{Memory, PkgId};
use pn_wanted::Wanted;
use std::alloc::Global;

/// The lock of what is asked and of a graph without peers, whose packages are wanted and have a listing each. That the graph
/// has no peers is the caller's to know.
pub fn lock(
    alloc: Global,
    asked: &Asked,
    plain: &Plain,
    wanted: &[Wanted],
    listings: &[Listing],
) -> Result<Lock, Memory>
    requires asked { AreAsked asked.now plain.now }
    requires rising { IsRising wanted.now }
    requires same { IsPermutation (package_ids plain.now.packages) (ids_of wanted.now) }
    requires listed { length listings.now ≡ length wanted.now }
    ensures made { IfOk result (IsMadeSingly asked.now plain.now (integrities_of plain.now wanted.now listings.now)) }
    ensures ids { IfOk result (λ l. locked_ids l.packages ≡ ids_of wanted.now) }
    ensures integrities { IfOk result (λ l. map (λ (p : LockPackage). p.integrity) l.packages ≡ digests_of listings.now) }
    ensures fits { IfOk result (λ l. AreResolved asked.now plain.now (map project_links plain.now.projects) → first_of l asked.now ≡ None) }
{
    let ids = ids_of(alloc, wanted)?;
    let digests = digests_of(alloc, listings)?;
    let integrities = integrities_of(alloc, plain.packages.as_slice(), &ids, &digests)?;
    let lock = make_single(alloc, asked, plain, &integrities)?;
    let _ = lock.packages(); // in order
    Ok(lock)
}

fn ids_of(alloc: Global, wanted: &[Wanted]) -> Result<Vec<PkgId>, Memory>
    ensures { IfOk result (λ v. v.items ≡ ids_of wanted.now) }
{
    let mut ids = Vec::new(alloc);
    for one in wanted {
        ids.push(one.id.copy(alloc)?)?;
    }
    Ok(ids)
}

fn digests_of(alloc: Global, listings: &[Listing]) -> Result<Vec<Integrity>, Memory>
    ensures { IfOk result (λ v. v.items ≡ digests_of listings.now) }
{
    let mut all = Vec::new(alloc);
    for listing in listings {
        all.push(listing.integrity(alloc)?)?;
    }
    Ok(all)
}

fn integrities_of(
    alloc: Global,
    packages: &[Package],
    ids: &[PkgId],
    digests: &[Integrity],
) -> Result<Vec<Integrity>, Memory>
    requires rising { Rises ids.now }
    requires many { length ids.now ≡ length packages.now }
    requires listed { length digests.now ≡ length ids.now }
    ensures { IfOk result (λ v. v.items ≡ map (digest_at ids.now digests.now) (package_ids packages.now)) }
{
    let mut all = Vec::new(alloc);
    for package in packages {
        all.push(digest_at(ids, digests, &package.id))?;
    }
    Ok(all)
}

fn digest_at(ids: &[PkgId], digests: &[Integrity], id: &PkgId) -> Integrity
    requires rising { Rises ids.now }
    requires some { 0 < length ids.now }
    requires listed { length digests.now ≡ length ids.now }
    ensures { result ≡ digest_at ids.now digests.now id.now }
{
    match place(ids, id) {
        Some(at) => digests[at],
        None => digests[0],
    }
}
