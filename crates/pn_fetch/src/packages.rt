// All packages, put into the store under one number.
ghost use Rattle.std.specs.Prelude.{◌≡◌, ◌≤◌, ◌⊎◌, ◌*◌, ◌++◌, ◌∷◌, [], IfOk, IfErr, IfSome, OnOk};
ghost use Rattle.std.specs.List.{All};
ghost use Rattle.std.specs.Option.{ForSome};
ghost use Rattle.pn_fs.specs.Seen.{GaveAtMost};
ghost use Rattle.pn_package.specs.Sound.{FilesStand};
ghost use Rattle.pn_storecore.specs.Held.{IsFree};
ghost use Rattle.pn_storecore.specs.Grew.{Grew};
ghost use Rattle.pn_store.specs.Held.{IsHeld};
ghost use Rattle.pn_store.specs.Leaves.{LeavesOthers};
ghost use Rattle.pn_store.specs.Own.{Made, IsDropOf};
ghost use Rattle.pn_fetch.specs.Faults.{PutsRefused};
ghost use Rattle.pn_fetch.specs.Listings.{AreListingsOf, CanList, IsStored};
ghost use Rattle.pn_fetch.specs.Numbers.{IsFreeUnless, IsHeldBack, IsUnreleased};
ghost use Rattle.pn_fetch.specs.Puts.{WasListed, WasPut, bytes_at, places};
ghost use Rattle.pn_fetch.specs.Steps.{Ends, Fetches};

use crate::fault::{FetchFault, of_release};
use crate::package::put_package;
use pn_digest::Listing;
use pn_fs::ReadFs;
use pn_package::Package;
use pn_store::{Claim, ReadFault, release};
use pn_storecore::{StoreDisk, claims_law, grew_law, was_law};
use pn_text::Memory;
use std::alloc::Global;

/// Puts each package under the number, which is released then, whatever the puts answered. A release that wants memory
/// answers so, also behind another refusal: the number may still be taken for it.
pub fn put_under<D: StoreDisk, R: ReadFs>(
    alloc: Global,
    disk: &mut D,
    mut claim: Claim,
    registry: &mut R,
    packages: &[Package],
) -> Result<Vec<Listing>, FetchFault>
    requires held { IsHeld (D.seen disk.old) claim }
    requires stand { ForSome (R.seen registry.old).tree (λ t. FilesStand t packages.now) }
    requires sound { All CanList packages.now }
    ensures listings { IfOk result (λ v. AreListingsOf (R.seen registry.old).tree packages.now v.items) }
    ensures stored { IfOk result (λ v. All (IsStored (D.seen disk.new)) v.items) }
    ensures put { OnOk result (All (WasPut (R.seen registry.old).tree (D.seen disk.old) (D.seen disk.new)) (places packages.now)) }
    ensures listed { IfOk result (λ v. All (WasListed (D.seen disk.old) (D.seen disk.new)) v.items) }
    ensures ends { Ends packages.now claim (R.seen registry.old) (R.seen registry.new) (D.seen disk.old) (D.seen disk.new) }
    ensures free { OnOk result (IsFree (D.seen disk.new) claim) }
    ensures left { IfErr result (λ e. IsFreeUnless (IsUnreleased (R.seen registry.old).tree packages.now (D.seen disk.old) (D.seen disk.new) e) (D.seen disk.new) claim) }
    ensures gave { IfSome (R.seen registry.old).tree (λ t. GaveAtMost (R.seen registry.old) (2 * bytes_at t (places packages.now)) 0 (R.seen registry.new)) }
    ensures refused { IfErr result (PutsRefused packages.now (R.seen registry.old) (R.seen registry.new) (D.seen disk.old) (D.seen disk.new)) }
{
    grew_law();
    claims_law();
    was_law();
    match put_all(alloc, disk, &mut claim, registry, packages) {
        Ok(listings) => match release(disk, claim) {
            Ok(()) => Ok(listings),
            Err(fault) => Err(of_release(fault)),
        },
        Err(fault) => Err(give_back(disk, claim, fault)),
    }
}

// Releases the number behind a refusal, and answers that one, or want of memory where the release wants it.
fn give_back<D: StoreDisk>(disk: &mut D, claim: Claim, fault: FetchFault) -> FetchFault
    requires { IsHeld (D.seen disk.old) claim }
    ensures answer { (result ≡ fault) ⊎ (result ≡ FetchFault.Memory) }
    ensures left { IsFreeUnless (IsHeldBack (D.seen disk.old) (D.seen disk.new) result) (D.seen disk.new) claim }
    ensures others { LeavesOthers claim (D.seen disk.old) (D.seen disk.new) }
    ensures own { Made (IsDropOf claim) (D.seen disk.old) (D.seen disk.new) }
    ensures grew { Grew (D.seen disk.old) (D.seen disk.new) }
    ensures later { (D.seen disk.old).faults ≤ (D.seen disk.new).faults }
{
    match release(disk, claim) {
        Ok(()) => fault,
        Err(ReadFault::Fault) => fault,
        Err(_) => FetchFault::Memory,
    }
}

fn put_all<D: StoreDisk, R: ReadFs>(
    alloc: Global,
    disk: &mut D,
    claim: &mut Claim,
    registry: &mut R,
    packages: &[Package],
) -> Result<Vec<Listing>, FetchFault>
    requires held { IsHeld (D.seen disk.old) claim.old }
    requires stand { ForSome (R.seen registry.old).tree (λ t. FilesStand t packages.now) }
    requires sound { All CanList packages.now }
    ensures listings { IfOk result (λ v. AreListingsOf (R.seen registry.old).tree packages.now v.items) }
    ensures stored { IfOk result (λ v. All (IsStored (D.seen disk.new)) v.items) }
    ensures put { OnOk result (All (WasPut (R.seen registry.old).tree (D.seen disk.old) (D.seen disk.new)) (places packages.now)) }
    ensures listed { IfOk result (λ v. All (WasListed (D.seen disk.old) (D.seen disk.new)) v.items) }
    ensures claim { claim.new ≡ claim.old }
    ensures fetches { Fetches packages.now claim.old (R.seen registry.old) (R.seen registry.new) (D.seen disk.old) (D.seen disk.new) }
    ensures gave { IfSome (R.seen registry.old).tree (λ t. GaveAtMost (R.seen registry.old) (2 * bytes_at t (places packages.now)) 0 (R.seen registry.new)) }
    ensures refused { IfErr result (PutsRefused packages.now (R.seen registry.old) (R.seen registry.new) (D.seen disk.old) (D.seen disk.new)) }
{
    grew_law();
    claims_law();
    was_law();
    let mut all = Vec::new(alloc);
    for one in packages {
        let listing = put_package(alloc, disk, claim, registry, one)?;
        add(&mut all, listing)?;
    }
    Ok(all)
}

fn add(all: &mut Vec<Listing>, one: Listing) -> Result<(), Memory>
    ensures { OnOk result (all.new.items ≡ all.old.items ++ one ∷ []) }
{
    match all.push(one) {
        Ok(()) => Ok(()),
        Err(_) => Err(Memory),
    }
}
