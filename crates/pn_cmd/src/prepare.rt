// The points after what the trees say: the store and the plan.
ghost use Rattle.std.specs.Prelude.{◌≡◌, OnOk, IfOk, IfErr, IfSome};
ghost use Rattle.std.specs.List.{All};
ghost use Rattle.std.specs.Option.{ForSome};
ghost use Rattle.pn_fs.specs.Seen.{Seen, Taken, Keeps};
ghost use Rattle.pn_manifest.specs.Said.{Said};
ghost use Rattle.pn_graph.specs.declared.plain.Plain.{Plain};
ghost use Rattle.pn_package.specs.Sound.{FilesStand};
ghost use Rattle.pn_collect.specs.Outline.{HaveFiles, direct_of};
ghost use Rattle.pn_collect.specs.Packages.{ArePackages};
ghost use Rattle.pn_fetch.specs.Numbers.{IsReleased, LeavesOne};
ghost use Rattle.pn_fetch.specs.Listings.{AreListingsOf, CanList, IsStored};
ghost use Rattle.pn_fetch.specs.Puts.{WasListed, WasPut, places};
ghost use Rattle.pn_cmd.specs.World.{trees, world};
ghost use Rattle.pn_cmd.specs.Points.{Refuses};
ghost use Rattle.pn_cmd.specs.Names.{modules_path};
ghost use Rattle.pn_cmd.specs.Known.{sources_of, build_of};
ghost use Rattle.pn_cmd.specs.Fetches.{Filled, IsStuck, Unfetched, fetch_status};
ghost use Rattle.pn_cmd.specs.Chain.{prepared};

use crate::plan::plan;
use crate::ready::{Gathered, Ready};
use pn_digest::Listing;
use pn_fetch::{FetchFault, fetch};
use pn_fs::ReadFs;
use pn_package::Package;
use pn_status::{Status, Which};
use pn_store::NUMBERS;
use pn_storecore::StoreDisk;
use pn_text::AbsPath;
use std::alloc::Global;

/// Puts the packages' files and listings into the store, and plans the tree.
pub fn prepare<R: ReadFs, D: StoreDisk>(
    alloc: Global,
    place: &AbsPath,
    gathered: &Gathered,
    registry: &mut R,
    store: &mut D,
) -> Result<Ready, Status>
    requires modules { gathered.now.modules ≡ modules_path place.now }
    requires packages { (plain : Plain) × (gathered.now.direct ≡ direct_of plain) × ArePackages (R.seen registry.old).tree plain gathered.now.packages.items }
    ensures ready { (project : Seen) (said : Said) (plain : Plain) → gathered.now.direct ≡ direct_of plain → IfOk result (λ r. prepared.Finds (sources_of place.now said plain gathered.now.packages.items) (trees project (R.seen registry.old)) (build_of place.now said plain gathered.now.packages.items r.listings.items r.plan)) }
    ensures refused { (project : Seen) (out : Taken) (said : Said) (plain : Plain) → gathered.now.direct ≡ direct_of plain → IfErr result (Refuses (prepared.Cause (sources_of place.now said plain gathered.now.packages.items)) (world project (R.seen registry.old) (D.seen store.old) out) (world project (R.seen registry.new) (D.seen store.new) out)) }
    ensures stored { IfOk result (λ r. All (IsStored (D.seen store.new)) r.listings.items) }
    ensures filled { Filled (R.seen registry.old).tree gathered.now.packages.items (D.seen store.old) (D.seen store.new) }
    ensures released { OnOk result (IsReleased (D.seen store.old) (D.seen store.new)) }
    ensures put { OnOk result (All (WasPut (R.seen registry.old).tree (D.seen store.old) (D.seen store.new)) (places gathered.now.packages.items)) }
    ensures listed { IfOk result (λ r. All (WasListed (D.seen store.old) (D.seen store.new)) r.listings.items) }
    ensures left { IfErr result (λ s. LeavesOne (IsStuck (R.seen registry.old).tree gathered.now.packages.items (D.seen store.old) (D.seen store.new) s) (D.seen store.old) (D.seen store.new)) }
    ensures registry { Keeps (R.seen registry.old) (R.seen registry.new) }
{
    let packages = gathered.packages.as_slice();
    let listings = match fetched(alloc, packages, registry, store) {
        Ok(listings) => listings,
        Err(status) => return Err(status),
    };
    match plan(
        alloc,
        place,
        &gathered.modules,
        &gathered.direct,
        packages,
        listings.as_slice(),
    ) {
        Ok(plan) => Ok(Ready { listings, plan }),
        Err(status) => Err(status),
    }
}

// The listings of the packages, which are in the store.
fn fetched<R: ReadFs, D: StoreDisk>(
    alloc: Global,
    packages: &[Package],
    registry: &mut R,
    store: &mut D,
) -> Result<Vec<Listing>, Status>
    requires stand { ForSome (R.seen registry.old).tree (λ r. FilesStand r packages.now) }
    requires files { IfSome (R.seen registry.old).tree (λ r. HaveFiles r packages.now) }
    requires sound { All CanList packages.now }
    ensures listings { IfOk result (λ v. AreListingsOf (R.seen registry.old).tree packages.now v.items) }
    ensures refused { (project : Seen) (out : Taken) → IfErr result (Refuses (Unfetched packages.now) (world project (R.seen registry.old) (D.seen store.old) out) (world project (R.seen registry.new) (D.seen store.new) out)) }
    ensures stored { IfOk result (λ v. All (IsStored (D.seen store.new)) v.items) }
    ensures filled { Filled (R.seen registry.old).tree packages.now (D.seen store.old) (D.seen store.new) }
    ensures released { OnOk result (IsReleased (D.seen store.old) (D.seen store.new)) }
    ensures put { OnOk result (All (WasPut (R.seen registry.old).tree (D.seen store.old) (D.seen store.new)) (places packages.now)) }
    ensures listed { IfOk result (λ v. All (WasListed (D.seen store.old) (D.seen store.new)) v.items) }
    ensures left { IfErr result (λ s. LeavesOne (IsStuck (R.seen registry.old).tree packages.now (D.seen store.old) (D.seen store.new) s) (D.seen store.old) (D.seen store.new)) }
    ensures registry { Keeps (R.seen registry.old) (R.seen registry.new) }
{
    match fetch(alloc, store, registry, packages) {
        Ok(listings) => Ok(listings),
        Err(fault) => Err(unfetched(fault)),
    }
}

// The status where the store lacks them.
fn unfetched(fault: FetchFault) -> Status
    ensures { result ≡ fetch_status fault }
{
    match fault {
        FetchFault::StoreFault => Status::StoreFault,
        FetchFault::RegistryFault => Status::RegistryFault,
        FetchFault::NumbersFull => Status::Limit(Which::Numbers, NUMBERS as u64 + 1),
        FetchFault::TooLarge(length) => Status::Limit(Which::File, length),
        FetchFault::Clash(at) => Status::DigestClash(at),
        FetchFault::Memory => Status::Memory,
    }
}
