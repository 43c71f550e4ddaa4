// The packages of an install, fetched.
ghost use Rattle.std.specs.Prelude.{◌≡◌, ◌≤◌, ◌*◌, [], IfOk, IfErr, IfSome, OnOk};
ghost use Rattle.std.specs.List.{All};
ghost use Rattle.std.specs.Option.{ForSome};
ghost use Rattle.pn_fs.specs.Seen.{Keeps, GaveAtMost};
ghost use Rattle.pn_package.specs.Sound.{FilesStand};
ghost use Rattle.pn_storecore.specs.Grew.{Grew};
ghost use Rattle.pn_store.specs.Own.{Made};
ghost use Rattle.pn_fetch.specs.Faults.{FetchRefused};
ghost use Rattle.pn_fetch.specs.Listings.{AreListingsOf, CanList, IsStored};
ghost use Rattle.pn_fetch.specs.Numbers.{IsReleased, IsStuck, LeavesOne};
ghost use Rattle.pn_fetch.specs.Puts.{WasListed, WasPut, bytes_at, places};
ghost use Rattle.pn_fetch.specs.Steps.{IsFetchStep};

use crate::fault::{FetchFault, of_claim};
use crate::packages::put_under;
use pn_digest::Listing;
use pn_fs::ReadFs;
use pn_package::Package;
use pn_store::claim;
use pn_storecore::{StoreDisk, claims_law, grew_law, was_law};
use std::alloc::Global;

/// Puts the files of each package and then its listing into the store, and answers the listings, in the packages' order. A
/// number is claimed before the first put and released after the last one, and also where a put is refused. It stays taken
/// only where the claim or the release fails too, or memory runs out. What stood at an address before is replaced. A file that
/// is refused, since it is too large or clashes, is the first one in the packages' order, and then in the files'. The registry
/// gives each file's bytes at most twice. Without packages nothing is called. For the refusals see `FetchFault`; what was put
/// by then stays.
pub fn fetch<D: StoreDisk, R: ReadFs>(
    alloc: Global,
    disk: &mut D,
    registry: &mut R,
    packages: &[Package],
) -> Result<Vec<Listing>, FetchFault>
    requires stand { ForSome (R.seen registry.old).tree (λ t. FilesStand t packages.now) }
    requires sound { All CanList packages.now }
    ensures listings { IfOk result (λ v. AreListingsOf (R.seen registry.old).tree packages.now v.items) }
    ensures stored { IfOk result (λ v. All (IsStored (D.seen disk.new)) v.items) }
    ensures put { OnOk result (All (WasPut (R.seen registry.old).tree (D.seen disk.old) (D.seen disk.new)) (places packages.now)) }
    ensures listed { IfOk result (λ v. All (WasListed (D.seen disk.old) (D.seen disk.new)) v.items) }
    ensures own { Made (IsFetchStep (R.seen registry.old).tree packages.now) (D.seen disk.old) (D.seen disk.new) }
    ensures free { OnOk result (IsReleased (D.seen disk.old) (D.seen disk.new)) }
    ensures left { IfErr result (λ e. LeavesOne (IsStuck (R.seen registry.old).tree packages.now (D.seen disk.old) (D.seen disk.new) e) (D.seen disk.old) (D.seen disk.new)) }
    ensures idle { packages.now ≡ [] → D.seen disk.new ≡ D.seen disk.old }
    ensures grew { Grew (D.seen disk.old) (D.seen disk.new) }
    ensures later { (D.seen disk.old).faults ≤ (D.seen disk.new).faults }
    ensures registry { Keeps (R.seen registry.old) (R.seen registry.new) }
    ensures gave { IfSome (R.seen registry.old).tree (λ t. GaveAtMost (R.seen registry.old) (2 * bytes_at t (places packages.now)) 0 (R.seen registry.new)) }
    ensures refused { IfErr result (FetchRefused packages.now (R.seen registry.old) (R.seen registry.new) (D.seen disk.old) (D.seen disk.new)) }
{
    grew_law();
    claims_law();
    if packages.is_empty() {
        return Ok(Vec::new(alloc));
    }
    was_law();
    match claim(disk) {
        Ok(held) => put_under(alloc, disk, held, registry, packages),
        Err(fault) => Err(of_claim(fault)),
    }
}
