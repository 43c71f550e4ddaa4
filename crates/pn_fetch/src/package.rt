// One package, put into the store.
ghost use Rattle.std.specs.Prelude.{◌≡◌, ◌*◌, ◌∷◌, [], IfOk, IfErr, IfSome, OnOk};
ghost use Rattle.std.specs.List.{All};
ghost use Rattle.std.specs.Option.{ForSome};
ghost use Rattle.pn_fs.specs.Seen.{GaveAtMost};
ghost use Rattle.pn_package.specs.Sound.{FilesStand};
ghost use Rattle.pn_store.specs.Held.{IsHeld};
ghost use Rattle.pn_fetch.specs.Faults.{PlacesRefused};
ghost use Rattle.pn_fetch.specs.Listings.{CanList, IsListingOf, IsStored};
ghost use Rattle.pn_fetch.specs.Puts.{WasListed, WasPut, bytes_at, places_of};
ghost use Rattle.pn_fetch.specs.Steps.{Fetches};

use crate::fault::FetchFault;
use crate::files::put_files;
use crate::listed::{listed, put_listed};
use pn_digest::Listing;
use pn_fs::ReadFs;
use pn_package::Package;
use pn_store::Claim;
use pn_storecore::{StoreDisk, claims_law, grew_law, was_law};
use std::alloc::Global;

/// Puts the package's files and then its listing.
pub fn put_package<D: StoreDisk, R: ReadFs>(
    alloc: Global,
    disk: &mut D,
    claim: &mut Claim,
    registry: &mut R,
    one: &Package,
) -> Result<Listing, FetchFault>
    requires held { IsHeld (D.seen disk.old) claim.old }
    requires stand { ForSome (R.seen registry.old).tree (λ t. FilesStand t (one.now ∷ [])) }
    requires sound { CanList one.now }
    ensures listing { IfOk result (IsListingOf (R.seen registry.old).tree one.now) }
    ensures stored { IfOk result (IsStored (D.seen disk.new)) }
    ensures listed { IfOk result (WasListed (D.seen disk.old) (D.seen disk.new)) }
    ensures claim { claim.new ≡ claim.old }
    ensures fetches { Fetches (one.now ∷ []) claim.old (R.seen registry.old) (R.seen registry.new) (D.seen disk.old) (D.seen disk.new) }
    ensures was { OnOk result (All (WasPut (R.seen registry.old).tree (D.seen disk.old) (D.seen disk.new)) (places_of one.now)) }
    ensures gave { IfSome (R.seen registry.old).tree (λ t. GaveAtMost (R.seen registry.old) (2 * bytes_at t (places_of one.now)) 0 (R.seen registry.new)) }
    ensures refused { IfErr result (PlacesRefused (places_of one.now) (R.seen registry.old) (R.seen registry.new) (D.seen disk.old) (D.seen disk.new)) }
{
    grew_law();
    claims_law();
    was_law();
    let files = put_files(alloc, disk, claim, registry, one)?;
    let listing = listed(alloc, files)?;
    put_listed(alloc, disk, claim, &listing)?;
    Ok(listing)
}
