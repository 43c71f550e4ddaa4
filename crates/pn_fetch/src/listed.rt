// The listing of one package.
ghost use Rattle.std.specs.Prelude.{◌≡◌, List, IfOk, IfErr, OnOk, IsPermutation, map};
ghost use Rattle.std.specs.List.{Contains};
ghost use Rattle.sha2.specs.Sha512.{sha512};
ghost use Rattle.pn_digest.specs.Listing.{Entry, IsListing, listing_text};
ghost use Rattle.pn_storecore.specs.declared.step.Place.TheVariants.{Files, Listings};
ghost use Rattle.pn_storecore.specs.declared.step.StoreStep.TheVariants as step;
ghost use Rattle.pn_storecore.specs.Held.{HasObject};
ghost use Rattle.pn_store.specs.Held.{IsHeld, Works};
ghost use Rattle.pn_store.specs.Own.{PublishedAtMost};
ghost use Rattle.pn_fetch.specs.Faults.{StoreRefused};
ghost use Rattle.pn_fetch.specs.Listings.{AreListable, path_of};
ghost use Rattle.pn_fetch.specs.Puts.{WasListed};

use crate::fault::{FetchFault, of_put};
use pn_digest::{Digest, Listing, ListingFault};
use pn_store::{Claim, put_listing};
use pn_storecore::StoreDisk;
use pn_text::{Memory, RelPath};
use std::alloc::Global;

/// The listing of files with their digests.
pub fn listed(alloc: Global, files: Vec<(RelPath, Digest)>) -> Result<Listing, Memory>
    requires { AreListable (map path_of files.items) }
    ensures files { IfOk result (λ l. IsPermutation files.items l) }
    ensures listing { IfOk result IsListing }
{
    match Listing::of_files(alloc, files) {
        Ok(listing) => Ok(listing),
        Err(fault) => Err(wanting(fault)),
    }
}

// The one refusal of files that can be listed.
fn wanting(fault: ListingFault) -> Memory
    requires { fault ≡ ListingFault.Memory }
{
    match fault {
        ListingFault::Memory => Memory,
        _ => unreachable!(),
    }
}

/// Puts a listing, each file of which stands.
pub fn put_listed<D: StoreDisk>(
    alloc: Global,
    disk: &mut D,
    claim: &mut Claim,
    listing: &Listing,
) -> Result<(), FetchFault>
    requires held { IsHeld (D.seen disk.old) claim.old }
    requires named { (e : Entry) → Contains listing.now e → HasObject (D.seen disk.old) Files e.1 }
    ensures stands { OnOk result (HasObject (D.seen disk.new) Listings (sha512 (listing_text listing.now))) }
    ensures listed { OnOk result (WasListed (D.seen disk.old) (D.seen disk.new) listing.now) }
    ensures published { PublishedAtMost (step.PublishListing claim.old 0 (sha512 (listing_text listing.now))) (D.seen disk.old) (D.seen disk.new) }
    ensures claim { claim.new ≡ claim.old }
    ensures works { Works claim.old (D.seen disk.old) (D.seen disk.new) }
    ensures refused { IfErr result (StoreRefused (D.seen disk.old) (D.seen disk.new)) }
{
    match put_listing(alloc, disk, claim, listing) {
        Ok(_) => Ok(()),
        Err(fault) => Err(of_put(fault)),
    }
}
