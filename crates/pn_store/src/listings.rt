// A listing, put into the store.
ghost use Rattle.std.specs.Prelude.{◌≡◌, ℕ, List, None, OnOk, OnErr, IfOk, IfErr};
ghost use Rattle.std.specs.List.{Contains};
ghost use Rattle.sha2.specs.Sha512.{sha512};
ghost use Rattle.pn_digest.specs.Listing.{Entry, IsListingText, Names, listing_text};
ghost use Rattle.pn_storecore.specs.declared.step.Place.TheVariants.{Files, Listings};
ghost use Rattle.pn_storecore.specs.declared.step.StoreStep.TheVariants as step;
ghost use Rattle.pn_storecore.specs.Held.{HasObject, HasBytes};
ghost use Rattle.pn_store.specs.Held.{HoldsFile, IsHeld, Works};
ghost use Rattle.pn_store.specs.Faults.{StoreRefuses};
ghost use Rattle.pn_store.specs.Own.{PublishedOne, PublishedAtMost};
ghost use Rattle.pn_store.specs.Listed.{IsListed, IsText};

use crate::calls::{append, first_of, publish_listing, shard, start};
use crate::fault::PutFault;
use crate::number::Claim;
use pn_digest::{Digest, Integrity, Listing, listing_law};
use pn_storecore::{Place, StoreDisk, claims_law, grew_law, stands_law, was_law};
use std::alloc::Global;

/// Puts a listing, each file of which stands, into the store, in place of what is at its address. Refusals:
/// `StoreFault` for a call that failed, and `Memory`. The claim serves for a next put after each of them.
pub fn put_listing<D: StoreDisk>(
    alloc: Global,
    disk: &mut D,
    claim: &mut Claim,
    listing: &Listing,
) -> Result<Integrity, PutFault>
    requires held { IsHeld (D.seen disk.old) claim.old }
    requires named { (e : Entry) → Contains listing.now e → HasObject (D.seen disk.old) Files e.1 }
    ensures put { IfOk result (IsListed listing.now (D.seen disk.old) (D.seen disk.new)) }
    ensures published { IfOk result (λ at. PublishedOne (step.PublishListing claim.old 0 at) (D.seen disk.old) (D.seen disk.new)) }
    ensures refused { OnErr result (PublishedAtMost (step.PublishListing claim.old 0 (sha512 (listing_text listing.now))) (D.seen disk.old) (D.seen disk.new)) }
    ensures empty { OnOk result (HoldsFile (D.seen disk.new) claim.old None) }
    ensures claim { claim.new ≡ claim.old }
    ensures works { Works claim.old (D.seen disk.old) (D.seen disk.new) }
    ensures fault { IfErr result (StoreRefuses (D.seen disk.old) (D.seen disk.new)) }
{
    grew_law();
    claims_law();
    listing_law();
    let k = claim.number();
    let text = match listing.print(alloc) {
        Ok(text) => text,
        Err(_) => return Err(PutFault::Memory),
    };
    let _ = listing.as_slice();
    put_text(disk, k, text.as_slice())
}

// The text of a listing.
fn put_text<D: StoreDisk>(disk: &mut D, k: u32, text: &[u8]) -> Result<Integrity, PutFault>
    requires held { IsHeld (D.seen disk.old) k }
    requires text { IsListingText text.now }
    requires named { (file : List ℕ) → Names text.now file → HasObject (D.seen disk.old) Files file }
    ensures put { IfOk result (IsText text.now (D.seen disk.old) (D.seen disk.new)) }
    ensures published { IfOk result (λ at. PublishedOne (step.PublishListing k 0 at) (D.seen disk.old) (D.seen disk.new)) }
    ensures refused { OnErr result (PublishedAtMost (step.PublishListing k 0 (sha512 text.now)) (D.seen disk.old) (D.seen disk.new)) }
    ensures empty { OnOk result (HoldsFile (D.seen disk.new) k None) }
    ensures works { Works k (D.seen disk.old) (D.seen disk.new) }
    ensures fault { IfErr result (StoreRefuses (D.seen disk.old) (D.seen disk.new)) }
{
    grew_law();
    claims_law();
    was_law();
    stands_law();
    start(disk, k)?;
    append(disk, k, text)?;
    let at = Digest::of_bytes(text);
    publish_text(disk, k, &at)?;
    Ok(Integrity::of(at))
}

// Moves the held file, which is a listing's text, to its address.
fn publish_text<D: StoreDisk>(disk: &mut D, k: u32, at: &Digest) -> Result<(), PutFault>
    requires { (text : List ℕ) × HoldsFile (D.seen disk.old) k (Some text) × (sha512 text ≡ at.now) × IsListingText text × ((file : List ℕ) → Names text file → HasObject (D.seen disk.old) Files file) }
    ensures stands { (text : List ℕ) → HoldsFile (D.seen disk.old) k (Some text) → OnOk result (HasBytes (D.seen disk.new) Listings at.now text) }
    ensures empty { OnOk result (HoldsFile (D.seen disk.new) k None) }
    ensures published { OnOk result (PublishedOne (step.PublishListing k 0 at.now) (D.seen disk.old) (D.seen disk.new)) }
    ensures at_most { PublishedAtMost (step.PublishListing k 0 at.now) (D.seen disk.old) (D.seen disk.new) }
    ensures works { Works k (D.seen disk.old) (D.seen disk.new) }
    ensures fault { IfErr result (StoreRefuses (D.seen disk.old) (D.seen disk.new)) }
{
    grew_law();
    claims_law();
    shard(disk, k, Place::Listings, first_of(at))?;
    publish_listing(disk, k, at)
}
