// What stands in a store, read.
ghost use Rattle.std.specs.Prelude.{◌≡◌, ◌≤◌, ◌<◌, ℕ, ◌++◌, IfOk, IfErr, IfSome, OnOk, length, take, vec_len, ◌+◌};
ghost use Rattle.std.specs.Bool.{OnTrue};
ghost use Rattle.std.specs.Option.{option_map};
ghost use Rattle.pn_digest.specs.Listing.{listing_text};
ghost use Rattle.pn_storecore.specs.declared.step.Place.TheVariants.{Files, Listings};
ghost use Rattle.pn_storecore.specs.Held.{HasObject};
ghost use Rattle.pn_storecore.specs.Grew.{Grew, ReadTo};
ghost use Rattle.pn_store.specs.Leaves.{LeavesAll};
ghost use Rattle.pn_store.specs.Reads.{IsThere, IsListingRead, IsPieceRead, IsTextRead, ReadRefused, ListingRefused, found_bytes};

use crate::calls::read;
use crate::fault::ReadFault;
use pn_digest::{Digest, Integrity, Listing, ListingFault};
use pn_storecore::{Place, StoreDisk, claims_law, grew_law, was_law};
use pn_text::DevFault;
use std::alloc::Global;

const BUFFER: usize = 4096;

/// Whether something stands at a listing's address. It is answered by the store at a step of this call.
pub fn has<D: StoreDisk>(disk: &mut D, at: &Integrity) -> Result<bool, ReadFault>
    ensures there { IfOk result (IsThere at.now (D.seen disk.old) (D.seen disk.new)) }
    ensures stands { IfOk result (λ found. OnTrue found (HasObject (D.seen disk.new) Listings at.now)) }
    ensures left { LeavesAll (D.seen disk.old) (D.seen disk.new) }
    ensures grew { Grew (D.seen disk.old) (D.seen disk.new) }
    ensures later { (D.seen disk.old).faults ≤ (D.seen disk.new).faults }
    ensures fault { IfErr result (ReadRefused (D.seen disk.old) (D.seen disk.new)) }
{
    was_law();
    let mut byte = [0u8; 1];
    match piece(disk, Place::Listings, &at.digest(), 0, &mut byte) {
        Ok(Some(_)) => Ok(true),
        Ok(None) => Ok(false),
        Err(fault) => Err(fault),
    }
}

/// A piece of a stored file from a place on: how many bytes came, and none exactly at or past the end. `None` exactly
/// where nothing stands there. It is answered by the store at a step of this call.
pub fn read_piece<D: StoreDisk>(
    disk: &mut D,
    at: &Digest,
    from: u64,
    into: &mut [u8],
) -> Result<Option<usize>, ReadFault>
    requires { 0 < length into.old }
    ensures within { IfOk result (λ found. IfSome found (λ n. n ≤ length into.old)) }
    ensures read { IfOk result (λ found. IsPieceRead at.now from into.new found (D.seen disk.old) (D.seen disk.new)) }
    ensures stands { IfOk result (λ found. IfSome found (λ n. HasObject (D.seen disk.new) Files at.now)) }
    ensures left { LeavesAll (D.seen disk.old) (D.seen disk.new) }
    ensures grew { Grew (D.seen disk.old) (D.seen disk.new) }
    ensures later { (D.seen disk.old).faults ≤ (D.seen disk.new).faults }
    ensures fault { IfErr result (ReadRefused (D.seen disk.old) (D.seen disk.new)) }
{
    piece(disk, Place::Files, at, from, into)
}

/// The listing at an address: `None` where nothing stands there, or what stands is no listing. Refusals: `Fault` for a
/// call that failed, `Damaged` where what stands has another digest, `Memory`.
pub fn listing<D: StoreDisk>(
    alloc: Global,
    disk: &mut D,
    at: &Integrity,
) -> Result<Option<Listing>, ReadFault>
    ensures read { IfOk result (λ found. IsListingRead at.now (D.seen disk.old) (D.seen disk.new) (option_map listing_text found)) }
    ensures stands { IfOk result (λ found. IfSome found (λ l. HasObject (D.seen disk.new) Listings at.now)) }
    ensures left { LeavesAll (D.seen disk.old) (D.seen disk.new) }
    ensures grew { Grew (D.seen disk.old) (D.seen disk.new) }
    ensures later { (D.seen disk.old).faults ≤ (D.seen disk.new).faults }
    ensures fault { IfErr result (ListingRefused at.now (D.seen disk.old) (D.seen disk.new)) }
{
    let digest = at.digest();
    let text = match text_at(alloc, disk, &digest) {
        Ok(Some(text)) => text,
        Ok(None) => return Ok(None),
        Err(fault) => return Err(fault),
    };
    let found = Digest::of_bytes(text.as_slice());
    if found != digest {
        return Err(ReadFault::Damaged(digest, found));
    }
    match Listing::read(alloc, text.as_slice()) {
        Ok(listing) => Ok(Some(listing)),
        Err(ListingFault::Memory) => Err(ReadFault::Memory),
        Err(_) => Ok(None),
    }
}

// The bytes at an address of listings.
fn text_at<D: StoreDisk>(
    alloc: Global,
    disk: &mut D,
    at: &Digest,
) -> Result<Option<Vec<u8>>, ReadFault>
    ensures read { IfOk result (λ found. IsTextRead at.now (D.seen disk.old) (D.seen disk.new) (found_bytes found)) }
    ensures stands { IfOk result (λ found. IfSome found (λ v. HasObject (D.seen disk.new) Listings at.now)) }
    ensures left { LeavesAll (D.seen disk.old) (D.seen disk.new) }
    ensures grew { Grew (D.seen disk.old) (D.seen disk.new) }
    ensures later { (D.seen disk.old).faults ≤ (D.seen disk.new).faults }
    ensures fault { IfErr result (ReadRefused (D.seen disk.old) (D.seen disk.new)) }
{
    grew_law();
    claims_law();
    was_law();
    let mut all = Vec::new(alloc);
    let mut buffer = [0u8; BUFFER];
    'pieces: loop {
        let from = all.len() as u64;
        let count = match piece(disk, Place::Listings, at, from, &mut buffer) {
            Ok(Some(count)) => count,
            Ok(None) => return Ok(None),
            Err(fault) => return Err(fault),
        };
        if count == 0 {
            return Ok(Some(all));
        }
        if let Err(fault) = take_in(&mut all, &buffer, count) {
            return Err(fault);
        }
    }
}

// Adds the first bytes of a piece.
fn take_in(all: &mut Vec<u8>, piece: &[u8], count: usize) -> Result<(), ReadFault>
    requires { count ≤ length piece.now }
    ensures items { OnOk result (all.new.items ≡ all.old.items ++ take count piece.now) }
    ensures len { OnOk result (vec_len all.new ≡ vec_len all.old + count) }
    ensures memory { IfErr result (λ e. e ≡ ReadFault.Memory) }
{
    let (front, _) = piece.split_at(count);
    match all.extend_from_slice(front) {
        Ok(()) => Ok(()),
        Err(_) => Err(ReadFault::Memory),
    }
}

// One piece of what stands at an address.
fn piece<D: StoreDisk>(
    disk: &mut D,
    place: Place,
    at: &Digest,
    from: u64,
    into: &mut [u8],
) -> Result<Option<usize>, ReadFault>
    requires { 0 < length into.old }
    ensures within { IfOk result (λ found. IfSome found (λ n. n ≤ length into.old)) }
    ensures read { IfOk result (λ found. IfSome (D.seen disk.old).journal (λ j. ReadTo place at.now from into.new found j (D.seen disk.new).journal)) }
    ensures stands { IfOk result (λ found. IfSome found (λ n. HasObject (D.seen disk.new) place at.now)) }
    ensures left { LeavesAll (D.seen disk.old) (D.seen disk.new) }
    ensures grew { Grew (D.seen disk.old) (D.seen disk.new) }
    ensures later { (D.seen disk.old).faults ≤ (D.seen disk.new).faults }
    ensures fault { IfErr result (ReadRefused (D.seen disk.old) (D.seen disk.new)) }
{
    match read(disk, place, at, from, into) {
        Ok(found) => Ok(found),
        Err(DevFault::Failed) => Err(ReadFault::Fault),
        Err(DevFault::Memory) => Err(ReadFault::Memory),
    }
}
