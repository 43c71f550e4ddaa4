// Calls of the store on the one file of a held folder.
ghost use Rattle.std.specs.Prelude.{◌≡◌, ◌≤◌, ◌<◌, ℕ, List, [], ◌++◌, Option, OnOk, IfOk, IfErr, IfSome, length};
ghost use Rattle.sha2.specs.Sha512.{sha512};
ghost use Rattle.pn_text.specs.Causes.{HasCause};
ghost use Rattle.pn_digest.specs.Listing.{IsListingText, Names};
ghost use Rattle.pn_storecore.specs.declared.step.Place.TheVariants.{Files, Listings};
ghost use Rattle.pn_storecore.specs.World.{first_byte};
ghost use Rattle.pn_storecore.specs.Stored.{IsStoredFile};
ghost use Rattle.pn_storecore.specs.Held.{HasShard, HasBytes, HasObject};
ghost use Rattle.pn_storecore.specs.Grew.{Grew, ReadTo};
ghost use Rattle.pn_store.specs.Held.{HoldsFile, IsHeld, Works};
ghost use Rattle.pn_store.specs.Faults.{StoreRefuses};
ghost use Rattle.pn_storecore.specs.declared.step.StoreStep.TheVariants as step;
ghost use Rattle.pn_store.specs.Own.{Made, IsDropOf, IsShard, PublishedNone, PublishedOne, PublishedAtMost};
ghost use Rattle.pn_store.specs.Leaves.{LeavesAll};

use crate::fault::{PutFault, of_store};
use pn_digest::Digest;
use pn_storecore::{
    Place, StoreDisk, asks_law, claims_law, did_law, grew_law, holds_law, leaves_law, stands_law,
    was_law,
};
use pn_text::DevFault;

/// Takes the file of a held folder away, where it stands.
pub fn drop_file<D: StoreDisk>(disk: &mut D, k: u32) -> Result<(), PutFault>
    requires { IsHeld (D.seen disk.old) k }
    ensures ok { OnOk result (HoldsFile (D.seen disk.new) k None) }
    ensures drops { Made (IsDropOf k) (D.seen disk.old) (D.seen disk.new) }
    ensures works { Works k (D.seen disk.old) (D.seen disk.new) }
    ensures fault { IfErr result (StoreRefuses (D.seen disk.old) (D.seen disk.new)) }
{
    asks_law();
    holds_law();
    did_law();
    grew_law();
    leaves_law();
    claims_law();
    of_store(disk.drop_temp(k, Some(0)))
}

/// Makes the file of a held folder that has none.
pub fn create<D: StoreDisk>(disk: &mut D, k: u32) -> Result<(), PutFault>
    requires { HoldsFile (D.seen disk.old) k None }
    ensures ok { OnOk result (HoldsFile (D.seen disk.new) k (Some [])) }
    ensures unpublished { PublishedNone (D.seen disk.old) (D.seen disk.new) }
    ensures works { Works k (D.seen disk.old) (D.seen disk.new) }
    ensures fault { IfErr result (StoreRefuses (D.seen disk.old) (D.seen disk.new)) }
{
    asks_law();
    holds_law();
    did_law();
    grew_law();
    leaves_law();
    claims_law();
    of_store(disk.create(k, 0))
}

/// An empty file in a held folder, whatever was there.
pub fn start<D: StoreDisk>(disk: &mut D, k: u32) -> Result<(), PutFault>
    requires { IsHeld (D.seen disk.old) k }
    ensures ok { OnOk result (HoldsFile (D.seen disk.new) k (Some [])) }
    ensures unpublished { PublishedNone (D.seen disk.old) (D.seen disk.new) }
    ensures works { Works k (D.seen disk.old) (D.seen disk.new) }
    ensures fault { IfErr result (StoreRefuses (D.seen disk.old) (D.seen disk.new)) }
{
    grew_law();
    claims_law();
    drop_file(disk, k)?;
    create(disk, k)
}

/// Adds bytes to the file of a held folder.
pub fn append<D: StoreDisk>(disk: &mut D, k: u32, more: &[u8]) -> Result<(), PutFault>
    requires { (bytes : List ℕ) × HoldsFile (D.seen disk.old) k (Some bytes) }
    ensures ok { (bytes : List ℕ) → HoldsFile (D.seen disk.old) k (Some bytes) → OnOk result (HoldsFile (D.seen disk.new) k (Some (bytes ++ more.now))) }
    ensures unpublished { PublishedNone (D.seen disk.old) (D.seen disk.new) }
    ensures works { Works k (D.seen disk.old) (D.seen disk.new) }
    ensures fault { IfErr result (StoreRefuses (D.seen disk.old) (D.seen disk.new)) }
{
    asks_law();
    holds_law();
    did_law();
    grew_law();
    leaves_law();
    claims_law();
    of_store(disk.append(k, 0, more))
}

/// Makes the folder of a first byte, and leaves the held folder as it is.
pub fn shard<D: StoreDisk>(disk: &mut D, k: u32, place: Place, first: u8) -> Result<(), PutFault>
    requires { IsHeld (D.seen disk.old) k }
    ensures ok { OnOk result (HasShard (D.seen disk.new) place first) }
    ensures left { (b : Option (List ℕ)) → HoldsFile (D.seen disk.old) k b → HoldsFile (D.seen disk.new) k b }
    ensures made { Made (IsShard place first) (D.seen disk.old) (D.seen disk.new) }
    ensures works { Works k (D.seen disk.old) (D.seen disk.new) }
    ensures fault { IfErr result (StoreRefuses (D.seen disk.old) (D.seen disk.new)) }
{
    stands_law();
    did_law();
    leaves_law();
    grew_law();
    claims_law();
    of_store(disk.shard(place, first))
}

/// Moves the file of a held folder to the address of its bytes, whose shard folder stands.
pub fn publish_file<D: StoreDisk>(disk: &mut D, k: u32, at: &Digest) -> Result<(), PutFault>
    requires holds { (bytes : List ℕ) × HoldsFile (D.seen disk.old) k (Some bytes) × IsStoredFile at.now bytes }
    requires shard { HasShard (D.seen disk.old) Files (first_byte at.now) }
    ensures stands { (bytes : List ℕ) → HoldsFile (D.seen disk.old) k (Some bytes) → OnOk result (HasBytes (D.seen disk.new) Files at.now bytes) }
    ensures empty { OnOk result (HoldsFile (D.seen disk.new) k None) }
    ensures published { OnOk result (PublishedOne (step.PublishFile k 0 at.now) (D.seen disk.old) (D.seen disk.new)) }
    ensures at_most { PublishedAtMost (step.PublishFile k 0 at.now) (D.seen disk.old) (D.seen disk.new) }
    ensures works { Works k (D.seen disk.old) (D.seen disk.new) }
    ensures fault { IfErr result (StoreRefuses (D.seen disk.old) (D.seen disk.new)) }
{
    asks_law();
    holds_law();
    stands_law();
    did_law();
    grew_law();
    leaves_law();
    claims_law();
    of_store(disk.publish_file(k, 0, at))
}

/// The same of the text of a listing, each file of which stands.
pub fn publish_listing<D: StoreDisk>(disk: &mut D, k: u32, at: &Digest) -> Result<(), PutFault>
    requires holds { (text : List ℕ) × HoldsFile (D.seen disk.old) k (Some text) × (sha512 text ≡ at.now) × IsListingText text × ((file : List ℕ) → Names text file → HasObject (D.seen disk.old) Files file) }
    requires shard { HasShard (D.seen disk.old) Listings (first_byte at.now) }
    ensures stands { (text : List ℕ) → HoldsFile (D.seen disk.old) k (Some text) → OnOk result (HasBytes (D.seen disk.new) Listings at.now text) }
    ensures empty { OnOk result (HoldsFile (D.seen disk.new) k None) }
    ensures published { OnOk result (PublishedOne (step.PublishListing k 0 at.now) (D.seen disk.old) (D.seen disk.new)) }
    ensures at_most { PublishedAtMost (step.PublishListing k 0 at.now) (D.seen disk.old) (D.seen disk.new) }
    ensures works { Works k (D.seen disk.old) (D.seen disk.new) }
    ensures fault { IfErr result (StoreRefuses (D.seen disk.old) (D.seen disk.new)) }
{
    asks_law();
    holds_law();
    stands_law();
    did_law();
    grew_law();
    leaves_law();
    claims_law();
    of_store(disk.publish_listing(k, 0, at))
}

/// One piece of what stands at an address.
pub fn read<D: StoreDisk>(
    disk: &mut D,
    place: Place,
    at: &Digest,
    from: u64,
    into: &mut [u8],
) -> Result<Option<usize>, DevFault>
    requires { 0 < length into.old }
    ensures within { IfOk result (λ found. IfSome found (λ n. n ≤ length into.old)) }
    ensures read { IfOk result (λ found. IfSome (D.seen disk.old).journal (λ j. ReadTo place at.now from into.new found j (D.seen disk.new).journal)) }
    ensures stands { IfOk result (λ found. IfSome found (λ n. HasObject (D.seen disk.new) place at.now)) }
    ensures left { LeavesAll (D.seen disk.old) (D.seen disk.new) }
    ensures grew { Grew (D.seen disk.old) (D.seen disk.new) }
    ensures cause { HasCause (D.seen disk.old).faults (D.seen disk.new).faults result }
{
    did_law();
    leaves_law();
    claims_law();
    grew_law();
    was_law();
    stands_law();
    disk.read(place, at, from, into)
}

/// The first byte of a digest, which names its shard folder.
pub fn first_of(at: &Digest) -> u8
    ensures { result ≡ first_byte at.now }
{
    let bytes = at.as_bytes();
    bytes[0]
}
