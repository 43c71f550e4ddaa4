// A file and its listing put into any store, by the laws of calls alone: each step is shown to be lawful,
// and what is put stands at the end.
ghost use Rattle.std.specs.Prelude.{◌≡◌, ◌≤◌, ℕ, List, [], ◌++◌, Some, None, OnOk, IfOk, length};
ghost use Rattle.std.specs.Bool.{OnTrue};
ghost use Rattle.sha2.specs.Sha512.{sha512};
ghost use Rattle.pn_text.specs.declared.limits.TheConstants.{FILE_LIMIT};
ghost use Rattle.pn_digest.specs.Listing.{IsListingText, Names};
ghost use Rattle.pn_storecore.specs.declared.step.Place.TheVariants.{Files, Listings};
ghost use Rattle.pn_storecore.specs.World.{first_byte};
ghost use Rattle.pn_storecore.specs.Stored.{IsStoredFile};
ghost use Rattle.pn_storecore.specs.Held.{Holds, HasShard, HasObject, HasDigest, IsFree, IsSoundStore, IsAddressedStore, TempFiles, no_files, files_with};
ghost use Rattle.pn_storecore.specs.Grew.{Grew};

use pn_digest::{Digest, Listing, listing_law};
use pn_storecore::{
    Place, StoreDisk, asks_law, did_law, grew_law, holds_law, leaves_law, stands_law,
};
use pn_text::{DevFault, RelPath};
use std::alloc::Global;
use std::test::Fail;

fn first_of(at: &Digest) -> u8
    ensures { result ≡ first_byte at.now }
{
    let bytes = at.as_bytes();
    bytes[0]
}

fn claim<D: StoreDisk>(disk: &mut D, k: u32) -> Result<bool, DevFault>
    ensures held { IfOk result (λ free. OnTrue free (Holds (D.seen disk.new) k no_files)) }
    ensures grew { Grew (D.seen disk.old) (D.seen disk.new) }
{
    holds_law();
    did_law();
    grew_law();
    disk.claim(k)
}

fn create<D: StoreDisk>(disk: &mut D, k: u32) -> Result<(), DevFault>
    requires { Holds (D.seen disk.old) k no_files }
    ensures folder { OnOk result (Holds (D.seen disk.new) k (files_with no_files 0 (Some []))) }
    ensures grew { Grew (D.seen disk.old) (D.seen disk.new) }
{
    asks_law();
    holds_law();
    did_law();
    grew_law();
    disk.create(k, 0)
}

// Adds bytes to the one file of a held folder.
fn add<D: StoreDisk>(disk: &mut D, k: u32, more: &[u8]) -> Result<(), DevFault>
    requires { (bytes : List ℕ) × Holds (D.seen disk.old) k (files_with no_files 0 (Some bytes)) }
    ensures folder { (bytes : List ℕ) → Holds (D.seen disk.old) k (files_with no_files 0 (Some bytes)) → OnOk result (Holds (D.seen disk.new) k (files_with no_files 0 (Some (bytes ++ more.now)))) }
    ensures grew { Grew (D.seen disk.old) (D.seen disk.new) }
{
    asks_law();
    holds_law();
    did_law();
    grew_law();
    disk.append(k, 0, more)
}

// Writes a file in two pieces.
fn write<D: StoreDisk>(disk: &mut D, k: u32, bytes: &[u8]) -> Result<(), DevFault>
    requires { Holds (D.seen disk.old) k no_files }
    ensures folder { OnOk result (Holds (D.seen disk.new) k (files_with no_files 0 (Some bytes.now))) }
    ensures grew { Grew (D.seen disk.old) (D.seen disk.new) }
{
    grew_law();
    let (front, back) = bytes.split_at(bytes.len() / 2);
    create(disk, k)?;
    add(disk, k, front)?;
    add(disk, k, back)
}

// Makes the folder of an address, and leaves a held folder.
fn shard<D: StoreDisk>(disk: &mut D, place: Place, first: u8) -> Result<(), DevFault>
    ensures stands { OnOk result (HasShard (D.seen disk.new) place first) }
    ensures left { (k : ℕ) (files : TempFiles) → Holds (D.seen disk.old) k files → Holds (D.seen disk.new) k files }
    ensures grew { Grew (D.seen disk.old) (D.seen disk.new) }
{
    stands_law();
    did_law();
    leaves_law();
    grew_law();
    disk.shard(place, first)
}

// Moves the file of a held folder to the address of its bytes, whose shard folder stands.
fn move_file<D: StoreDisk>(disk: &mut D, k: u32, at: &Digest) -> Result<(), DevFault>
    requires holds { (bytes : List ℕ) × Holds (D.seen disk.old) k (files_with no_files 0 (Some bytes)) × IsStoredFile at.now bytes }
    requires shard { HasShard (D.seen disk.old) Files (first_byte at.now) }
    ensures folder { OnOk result (Holds (D.seen disk.new) k no_files) }
    ensures stands { OnOk result (HasObject (D.seen disk.new) Files at.now) }
    ensures grew { Grew (D.seen disk.old) (D.seen disk.new) }
{
    asks_law();
    holds_law();
    stands_law();
    did_law();
    grew_law();
    disk.publish_file(k, 0, at)
}

// The same of a listing, each file of which stands.
fn move_listing<D: StoreDisk>(disk: &mut D, k: u32, at: &Digest) -> Result<(), DevFault>
    requires holds { (text : List ℕ) × Holds (D.seen disk.old) k (files_with no_files 0 (Some text)) × (sha512 text ≡ at.now) × IsListingText text × ((file : List ℕ) → Names text file → HasObject (D.seen disk.old) Files file) }
    requires shard { HasShard (D.seen disk.old) Listings (first_byte at.now) }
    ensures folder { OnOk result (Holds (D.seen disk.new) k no_files) }
    ensures stands { OnOk result (HasObject (D.seen disk.new) Listings at.now) }
    ensures grew { Grew (D.seen disk.old) (D.seen disk.new) }
{
    asks_law();
    holds_law();
    stands_law();
    did_law();
    grew_law();
    disk.publish_listing(k, 0, at)
}

// Puts a file into a held folder, and from there to the address of its bytes.
fn put_file<D: StoreDisk>(disk: &mut D, k: u32, bytes: &[u8]) -> Result<(), DevFault>
    requires holds { Holds (D.seen disk.old) k no_files }
    requires short { length bytes.now ≤ FILE_LIMIT }
    ensures folder { OnOk result (Holds (D.seen disk.new) k no_files) }
    ensures stands { OnOk result (HasObject (D.seen disk.new) Files (sha512 bytes.now)) }
    ensures grew { Grew (D.seen disk.old) (D.seen disk.new) }
{
    grew_law();
    let at = Digest::of_bytes(bytes);
    write(disk, k, bytes)?;
    shard(disk, Place::Files, first_of(&at))?;
    move_file(disk, k, &at)
}

// The same of a listing, each file of which stands.
fn put_listing<D: StoreDisk>(disk: &mut D, k: u32, text: &[u8]) -> Result<(), DevFault>
    requires holds { Holds (D.seen disk.old) k no_files }
    requires text { IsListingText text.now }
    requires named { (file : List ℕ) → Names text.now file → HasObject (D.seen disk.old) Files file }
    ensures folder { OnOk result (Holds (D.seen disk.new) k no_files) }
    ensures stands { OnOk result (HasObject (D.seen disk.new) Listings (sha512 text.now)) }
    ensures grew { Grew (D.seen disk.old) (D.seen disk.new) }
{
    grew_law();
    let at = Digest::of_bytes(text);
    write(disk, k, text)?;
    shard(disk, Place::Listings, first_of(&at))?;
    move_listing(disk, k, &at)
}

fn read<D: StoreDisk>(disk: &mut D, at: &Digest) -> Result<bool, DevFault>
    ensures left { (k : ℕ) (files : TempFiles) → Holds (D.seen disk.old) k files → Holds (D.seen disk.new) k files }
    ensures grew { Grew (D.seen disk.old) (D.seen disk.new) }
{
    did_law();
    leaves_law();
    grew_law();
    let mut into = [0u8; 4];
    let found = disk.read(Place::Files, at, 0, &mut into)?;
    Ok(found.is_some())
}

fn list<D: StoreDisk>(disk: &mut D) -> Result<bool, DevFault>
    ensures left { (k : ℕ) (files : TempFiles) → Holds (D.seen disk.old) k files → Holds (D.seen disk.new) k files }
    ensures grew { Grew (D.seen disk.old) (D.seen disk.new) }
{
    did_law();
    leaves_law();
    grew_law();
    let files = disk.list(Place::Files)?;
    Ok(!files.is_empty())
}

fn numbers<D: StoreDisk>(disk: &mut D) -> Result<bool, DevFault>
    ensures left { (k : ℕ) (files : TempFiles) → Holds (D.seen disk.old) k files → Holds (D.seen disk.new) k files }
    ensures grew { Grew (D.seen disk.old) (D.seen disk.new) }
{
    did_law();
    leaves_law();
    grew_law();
    let numbers = disk.numbers()?;
    Ok(!numbers.is_empty())
}

// Whether something stands there, and a number is taken.
fn look<D: StoreDisk>(disk: &mut D, at: &Digest) -> Result<bool, DevFault>
    ensures left { (k : ℕ) (files : TempFiles) → Holds (D.seen disk.old) k files → Holds (D.seen disk.new) k files }
    ensures grew { Grew (D.seen disk.old) (D.seen disk.new) }
{
    grew_law();
    let found = read(disk, at)?;
    let listed = list(disk)?;
    let claimed = numbers(disk)?;
    Ok(found && listed && claimed)
}

// Drops a held folder that is empty.
fn release<D: StoreDisk>(disk: &mut D, k: u32) -> Result<(), DevFault>
    requires { Holds (D.seen disk.old) k no_files }
    ensures free { OnOk result (IsFree (D.seen disk.new) k) }
    ensures grew { Grew (D.seen disk.old) (D.seen disk.new) }
{
    asks_law();
    holds_law();
    did_law();
    grew_law();
    disk.drop_temp(k, None)
}

// Puts a file and the listing that names it alone, by a number that is held, and gives the number back.
fn put_held<D: StoreDisk>(disk: &mut D, k: u32, bytes: &[u8], text: &[u8]) -> Result<bool, DevFault>
    requires holds { Holds (D.seen disk.old) k no_files }
    requires short { length bytes.now ≤ FILE_LIMIT }
    requires text { IsListingText text.now }
    requires named { (file : List ℕ) → Names text.now file → file ≡ sha512 bytes.now }
    ensures file { OnOk result (HasObject (D.seen disk.new) Files (sha512 bytes.now)) }
    ensures listing { OnOk result (HasObject (D.seen disk.new) Listings (sha512 text.now)) }
    ensures free { OnOk result (IsFree (D.seen disk.new) k) }
    ensures grew { Grew (D.seen disk.old) (D.seen disk.new) }
{
    grew_law();
    put_file(disk, k, bytes)?;
    let found = look(disk, &Digest::of_bytes(bytes))?;
    put_listing(disk, k, text)?;
    release(disk, k)?;
    Ok(found)
}

// Puts a file, and the listing that names it alone. `false` where the number is taken. Whatever it
// answers, it leaves a sound store sound.
fn put_both<D: StoreDisk>(disk: &mut D, k: u32, bytes: &[u8], text: &[u8]) -> Result<bool, DevFault>
    requires short { length bytes.now ≤ FILE_LIMIT }
    requires text { IsListingText text.now }
    requires named { (file : List ℕ) → Names text.now file → file ≡ sha512 bytes.now }
    ensures file { IsAddressedStore (D.seen disk.old) → IfOk result (λ done. OnTrue done (HasDigest (D.seen disk.new) Files (sha512 bytes.now))) }
    ensures listing { IsAddressedStore (D.seen disk.old) → IfOk result (λ done. OnTrue done (HasDigest (D.seen disk.new) Listings (sha512 text.now))) }
    ensures free { IfOk result (λ done. OnTrue done (IsFree (D.seen disk.new) k)) }
    ensures grew { Grew (D.seen disk.old) (D.seen disk.new) }
    ensures sound { IsSoundStore (D.seen disk.old) → IsSoundStore (D.seen disk.new) }
{
    stands_law();
    grew_law();
    let free = claim(disk, k)?;
    if !free {
        return Ok(false);
    }
    put_held(disk, k, bytes, text)
}

// The text of a listing that names this file alone.
fn listing_of(alloc: Global, bytes: &[u8]) -> Result<Vec<u8>, Fail>
    ensures text { IfOk result (λ text. IsListingText text.items) }
    ensures named { IfOk result (λ text. (file : List ℕ) → Names text.items file → file ≡ sha512 bytes.now) }
{
    listing_law();
    let mut files = Vec::new(alloc);
    files.push((RelPath::read(alloc, "x")?, Digest::of_bytes(bytes)))?;
    let listing = Listing::of_files(alloc, files)?;
    let text = listing.print(alloc)?;
    Ok(text)
}

/// Puts these bytes, and a listing that names them alone. `false` where the number is taken.
pub fn put<D: StoreDisk>(
    alloc: Global,
    disk: &mut D,
    k: u32,
    bytes: &[u8],
) -> Result<Result<bool, DevFault>, Fail>
    requires { length bytes.now ≤ FILE_LIMIT }
    ensures file { IsAddressedStore (D.seen disk.old) → IfOk result (λ put. IfOk put (λ done. OnTrue done (HasDigest (D.seen disk.new) Files (sha512 bytes.now)))) }
    ensures free { IfOk result (λ put. IfOk put (λ done. OnTrue done (IsFree (D.seen disk.new) k))) }
    ensures grew { Grew (D.seen disk.old) (D.seen disk.new) }
    ensures sound { IsSoundStore (D.seen disk.old) → IsSoundStore (D.seen disk.new) }
{
    grew_law();
    let text = listing_of(alloc, bytes)?;
    Ok(put_both(disk, k, bytes, text.as_slice()))
}
