// A file of a tree, put into the store.
ghost use Rattle.std.specs.Prelude.{◌≡◌, ◌≤◌, ◌<◌, ◌*◌, min, ℕ, List, [], ◌++◌, OnOk, IfOk, IfErr, IfSome, length, take};
ghost use Rattle.std.specs.Option.{ForSome};
ghost use Rattle.sha2.specs.Sha512.{sha512};
ghost use Rattle.pn_fs.specs.Tree.{IsFile};
ghost use Rattle.pn_text.specs.declared.limits.TheConstants.{FILE_LIMIT};
ghost use Rattle.pn_fs.specs.Seen.{Keeps, GaveAtMost, GaveNothing};
ghost use Rattle.pn_digest.specs.Hashing.{Holds as Hashes};
ghost use Rattle.pn_storecore.specs.declared.step.Place.TheVariants.{Files};
ghost use Rattle.pn_storecore.specs.declared.step.StoreStep.TheVariants as step;
ghost use Rattle.pn_storecore.specs.Stored.{IsStoredFile};
ghost use Rattle.pn_storecore.specs.Held.{HasBytes};
ghost use Rattle.pn_storecore.specs.Seen.{Seen as Stored};
ghost use Rattle.pn_store.specs.Held.{HoldsFile, IsHeld, Works};
ghost use Rattle.pn_store.specs.Faults.{FileRefused, PutRefused, StoreRefuses};
ghost use Rattle.pn_store.specs.Own.{PublishedNone, PublishedOne, PublishedAtMost};
ghost use Rattle.pn_store.specs.Puts.{IsPut, IsFilled, IsShortFile, PutLeft, file_length};

use crate::calls::{append, first_of, publish_file, shard, start};
use crate::compare::{meet, source_piece};
use crate::fault::PutFault;
use crate::number::Claim;
use pn_digest::{Digest, Hasher512};
use pn_fs::{Kind, ReadFs};
use pn_storecore::{Place, StoreDisk, claims_law, grew_law, stands_law, was_law};
use pn_text::{AbsPath, DevFault, FILE_LIMIT, PIECE};
use std::alloc::Global;

/// What was put: its SHA-512 and its length in bytes.
#[derive(Drop)]
pub struct Put {
    pub digest: Digest,
    pub length: u64,
}

/// Puts the file of a tree into the store, piece by piece. What stands at its address is read and compared, and
/// replaced: by equal bytes, or where it has another digest or more than 268,435,456 bytes. The refusals:
/// `StoreFault` and `SourceFault` for a call that failed, `TooLarge` for a file of more than 268,435,456 bytes, `Clash`
/// where other bytes with this digest were read there, `Memory`. The claim serves for a next put after each of them. The
/// source's file is read at most twice, to copy it and beside what stands at its address, and not at all where it is too large.
pub fn put_file<D: StoreDisk, R: ReadFs>(
    alloc: Global,
    disk: &mut D,
    claim: &mut Claim,
    from: &mut R,
    path: &AbsPath,
) -> Result<Put, PutFault>
    requires held { IsHeld (D.seen disk.old) claim.old }
    requires file { ForSome (R.seen from.old).tree (λ r. IsFile r path.now) }
    ensures put { IfOk result (IsPut (R.seen from.old).tree path.now (D.seen disk.old) (D.seen disk.new)) }
    ensures published { IfOk result (λ put. PublishedOne (step.PublishFile claim.old 0 put.digest) (D.seen disk.old) (D.seen disk.new)) }
    ensures refused { IfErr result (PutLeft (R.seen from.old).tree path.now claim.old (D.seen disk.old) (D.seen disk.new)) }
    ensures empty { OnOk result (HoldsFile (D.seen disk.new) claim.old None) }
    ensures claim { claim.new ≡ claim.old }
    ensures works { Works claim.old (D.seen disk.old) (D.seen disk.new) }
    ensures source { Keeps (R.seen from.old) (R.seen from.new) }
    ensures gave { IfSome (R.seen from.old).tree (λ t. GaveAtMost (R.seen from.old) (2 * min (file_length (t path.now)) FILE_LIMIT) 0 (R.seen from.new)) }
    ensures fault { IfErr result (PutRefused path.now (R.seen from.old) (R.seen from.new) (D.seen disk.old) (D.seen disk.new)) }
{
    grew_law();
    claims_law();
    let k = claim.number();
    if let Err(fault) = check_size(from, path) {
        return Err(fault);
    }
    let mut buffer = zeros(alloc)?;
    let mut other = zeros(alloc)?;
    put_short(disk, k, from, path, &mut buffer, &mut other)
}

// A file that is not too large.
fn put_short<D: StoreDisk, R: ReadFs>(
    disk: &mut D,
    k: u32,
    from: &mut R,
    path: &AbsPath,
    buffer: &mut [u8],
    other: &mut [u8],
) -> Result<Put, PutFault>
    requires held { IsHeld (D.seen disk.old) k }
    requires file { ForSome (R.seen from.old).tree (λ r. IsShortFile r path.now) }
    requires room { (0 < length buffer.old) × (0 < length other.old) }
    ensures put { IfOk result (IsPut (R.seen from.old).tree path.now (D.seen disk.old) (D.seen disk.new)) }
    ensures published { IfOk result (λ put. PublishedOne (step.PublishFile k 0 put.digest) (D.seen disk.old) (D.seen disk.new)) }
    ensures refused { IfErr result (PutLeft (R.seen from.old).tree path.now k (D.seen disk.old) (D.seen disk.new)) }
    ensures empty { OnOk result (HoldsFile (D.seen disk.new) k None) }
    ensures works { Works k (D.seen disk.old) (D.seen disk.new) }
    ensures source { Keeps (R.seen from.old) (R.seen from.new) }
    ensures gave { IfSome (R.seen from.old).tree (λ t. GaveAtMost (R.seen from.old) (2 * file_length (t path.now)) 0 (R.seen from.new)) }
    ensures fault { IfErr result (PutRefused path.now (R.seen from.old) (R.seen from.new) (D.seen disk.old) (D.seen disk.new)) }
{
    grew_law();
    claims_law();
    was_law();
    stands_law();
    start(disk, k)?;
    let put = fill(disk, k, from, path, buffer)?;
    meet(disk, &put.digest, put.length, from, path, buffer, other)?;
    move_to(disk, k, &put.digest)?;
    Ok(put)
}

// Copies the file into the held folder, piece by piece.
fn fill<D: StoreDisk, R: ReadFs>(
    disk: &mut D,
    k: u32,
    from: &mut R,
    path: &AbsPath,
    buffer: &mut [u8],
) -> Result<Put, PutFault>
    requires held { HoldsFile (D.seen disk.old) k (Some []) }
    requires file { ForSome (R.seen from.old).tree (λ r. IsShortFile r path.now) }
    requires room { 0 < length buffer.old }
    ensures filled { IfOk result (IsFilled (R.seen from.old).tree path.now k (D.seen disk.new)) }
    ensures unpublished { PublishedNone (D.seen disk.old) (D.seen disk.new) }
    ensures works { Works k (D.seen disk.old) (D.seen disk.new) }
    ensures source { Keeps (R.seen from.old) (R.seen from.new) }
    ensures gave { IfSome (R.seen from.old).tree (λ t. GaveAtMost (R.seen from.old) (file_length (t path.now)) 0 (R.seen from.new)) }
    ensures fault { IfErr result (FileRefused path.now (R.seen from.old) (R.seen from.new) (D.seen disk.old) (D.seen disk.new)) }
{
    grew_law();
    claims_law();
    let mut hasher = Hasher512::new();
    let mut at = 0u64;
    'pieces: loop {
        let count = source_piece(from, path, at, buffer)?;
        if count == 0 {
            return Ok(finish(hasher, at));
        }
        let next = at + count as u64;
        if next > FILE_LIMIT {
            return Err(PutFault::TooLarge(FILE_LIMIT + 1));
        }
        take_in(disk, k, &mut hasher, buffer, count)?;
        at = next;
    }
}

fn finish(hasher: Hasher512, length: u64) -> Put
    ensures digest { (bytes : List ℕ) → Hashes hasher bytes → result.digest ≡ sha512 bytes }
    ensures length { result.length ≡ length }
{
    Put {
        digest: hasher.end(),
        length,
    }
}

// The first bytes of a buffer go to the held file and to the hasher.
fn take_in<D: StoreDisk>(
    disk: &mut D,
    k: u32,
    hasher: &mut Hasher512,
    buffer: &[u8],
    count: usize,
) -> Result<(), PutFault>
    requires held { (bytes : List ℕ) × HoldsFile (D.seen disk.old) k (Some bytes) }
    requires within { count ≤ length buffer.now }
    ensures ok { (bytes : List ℕ) → HoldsFile (D.seen disk.old) k (Some bytes) → OnOk result (HoldsFile (D.seen disk.new) k (Some (bytes ++ take count buffer.now))) }
    ensures hashed { (bytes : List ℕ) → Hashes hasher.old bytes → Hashes hasher.new (bytes ++ take count buffer.now) }
    ensures unpublished { PublishedNone (D.seen disk.old) (D.seen disk.new) }
    ensures works { Works k (D.seen disk.old) (D.seen disk.new) }
    ensures fault { IfErr result (StoreRefuses (D.seen disk.old) (D.seen disk.new)) }
{
    let (front, _) = buffer.split_at(count);
    hasher.push(front);
    append(disk, k, front)
}

// Moves the held file to its address.
fn move_to<D: StoreDisk>(disk: &mut D, k: u32, at: &Digest) -> Result<(), PutFault>
    requires { (bytes : List ℕ) × HoldsFile (D.seen disk.old) k (Some bytes) × IsStoredFile at.now bytes }
    ensures stands { (bytes : List ℕ) → HoldsFile (D.seen disk.old) k (Some bytes) → OnOk result (HasBytes (D.seen disk.new) Files at.now bytes) }
    ensures empty { OnOk result (HoldsFile (D.seen disk.new) k None) }
    ensures published { OnOk result (PublishedOne (step.PublishFile k 0 at.now) (D.seen disk.old) (D.seen disk.new)) }
    ensures at_most { PublishedAtMost (step.PublishFile k 0 at.now) (D.seen disk.old) (D.seen disk.new) }
    ensures works { Works k (D.seen disk.old) (D.seen disk.new) }
    ensures fault { IfErr result (StoreRefuses (D.seen disk.old) (D.seen disk.new)) }
{
    grew_law();
    claims_law();
    shard(disk, k, Place::Files, first_of(at))?;
    publish_file(disk, k, at)
}

// A file past the limit is refused.
fn check_size<R: ReadFs>(from: &mut R, path: &AbsPath) -> Result<(), PutFault>
    requires { ForSome (R.seen from.old).tree (λ r. IsFile r path.now) }
    ensures short { OnOk result (ForSome (R.seen from.new).tree (λ r. IsShortFile r path.now)) }
    ensures kept { Keeps (R.seen from.old) (R.seen from.new) }
    ensures gave { IfSome (R.seen from.old).tree (λ t. GaveNothing (R.seen from.old) (R.seen from.new)) }
    ensures fault { (old new : Stored) → IfErr result (FileRefused path.now (R.seen from.old) (R.seen from.new) old new) }
{
    match from.kind(path) {
        Ok(Kind::File(length)) => {
            if length > FILE_LIMIT {
                Err(PutFault::TooLarge(length))
            } else {
                Ok(())
            }
        }
        Ok(_) => Ok(()),
        Err(DevFault::Failed) => Err(PutFault::SourceFault),
        Err(DevFault::Memory) => Err(PutFault::Memory),
    }
}

fn zeros(alloc: Global) -> Result<Vec<u8>, PutFault>
    ensures ok { IfOk result (λ v. length v.items ≡ PIECE) }
    ensures memory { IfErr result (λ e. e ≡ PutFault.Memory) }
{
    match vec![in alloc; 0u8; PIECE] {
        Ok(buffer) => Ok(buffer),
        Err(_) => Err(PutFault::Memory),
    }
}
