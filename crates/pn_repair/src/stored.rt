// A file that the store has.
ghost use Rattle.std.specs.Prelude.{◌≡◌, ◌≢◌, ◌≤◌, ◌<◌, ℕ, List, [], ◌++◌, nat_le, if◌then◌else◌, OnOk, OnErr, IfOk, IfErr, IfSome, Some, length, take};
ghost use Rattle.std.specs.Bool.{MatchBool};
ghost use Rattle.std.specs.Option.{ForSome};
ghost use Rattle.sha2.specs.Sha512.{sha512};
ghost use Rattle.pn_text.specs.declared.limits.TheConstants.{FILE_LIMIT};
ghost use Rattle.pn_digest.specs.Hashing.{Holds as Hashes};
ghost use Rattle.pn_digest.specs.declared.planned.Planned.TheVariants as planned;
ghost use Rattle.pn_fs.specs.declared.kind.Kind.TheVariants.{File};
ghost use Rattle.pn_fs.specs.Tree.{CanCreate, file};
ghost use Rattle.pn_fs.specs.Seen.{Keeps, GaveAtMost};
ghost use Rattle.pn_fs.specs.Calls.{kind_of};
ghost use Rattle.pn_repair.specs.Stands.{StandsAs};
ghost use Rattle.pn_repair.specs.Repairs.{IsHalf};
ghost use Rattle.pn_repair.specs.RepairFaults.{TreeRefused, RepairRefused, IsOfPlan, IsEnd, store_fault};
ghost use Rattle.pn_repair.specs.Writes.{WroteAt, HasAt, IsAt, ReadsStore};

use crate::calls::{append_front, create, piece};
use crate::fault::RepairFault;
use pn_digest::{Digest, Hasher512};
use pn_fs::{Fs, ReadFs};
use pn_store::{ReadFault, read_piece};
use pn_storecore::{StoreDisk, claims_law, grew_law, was_law};
use pn_text::{AbsPath, FILE_LIMIT};

/// Whether the file at a path, which has that many bytes, has this digest and at most 268,435,456 bytes. A longer one
/// isn't read.
pub fn has_digest<P: ReadFs>(
    fs: &mut P,
    path: &AbsPath,
    digest: &Digest,
    size: u64,
    buffer: &mut [u8],
) -> Result<bool, RepairFault>
    requires file { ForSome (P.seen fs.old).tree (λ t. kind_of (t path.now) ≡ File size) }
    requires room { 0 < length buffer.old }
    ensures right { IfSome (P.seen fs.old).tree (λ t. IfOk result (λ yes. MatchBool yes (StandsAs (planned.Stored digest.now) (t path.now)) (StandsAs (planned.Stored digest.now) (t path.now) → ⊥))) }
    ensures gave { IfSome (P.seen fs.old).tree (λ t. GaveAtMost (P.seen fs.old) (if nat_le size FILE_LIMIT then size else 0) 0 (P.seen fs.new)) }
    ensures kept { Keeps (P.seen fs.old) (P.seen fs.new) }
    ensures fault { IfErr result (TreeRefused (P.seen fs.old).faults (P.seen fs.new).faults) }
{
    if size > FILE_LIMIT {
        return Ok(false);
    }
    let mut hasher = Hasher512::new();
    let mut at = 0u64;
    'pieces: loop {
        let count = piece(fs, path, at, buffer)?;
        if count == 0 {
            return Ok(is_digest(hasher, digest));
        }
        let next = at + count as u64;
        if next > FILE_LIMIT {
            return Ok(false);
        }
        push_front(&mut hasher, buffer, count);
        at = next;
    }
}

fn is_digest(hasher: Hasher512, digest: &Digest) -> bool
    ensures { (bytes : List ℕ) → Hashes hasher bytes → MatchBool result (sha512 bytes ≡ digest.now) (sha512 bytes ≢ digest.now) }
{
    hasher.end() == *digest
}

// The first bytes of a buffer go to a hasher.
fn push_front(hasher: &mut Hasher512, buffer: &[u8], count: usize)
    requires { count ≤ length buffer.now }
    ensures { (bytes : List ℕ) → Hashes hasher.old bytes → Hashes hasher.new (bytes ++ take count buffer.now) }
{
    let (front, _) = buffer.split_at(count);
    hasher.push(front);
}

/// Leaves the file that the store has at a digest where nothing or a file stands.
pub fn copy_stored<P: Fs, D: StoreDisk>(
    fs: &mut P,
    disk: &mut D,
    path: &AbsPath,
    digest: &Digest,
    buffer: &mut [u8],
) -> Result<(), RepairFault>
    requires free { ForSome (P.seen fs.old).tree (λ t. CanCreate t path.now) }
    requires room { 0 < length buffer.old }
    ensures ok { OnOk result (HasAt path.now (StandsAs (planned.Stored digest.now)) (P.seen fs.new).tree) }
    ensures err { OnErr result (IsAt path.now (IsHalf (planned.Stored digest.now)) (P.seen fs.old).tree (P.seen fs.new).tree) }
    ensures wrote { WroteAt path.now (P.seen fs.old) (P.seen fs.new) }
    ensures reads { ReadsStore (D.seen disk.old) (D.seen disk.new) }
    ensures fault { IfErr result (RepairRefused (P.seen fs.old) (P.seen fs.new) (D.seen disk.old) (D.seen disk.new)) }
    ensures of_plan { IfErr result (IsOfPlan (planned.Stored digest.now)) }
{
    grew_law();
    claims_law();
    create(fs, path)?;
    fill(fs, disk, path, digest, buffer)
}

// Adds the bytes of the store's file to an empty one, and hashes them.
fn fill<P: Fs, D: StoreDisk>(
    fs: &mut P,
    disk: &mut D,
    path: &AbsPath,
    digest: &Digest,
    buffer: &mut [u8],
) -> Result<(), RepairFault>
    requires empty { HasAt path.now (λ o. o ≡ Some (file [])) (P.seen fs.old).tree }
    requires room { 0 < length buffer.old }
    ensures ok { OnOk result (HasAt path.now (StandsAs (planned.Stored digest.now)) (P.seen fs.new).tree) }
    ensures err { OnErr result (HasAt path.now (λ o. (bytes : List ℕ) × (o ≡ Some (file bytes))) (P.seen fs.new).tree) }
    ensures wrote { WroteAt path.now (P.seen fs.old) (P.seen fs.new) }
    ensures reads { ReadsStore (D.seen disk.old) (D.seen disk.new) }
    ensures fault { IfErr result (RepairRefused (P.seen fs.old) (P.seen fs.new) (D.seen disk.old) (D.seen disk.new)) }
    ensures of_plan { IfErr result (IsOfPlan (planned.Stored digest.now)) }
{
    grew_law();
    claims_law();
    was_law();
    let mut hasher = Hasher512::new();
    let mut at = 0u64;
    'pieces: loop {
        let count = match read_piece(disk, digest, at, buffer) {
            Ok(Some(count)) => count,
            Ok(None) => return Err(RepairFault::Stored(digest.copy(), None)),
            Err(fault) => return Err(of_store(fault)),
        };
        if count == 0 {
            return finish(hasher, digest);
        }
        let next = at + count as u64;
        if next > FILE_LIMIT {
            return Err(RepairFault::Stored(digest.copy(), None));
        }
        append_front(fs, path, buffer, count)?;
        push_front(&mut hasher, buffer, count);
        at = next;
    }
}

// Whether what was read has the digest.
fn finish(hasher: Hasher512, digest: &Digest) -> Result<(), RepairFault>
    ensures { (bytes : List ℕ) → Hashes hasher bytes → IsEnd digest.now (sha512 bytes) result }
{
    let found = hasher.end();
    if found == *digest {
        Ok(())
    } else {
        Err(RepairFault::Stored(digest.copy(), Some(found)))
    }
}

fn of_store(fault: ReadFault) -> RepairFault
    ensures { result ≡ store_fault fault }
{
    match fault {
        ReadFault::Fault => RepairFault::StoreFault,
        ReadFault::Damaged(at, found) => RepairFault::Stored(at, Some(found)),
        ReadFault::Memory => RepairFault::Memory,
    }
}
