// What stands at the address of a file that is put.
ghost use Rattle.std.specs.Prelude.{◌≡◌, ◌≢◌, ◌⊎◌, ◌≤◌, ◌<◌, ◌↔◌, ◌-◌, min, ℕ, List, ◌++◌, true, false, OnOk, OnErr, IfOk, IfErr, IfSome, length, take};
ghost use Rattle.std.specs.Option.{ForSome};
ghost use Rattle.sha2.specs.Sha512.{sha512};
ghost use Rattle.pn_fs.specs.Tree.{IsFile};
ghost use Rattle.pn_fs.specs.Seen.{Keeps, GaveAtMost, GaveBytes, GaveNothing};
ghost use Rattle.pn_fs.specs.Pieces.{IsPiece};
ghost use Rattle.pn_digest.specs.Hashing.{Holds as Hashes};
ghost use Rattle.pn_storecore.specs.Grew.{Grew};
ghost use Rattle.pn_store.specs.Faults.{FileRefused, PutRefused, SourceRefuses};
ghost use Rattle.pn_store.specs.Puts.{IsFound, IsMet, HasSource, file_length};
ghost use Rattle.pn_store.specs.Begins.{BeginsAt, IsEnd};
ghost use Rattle.pn_store.specs.Leaves.{LeavesAll};

use crate::calls::read;
use crate::fault::PutFault;
use pn_digest::{Digest, Hasher512};
use pn_fs::ReadFs;
use pn_storecore::{Place, StoreDisk, claims_law, grew_law, was_law};
use pn_text::{AbsPath, DevFault, FILE_LIMIT};

/// What was read at an address: nothing, the source's bytes, others with this SHA-512, or more than 268,435,456.
#[derive(Drop)]
pub enum Met {
    Absent,
    Same,
    Other(Digest),
    Long,
}

/// Compares what stands at the address of a file's bytes with them. Other bytes of that digest are a clash.
pub fn meet<D: StoreDisk, R: ReadFs>(
    disk: &mut D,
    at: &Digest,
    size: u64,
    from: &mut R,
    path: &AbsPath,
    ours: &mut [u8],
    theirs: &mut [u8],
) -> Result<(), PutFault>
    requires source { HasSource (R.seen from.old).tree path.now at.now size }
    requires file { ForSome (R.seen from.old).tree (λ r. IsFile r path.now) }
    requires room { (0 < length ours.old) × (0 < length theirs.old) }
    ensures met { OnOk result (IsMet (R.seen from.old).tree path.now at.now (D.seen disk.old) (D.seen disk.new)) }
    ensures left { LeavesAll (D.seen disk.old) (D.seen disk.new) }
    ensures grew { Grew (D.seen disk.old) (D.seen disk.new) }
    ensures later { (D.seen disk.old).faults ≤ (D.seen disk.new).faults }
    ensures source { Keeps (R.seen from.old) (R.seen from.new) }
    ensures gave { IfSome (R.seen from.old).tree (λ t. GaveAtMost (R.seen from.old) (file_length (t path.now)) 0 (R.seen from.new)) }
    ensures fault { IfErr result (PutRefused path.now (R.seen from.old) (R.seen from.new) (D.seen disk.old) (D.seen disk.new)) }
{
    let met = compare(disk, at, size, from, path, ours, theirs)?;
    match met {
        Met::Absent => Ok(()),
        Met::Same => Ok(()),
        Met::Long => Ok(()),
        Met::Other(found) => {
            if found == *at {
                Err(PutFault::Clash(found))
            } else {
                Ok(())
            }
        }
    }
}

// Reads what stands there in pieces, and the source beside it as long as they agree.
fn compare<D: StoreDisk, R: ReadFs>(
    disk: &mut D,
    at: &Digest,
    size: u64,
    from: &mut R,
    path: &AbsPath,
    ours: &mut [u8],
    theirs: &mut [u8],
) -> Result<Met, PutFault>
    requires source { HasSource (R.seen from.old).tree path.now at.now size }
    requires file { ForSome (R.seen from.old).tree (λ r. IsFile r path.now) }
    requires room { (0 < length ours.old) × (0 < length theirs.old) }
    ensures found { IfOk result (IsFound (R.seen from.old).tree path.now at.now (D.seen disk.old) (D.seen disk.new)) }
    ensures left { LeavesAll (D.seen disk.old) (D.seen disk.new) }
    ensures grew { Grew (D.seen disk.old) (D.seen disk.new) }
    ensures later { (D.seen disk.old).faults ≤ (D.seen disk.new).faults }
    ensures source { Keeps (R.seen from.old) (R.seen from.new) }
    ensures gave { IfSome (R.seen from.old).tree (λ t. GaveAtMost (R.seen from.old) (file_length (t path.now)) 0 (R.seen from.new)) }
    ensures fault { IfErr result (FileRefused path.now (R.seen from.old) (R.seen from.new) (D.seen disk.old) (D.seen disk.new)) }
{
    grew_law();
    claims_law();
    was_law();
    let mut hasher = Hasher512::new();
    let mut place = 0u64;
    let mut same = true;
    'pieces: loop {
        let count = match read(disk, Place::Files, at, place, ours) {
            Ok(Some(count)) => count,
            Ok(None) => return Ok(Met::Absent),
            Err(DevFault::Failed) => return Err(PutFault::StoreFault),
            Err(DevFault::Memory) => return Err(PutFault::Memory),
        };
        if count == 0 {
            return Ok(finish(hasher, is_whole(same, place, size)));
        }
        if place + count as u64 > FILE_LIMIT {
            return Ok(Met::Long);
        }
        let step = agree(from, path, place, same, ours, count, theirs)?;
        push_front(&mut hasher, ours, step.used);
        place += step.used as u64;
        same = step.same;
    }
}

// Whether what was read is the source's file, of which all so far is the same.
fn is_whole(same: bool, place: u64, size: u64) -> bool
    ensures whole { result ≡ true → (same ≡ true) × (place ≡ size) }
    ensures other { result ≡ false → (same ≡ false) ⊎ (place ≢ size) }
{
    same && place == size
}

fn finish(hasher: Hasher512, whole: bool) -> Met
    ensures { (bytes : List ℕ) → Hashes hasher bytes → IsEnd whole bytes result }
{
    let found = hasher.end();
    if whole { Met::Same } else { Met::Other(found) }
}

/// The first bytes of a buffer go to a hasher.
pub fn push_front(hasher: &mut Hasher512, buffer: &[u8], count: usize)
    requires { count ≤ length buffer.now }
    ensures { (bytes : List ℕ) → Hashes hasher.old bytes → Hashes hasher.new (bytes ++ take count buffer.now) }
{
    let (front, _) = buffer.split_at(count);
    hasher.push(front);
}

// How many bytes of a piece were compared, and whether all so far are the source's.
#[derive(Clone, Copy)]
struct Step {
    used: usize,
    same: bool,
}

// Compares bytes at a place with the source's there, of which it reads no more than those that it compares. Where those before
// differ, it reads nothing.
fn agree<R: ReadFs>(
    from: &mut R,
    path: &AbsPath,
    at: u64,
    same: bool,
    ours: &[u8],
    count: usize,
    theirs: &mut [u8],
) -> Result<Step, PutFault>
    requires file { ForSome (R.seen from.old).tree (λ r. IsFile r path.now) }
    requires room { 0 < length theirs.old }
    requires some { 0 < count }
    requires within { count ≤ length ours.now }
    ensures used { IfOk result (λ s. (0 < s.used) × (s.used ≤ count)) }
    ensures begins { IfOk result (λ s. same ≡ true → IfSome (R.seen from.old).tree (λ r. BeginsAt (r path.now) at (take s.used ours.now) s.same)) }
    ensures differs { IfOk result (λ s. same ≡ false → s.same ≡ false) }
    ensures kept { Keeps (R.seen from.old) (R.seen from.new) }
    ensures gave { IfSome (R.seen from.old).tree (λ t. IfOk result (λ s. GaveAtMost (R.seen from.old) (min s.used (file_length (t path.now) - at)) 0 (R.seen from.new))) }
    ensures gave_none { IfSome (R.seen from.old).tree (λ t. OnErr result (GaveNothing (R.seen from.old) (R.seen from.new))) }
    ensures fault { IfErr result (SourceRefuses (R.seen from.old) (R.seen from.new)) }
{
    if !same {
        return Ok(Step {
            used: count,
            same: false,
        });
    }
    let room = count.min(theirs.len());
    let (front, _) = theirs.split_at_mut(room);
    let given = source_piece(from, path, at, front)?;
    if given == 0 {
        return Ok(Step {
            used: count,
            same: false,
        });
    }
    let alike = is_same(ours, front, given);
    Ok(Step {
        used: given,
        same: alike,
    })
}

fn is_same(ours: &[u8], theirs: &[u8], count: usize) -> bool
    requires { (count ≤ length ours.now) × (count ≤ length theirs.now) }
    ensures { (result ≡ true) ↔ (take count ours.now ≡ take count theirs.now) }
{
    let (one, _) = ours.split_at(count);
    let (other, _) = theirs.split_at(count);
    one == other
}

/// A piece of the source's file from a place on.
pub fn source_piece<R: ReadFs>(
    from: &mut R,
    path: &AbsPath,
    at: u64,
    into: &mut [u8],
) -> Result<usize, PutFault>
    requires file { ForSome (R.seen from.old).tree (λ r. IsFile r path.now) }
    requires room { 0 < length into.old }
    ensures within { IfOk result (λ n. n ≤ length into.old) }
    ensures piece { IfSome (R.seen from.old).tree (λ r. IfOk result (IsPiece (r path.now) at into.new)) }
    ensures kept { Keeps (R.seen from.old) (R.seen from.new) }
    ensures gave { IfSome (R.seen from.old).tree (λ t. IfOk result (λ n. GaveBytes (R.seen from.old) n (R.seen from.new))) }
    ensures gave_none { IfSome (R.seen from.old).tree (λ t. OnErr result (GaveNothing (R.seen from.old) (R.seen from.new))) }
    ensures fault { IfErr result (SourceRefuses (R.seen from.old) (R.seen from.new)) }
{
    match from.read_piece(path, at, into) {
        Ok(count) => Ok(count),
        Err(DevFault::Failed) => Err(PutFault::SourceFault),
        Err(DevFault::Memory) => Err(PutFault::Memory),
    }
}
