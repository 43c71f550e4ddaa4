// A file with bytes of the plan's own.
ghost use Rattle.std.specs.Prelude.{◌≡◌, ◌≤◌, ◌<◌, ◌↔◌, ◌+◌, ◌==◌, if◌then◌else◌, true, OnOk, OnErr, IfOk, IfErr, IfSome, Some, length, take, drop};
ghost use Rattle.std.specs.Bool.{MatchBool};
ghost use Rattle.std.specs.Option.{ForSome};
ghost use Rattle.pn_digest.specs.declared.planned.Planned.TheVariants.{Bytes};
ghost use Rattle.pn_fs.specs.declared.kind.Kind.TheVariants.{File};
ghost use Rattle.pn_fs.specs.Tree.{CanCreate, file};
ghost use Rattle.pn_fs.specs.Seen.{Keeps, GaveAtMost};
ghost use Rattle.pn_fs.specs.Calls.{kind_of};
ghost use Rattle.pn_repair.specs.Repairs.{IsHalf};
ghost use Rattle.pn_repair.specs.RepairFaults.{TreeRefused};
ghost use Rattle.pn_repair.specs.Writes.{WroteAt, HasAt, IsAt};

use crate::calls::{append, create, piece};
use crate::fault::RepairFault;
use pn_fs::{Fs, ReadFs};
use pn_text::AbsPath;

/// Whether the file at a path, which has that many bytes, has these. One of another length isn't read.
pub fn has_text<P: ReadFs>(
    fs: &mut P,
    path: &AbsPath,
    text: &[u8],
    size: u64,
    buffer: &mut [u8],
) -> Result<bool, RepairFault>
    requires file { ForSome (P.seen fs.old).tree (λ t. kind_of (t path.now) ≡ File size) }
    requires room { 0 < length buffer.old }
    ensures right { IfSome (P.seen fs.old).tree (λ t. IfOk result (λ yes. MatchBool yes (t path.now ≡ Some (file text.now)) (t path.now ≡ Some (file text.now) → ⊥))) }
    ensures gave { IfSome (P.seen fs.old).tree (λ t. GaveAtMost (P.seen fs.old) (if size == length text.now then size else 0) 0 (P.seen fs.new)) }
    ensures kept { Keeps (P.seen fs.old) (P.seen fs.new) }
    ensures fault { IfErr result (TreeRefused (P.seen fs.old).faults (P.seen fs.new).faults) }
{
    if size != text.len() as u64 {
        return Ok(false);
    }
    let mut at = 0usize;
    'pieces: loop {
        if at == text.len() {
            return Ok(true);
        }
        let count = piece(fs, path, at as u64, buffer)?;
        if count == 0 || !goes_on(text, at, buffer, count) {
            return Ok(false);
        }
        at += count;
    }
}

// Whether a text has the first bytes of a buffer from a place on.
fn goes_on(text: &[u8], at: usize, buffer: &[u8], count: usize) -> bool
    requires begun { at ≤ length text.now }
    requires within { count ≤ length buffer.now }
    ensures same { (result ≡ true) ↔ (take count buffer.now ≡ take count (drop at text.now)) }
    ensures inside { result ≡ true → at + count ≤ length text.now }
{
    let (_, rest) = text.split_at(at);
    if count > rest.len() {
        return false;
    }
    let (next, _) = rest.split_at(count);
    let (came, _) = buffer.split_at(count);
    came == next
}

/// Leaves a file with these bytes where nothing or a file stands.
pub fn write_text<P: Fs>(fs: &mut P, path: &AbsPath, text: &[u8]) -> Result<(), RepairFault>
    requires { ForSome (P.seen fs.old).tree (λ t. CanCreate t path.now) }
    ensures ok { OnOk result (HasAt path.now (λ o. o ≡ Some (file text.now)) (P.seen fs.new).tree) }
    ensures err { OnErr result (IsAt path.now (IsHalf (Bytes text.now)) (P.seen fs.old).tree (P.seen fs.new).tree) }
    ensures wrote { WroteAt path.now (P.seen fs.old) (P.seen fs.new) }
    ensures fault { IfErr result (TreeRefused (P.seen fs.old).faults (P.seen fs.new).faults) }
{
    create(fs, path)?;
    append(fs, path, text)
}
