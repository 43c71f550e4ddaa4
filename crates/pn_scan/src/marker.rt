// Whether a folder has its marker.
ghost use Rattle.std.specs.Prelude.{◌≡◌, ◌≤◌, ◌<◌, ◌+◌, ◌∷◌, IfOk, IfErr, IfSome, OnErr, IsTrue, length, true};
ghost use Rattle.std.specs.Option.{ForSome};
ghost use Rattle.std.specs.Bool.{MatchBool};
ghost use Rattle.pn_fs.specs.Pieces.{IsPiece};
ghost use Rattle.pn_fs.specs.Tree.{IsFile};
ghost use Rattle.pn_fs.specs.Seen.{Keeps, GaveNothing, GaveBytes, GaveAtMost};
ghost use Rattle.pn_scan.specs.Managed.{IsMarked};
ghost use Rattle.pn_scan.specs.Looks.{CallRefused, IsFrontAt};

use crate::fault::ScanFault;
use pn_fs::{Kind, ReadFs};
use pn_text::{AbsPath, DevFault, PathFault};
use std::alloc::Global;

// The name of a marker.
const MARKER: &str = ".pnpm-rs";

// The marker is read in pieces of at most so many bytes.
const BUFFER: usize = 4096;

/// Whether a file whose bytes are a front of the text is the folder's marker.
pub fn is_marked<P: ReadFs>(
    alloc: Global,
    fs: &mut P,
    folder: &AbsPath,
    text: &str,
) -> Result<bool, ScanFault>
    ensures marked { IfSome (P.seen fs.old).tree (λ t. IfOk result (λ b. MatchBool b (IsMarked t (folder.now, text.now)) (IsMarked t (folder.now, text.now) → ⊥))) }
    ensures gave { IfSome (P.seen fs.old).tree (λ t. GaveAtMost (P.seen fs.old) (length text.now + 1) 0 (P.seen fs.new)) }
    ensures kept { Keeps (P.seen fs.old) (P.seen fs.new) }
    ensures fault { IfErr result (CallRefused (P.seen fs.old) (P.seen fs.new)) }
{
    let path = match folder.child(alloc, MARKER) {
        Ok(path) => path,
        Err(PathFault::Long) => return Ok(false),
        Err(_) => return Err(ScanFault::Memory),
    };
    match fs.kind(&path) {
        Ok(Kind::File(_)) => is_front(fs, &path, text.as_bytes()),
        Ok(_) => Ok(false),
        Err(DevFault::Failed) => Err(ScanFault::Fault),
        Err(DevFault::Memory) => Err(ScanFault::Memory),
    }
}

// Whether the file's bytes are a front of the text: at most one byte more than the text has is read.
fn is_front<P: ReadFs>(fs: &mut P, path: &AbsPath, text: &[u8]) -> Result<bool, ScanFault>
    requires file { ForSome (P.seen fs.old).tree (λ t. IsFile t path.now) }
    ensures front { IfSome (P.seen fs.old).tree (λ t. IfOk result (λ b. MatchBool b (IsFrontAt t path.now text.now) (IsFrontAt t path.now text.now → ⊥))) }
    ensures gave { IfSome (P.seen fs.old).tree (λ t. GaveAtMost (P.seen fs.old) (length text.now + 1) 0 (P.seen fs.new)) }
    ensures kept { Keeps (P.seen fs.old) (P.seen fs.new) }
    ensures fault { IfErr result (CallRefused (P.seen fs.old) (P.seen fs.new)) }
{
    let mut buffer = [0u8; BUFFER];
    let mut at = 0;
    'pieces: loop {
        let (_, rest) = text.split_at(at);
        let room = (rest.len() + 1).min(BUFFER);
        let (piece, _) = buffer.split_at_mut(room);
        let count = read(fs, path, at as u64, piece)?;
        if count == 0 {
            return Ok(true);
        }
        let (front, _) = piece.split_at(count);
        if !rest.starts_with(front) {
            return Ok(false);
        }
        at += count;
    }
}

fn read<P: ReadFs>(fs: &mut P, path: &AbsPath, at: u64, into: &mut [u8]) -> Result<usize, ScanFault>
    requires some { 0 < length into.old }
    requires file { ForSome (P.seen fs.old).tree (λ t. IsFile t path.now) }
    ensures within { IfOk result (λ n. n ≤ length into.old) }
    ensures piece { IfSome (P.seen fs.old).tree (λ t. IfOk result (IsPiece (t path.now) at into.new)) }
    ensures kept { Keeps (P.seen fs.old) (P.seen fs.new) }
    ensures gave { IfSome (P.seen fs.old).tree (λ t. IfOk result (λ n. GaveBytes (P.seen fs.old) n (P.seen fs.new))) }
    ensures gave_none { IfSome (P.seen fs.old).tree (λ t. OnErr result (GaveNothing (P.seen fs.old) (P.seen fs.new))) }
    ensures fault { IfErr result (CallRefused (P.seen fs.old) (P.seen fs.new)) }
{
    match fs.read_piece(path, at, into) {
        Ok(count) => Ok(count),
        Err(DevFault::Failed) => Err(ScanFault::Fault),
        Err(DevFault::Memory) => Err(ScanFault::Memory),
    }
}
