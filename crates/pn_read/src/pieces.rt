// Reads a file piece by piece.
ghost use Rattle.std.specs.Prelude.{◌≡◌, ◌≤◌, ◌<◌, ℕ, ◌^◌, Option, Some, IfOk, IfErr, IfSome, OnOk, length, take, vec_len, ◌++◌, ◌+◌};
ghost use Rattle.std.specs.Option.{ForSome};
ghost use Rattle.pn_text.specs.declared.fault.DevFault.TheVariants.{Failed};
ghost use Rattle.pn_fs.specs.Tree.{Tree, IsFile, file};
ghost use Rattle.pn_fs.specs.Seen.{Keeps, GaveAtMost};
ghost use Rattle.pn_read.specs.Pieces.{ReadRefused};

use pn_fs::ReadFs;
use pn_text::{AbsPath, DevFault};
use std::alloc::{AllocError, Global};
use thiserror::Error;

const BUFFER: usize = 4096;

/// Why a file wasn't read: a call failed, the file is larger than the limit, or no memory.
#[derive(Clone, Copy, Debug, PartialEq, Eq, Error)]
pub enum ReadFault {
    #[error("the device failed")]
    Fault,
    #[error("the file is too large")]
    TooLarge,
    #[error("out of memory")]
    Memory,
}

/// The bytes of a file, if they are no more than the limit. At most one byte more than the limit is read.
pub fn read_file<P: ReadFs>(
    alloc: Global,
    fs: &mut P,
    path: &AbsPath,
    limit: u64,
) -> Result<Vec<u8>, ReadFault>
    requires file { ForSome (P.seen fs.old).tree (λ t. IsFile t path.now) }
    requires small { limit < 2 ^ 40 }
    ensures bytes { IfSome (P.seen fs.old).tree (λ t. IfOk result (λ all. t path.now ≡ Some (file all.items))) }
    ensures short { IfOk result (λ all. length all.items ≤ limit) }
    ensures gave { IfSome (P.seen fs.old).tree (λ t. GaveAtMost (P.seen fs.old) (limit + 1) 0 (P.seen fs.new)) }
    ensures kept { Keeps (P.seen fs.old) (P.seen fs.new) }
    ensures fault { IfErr result (ReadRefused (P.seen fs.old) (P.seen fs.new) path.now limit) }
{
    let mut all = Vec::new(alloc);
    let mut buffer = [0u8; BUFFER];
    loop {
        let at = all.len() as u64;
        let room = (limit + 1 - at).min(BUFFER as u64) as usize;
        let (piece, _) = buffer.split_at_mut(room);
        let count = match fs.read_piece(path, at, piece) {
            Ok(count) => count,
            Err(DevFault::Failed) => return Err(ReadFault::Fault),
            Err(DevFault::Memory) => return Err(ReadFault::Memory),
        };
        if count == 0 {
            return Ok(all);
        }
        if at + count as u64 > limit {
            return Err(ReadFault::TooLarge);
        }
        take_in(&mut all, piece, count)?;
    }
}

impl From<AllocError> for ReadFault {
    ghost use Rattle.std.specs.Prelude.{◌≡◌};
    ghost use Rattle.pn_read.specs.declared.pieces.ReadFault.TheVariants.{Memory};

    ghost from_gives = { λ _ e. e ≡ Memory };

    fn from(_: AllocError) -> Self {
        ReadFault::Memory
    }
}

// Adds the first bytes of a piece.
fn take_in(all: &mut Vec<u8>, piece: &[u8], count: usize) -> Result<(), ReadFault>
    requires { count ≤ length piece.now }
    ensures items { OnOk result (all.new.items ≡ all.old.items ++ take count piece.now) }
    ensures len { OnOk result (vec_len all.new ≡ vec_len all.old + count) }
    ensures memory { IfErr result (λ e. e ≡ ReadFault.Memory) }
{
    let (front, _) = piece.split_at(count);
    all.extend_from_slice(front)?;
    Ok(())
}
