// Reads a file that should be small.
ghost use Rattle.std.specs.Prelude.{◌≡◌, ◌≤◌, ◌<◌, ◌+◌, ◌^◌, Some, IfOk, IfErr, IfSome, length};
ghost use Rattle.pn_fs.specs.Tree.{file};
ghost use Rattle.pn_fs.specs.Seen.{Keeps, GaveNothing, GaveAtMost};
ghost use Rattle.pn_read.specs.Small.{IsFileOf, NotRead};

use crate::pieces::{ReadFault, read_file};
use pn_fs::{Kind, ReadFs};
use pn_text::{AbsPath, DevFault};
use std::alloc::Global;
use thiserror::Error;

/// Why a file wasn't read: none stands there, it has so many bytes, a call failed, or no memory.
#[derive(Clone, Copy, Debug, PartialEq, Eq, Error)]
pub enum SmallFault {
    #[error("no file is there")]
    Missing,
    #[error("the file has {0} bytes")]
    TooLarge(u64),
    #[error("the device failed")]
    Fault,
    #[error("out of memory")]
    Memory,
}

/// The bytes of the file at a path, where a file of at most `limit` bytes stands there.
pub fn read_small<P: ReadFs>(
    alloc: Global,
    fs: &mut P,
    path: &AbsPath,
    limit: u64,
) -> Result<Vec<u8>, SmallFault>
    requires { limit < 2 ^ 40 }
    ensures bytes { IfSome (P.seen fs.old).tree (λ t. IfOk result (λ all. t path.now ≡ Some (file all.items))) }
    ensures short { IfOk result (λ all. length all.items ≤ limit) }
    ensures gave { IfSome (P.seen fs.old).tree (λ t. GaveAtMost (P.seen fs.old) (limit + 1) 0 (P.seen fs.new)) }
    ensures kept { Keeps (P.seen fs.old) (P.seen fs.new) }
    ensures fault { IfErr result (NotRead (P.seen fs.old) (P.seen fs.new) path.now limit) }
{
    let length = file_length(fs, path, limit)?;
    if length > limit {
        return Err(SmallFault::TooLarge(length));
    }
    match read_file(alloc, fs, path, limit) {
        Ok(bytes) => Ok(bytes),
        Err(ReadFault::TooLarge) => Err(SmallFault::TooLarge(limit + 1)),
        Err(ReadFault::Fault) => Err(SmallFault::Fault),
        Err(ReadFault::Memory) => Err(SmallFault::Memory),
    }
}

// The length of the file at a path.
fn file_length<P: ReadFs>(fs: &mut P, path: &AbsPath, limit: u64) -> Result<u64, SmallFault>
    ensures file { IfSome (P.seen fs.old).tree (λ t. IfOk result (λ n. IsFileOf n (t path.now))) }
    ensures gave { IfSome (P.seen fs.old).tree (λ t. GaveNothing (P.seen fs.old) (P.seen fs.new)) }
    ensures kept { Keeps (P.seen fs.old) (P.seen fs.new) }
    ensures fault { IfErr result (NotRead (P.seen fs.old) (P.seen fs.new) path.now limit) }
{
    match fs.kind(path) {
        Ok(Kind::File(length)) => Ok(length),
        Ok(_) => Err(SmallFault::Missing),
        Err(DevFault::Failed) => Err(SmallFault::Fault),
        Err(DevFault::Memory) => Err(SmallFault::Memory),
    }
}
