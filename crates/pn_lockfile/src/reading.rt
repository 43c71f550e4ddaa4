// The lockfile of a tree, read.
ghost use Rattle.std.specs.Prelude.{◌≡◌, ◌≤◌, Some, None, IfOk, IfErr, IfSome, length};
ghost use Rattle.std.specs.Option.{ForSome, option_map};
ghost use Rattle.pn_fs.specs.Seen.{GaveAtMost, Keeps};
ghost use Rattle.pn_fs.specs.Tree.{file};
ghost use Rattle.pn_read.specs.Small.{IsFileOf};
ghost use Rattle.pn_lock_read.specs.LockTexts.{Spells};
ghost use Rattle.pn_lockfile.specs.Contents.{bytes_at, most_read};
ghost use Rattle.pn_lockfile.specs.Reads.{IsFound, Refused, Unspelled, of_lock, of_yaml};
ghost use Rattle.pn_lockfile.specs.declared.limits.TheConstants.{LOCKFILE_LIMIT};

use crate::fault::{LockWhy, LockfileFault};
use crate::limits::LOCKFILE_LIMIT;
use pn_fs::{Kind, ReadFs};
use pn_lock::Lock;
use pn_lock_read::LockFault;
use pn_read::{ReadFault, read_file};
use pn_text::{AbsPath, DevFault};
use pn_yaml::YamlFault;
use std::alloc::Global;

/// A lockfile: the lock that it spells, and its bytes.
#[derive(Drop)]
pub struct Found {
    pub lock: Lock,
    pub bytes: Vec<u8>,
}

/// The lockfile at a path, or none where nothing stands there. A folder or a link counts as an empty file, which spells no
/// lock. Of a file of more than 67,108,864 bytes nothing is read.
pub fn read_lockfile<P: ReadFs>(
    alloc: Global,
    fs: &mut P,
    path: &AbsPath,
) -> Result<Option<Found>, LockfileFault>
    ensures found { IfSome (P.seen fs.old).tree (λ t. IfOk result (IsFound (t path.now))) }
    ensures spells { IfOk result (λ o. IfSome o (λ f. Spells f.bytes.items f.lock)) }
    ensures refused { IfErr result (Refused (P.seen fs.old) (P.seen fs.new) path.now) }
    ensures gave { IfSome (P.seen fs.old).tree (λ t. GaveAtMost (P.seen fs.old) (most_read (t path.now)) 0 (P.seen fs.new)) }
    ensures kept { Keeps (P.seen fs.old) (P.seen fs.new) }
{
    let Some(bytes) = read_bytes(alloc, fs, path)? else {
        return Ok(None);
    };
    match found_in(alloc, bytes) {
        Ok(found) => Ok(Some(found)),
        Err(fault) => Err(fault),
    }
}

// The lockfile of these bytes.
fn found_in(alloc: Global, bytes: Vec<u8>) -> Result<Found, LockfileFault>
    requires { length bytes.items ≤ LOCKFILE_LIMIT }
    ensures bytes { IfOk result (λ f. f.bytes.items ≡ bytes.items) }
    ensures spells { IfOk result (λ f. Spells f.bytes.items f.lock) }
    ensures unspelled { IfErr result (Unspelled bytes.items) }
{
    match lock_of(alloc, bytes.as_slice()) {
        Ok(lock) => Ok(Found { lock, bytes }),
        Err(fault) => Err(fault),
    }
}

// The bytes at a path: those of a file, none of another entry.
fn read_bytes<P: ReadFs>(
    alloc: Global,
    fs: &mut P,
    path: &AbsPath,
) -> Result<Option<Vec<u8>>, LockfileFault>
    ensures bytes { IfSome (P.seen fs.old).tree (λ t. IfOk result (λ o. bytes_at (t path.now) ≡ option_map (λ v. v.items) o)) }
    ensures short { IfOk result (λ o. IfSome o (λ v. length v.items ≤ LOCKFILE_LIMIT)) }
    ensures refused { IfErr result (Refused (P.seen fs.old) (P.seen fs.new) path.now) }
    ensures gave { IfSome (P.seen fs.old).tree (λ t. GaveAtMost (P.seen fs.old) (most_read (t path.now)) 0 (P.seen fs.new)) }
    ensures kept { Keeps (P.seen fs.old) (P.seen fs.new) }
{
    match fs.kind(path) {
        Ok(Kind::Absent) => Ok(None),
        Ok(Kind::Folder) => Ok(Some(Vec::new(alloc))),
        Ok(Kind::Link) => Ok(Some(Vec::new(alloc))),
        Ok(Kind::File(size)) => match file_bytes(alloc, fs, path, size) {
            Ok(bytes) => Ok(Some(bytes)),
            Err(fault) => Err(fault),
        },
        Err(DevFault::Failed) => Err(LockfileFault::Fault),
        Err(DevFault::Memory) => Err(LockfileFault::Memory),
    }
}

// The bytes of a file of this size.
fn file_bytes<P: ReadFs>(
    alloc: Global,
    fs: &mut P,
    path: &AbsPath,
    size: u64,
) -> Result<Vec<u8>, LockfileFault>
    requires { ForSome (P.seen fs.old).tree (λ t. IsFileOf size (t path.now)) }
    ensures bytes { IfSome (P.seen fs.old).tree (λ t. IfOk result (λ v. t path.now ≡ Some (file v.items))) }
    ensures short { IfOk result (λ v. length v.items ≤ LOCKFILE_LIMIT) }
    ensures refused { IfErr result (Refused (P.seen fs.old) (P.seen fs.new) path.now) }
    ensures gave { IfSome (P.seen fs.old).tree (λ t. GaveAtMost (P.seen fs.old) (most_read (t path.now)) 0 (P.seen fs.new)) }
    ensures kept { Keeps (P.seen fs.old) (P.seen fs.new) }
{
    if size > LOCKFILE_LIMIT {
        return Err(LockfileFault::TooLarge(size));
    }
    match read_file(alloc, fs, path, size) {
        Ok(bytes) => Ok(bytes),
        Err(ReadFault::TooLarge) => grown_bytes(alloc, fs, path),
        Err(ReadFault::Fault) => Err(LockfileFault::Fault),
        Err(ReadFault::Memory) => Err(LockfileFault::Memory),
    }
}

// The same of a file that has more bytes than it had when it was asked for; that shows only where the tree isn't known.
fn grown_bytes<P: ReadFs>(
    alloc: Global,
    fs: &mut P,
    path: &AbsPath,
) -> Result<Vec<u8>, LockfileFault>
    requires { (P.seen fs.old).tree ≡ None }
    ensures short { IfOk result (λ v. length v.items ≤ LOCKFILE_LIMIT) }
    ensures refused { IfErr result (Refused (P.seen fs.old) (P.seen fs.new) path.now) }
    ensures kept { Keeps (P.seen fs.old) (P.seen fs.new) }
{
    match read_file(alloc, fs, path, LOCKFILE_LIMIT) {
        Ok(bytes) => Ok(bytes),
        Err(ReadFault::TooLarge) => Err(LockfileFault::TooLarge(LOCKFILE_LIMIT + 1)),
        Err(ReadFault::Fault) => Err(LockfileFault::Fault),
        Err(ReadFault::Memory) => Err(LockfileFault::Memory),
    }
}

// The lock that bytes spell.
fn lock_of(alloc: Global, bytes: &[u8]) -> Result<Lock, LockfileFault>
    requires { length bytes.now ≤ LOCKFILE_LIMIT }
    ensures spells { IfOk result (Spells bytes.now) }
    ensures unspelled { IfErr result (Unspelled bytes.now) }
{
    let node = match pn_yaml::read(alloc, bytes) {
        Ok(node) => node,
        Err(fault) => return Err(no_yaml(fault)),
    };
    match pn_lock_read::read(alloc, &node) {
        Ok(lock) => Ok(lock),
        Err(fault) => Err(no_lock(fault)),
    }
}

// The refusal of bytes that say no data.
fn no_yaml(fault: YamlFault) -> LockfileFault
    ensures { result ≡ of_yaml fault }
{
    match fault {
        YamlFault::NotUtf8 => LockfileFault::Wrong(LockWhy::NotUtf8),
        YamlFault::Line(line, why) => LockfileFault::Wrong(LockWhy::Line(line, why)),
        YamlFault::TooDeep => LockfileFault::Wrong(LockWhy::TooDeep),
        YamlFault::Memory => LockfileFault::Memory,
    }
}

// The refusal of data that is no lock.
fn no_lock(fault: LockFault) -> LockfileFault
    ensures { result ≡ of_lock fault }
{
    match fault {
        LockFault::Version(text) => LockfileFault::Wrong(LockWhy::Version(text)),
        LockFault::Shape(keys) => LockfileFault::Wrong(LockWhy::Shape(keys)),
        LockFault::Dangling(from, to) => LockfileFault::Wrong(LockWhy::Dangling(from, to)),
        LockFault::Memory => LockfileFault::Memory,
    }
}
