// Entries in trees in memory, repaired from stores in memory, and calls that fail.
ghost use Rattle.std.specs.Prelude.{◌≡◌, true, IfOk, IfSome, length};
ghost use Rattle.pn_fs.specs.declared.kind.Kind.TheVariants.{Absent};
ghost use Rattle.pn_fs.specs.Tree.{HasParent, IsFile};
ghost use Rattle.pn_fs.specs.Seen.{Keeps};
ghost use Rattle.pn_fs.specs.Calls.{kind_of};
ghost use Rattle.pn_repair.specs.Repairs.{fits};

use super::*;
use pn_digest::{Digest, Planned};
use pn_fs::{Body, Fs, Kind, MemFs, ReadFs, is_free, try_make};
use pn_memstore::{FoundStore, MemStore};
use pn_storecore::{Bytes, Place, StoreDisk, StoreStep};
use pn_text::{AbsPath, PIECE, Text};
use std::alloc::Global;
use std::test::Fail;

// The store of one file with these bytes, at the address.
fn store_of(alloc: Global, bytes: &[u8], at: &Digest) -> Result<FoundStore, Fail> {
    let mut steps = Vec::new(alloc);
    let all = Bytes::of(alloc, bytes)?;
    steps.push((7, StoreStep::Claim(0)))?;
    steps.push((7, StoreStep::Create(0, 0)))?;
    steps.push((7, StoreStep::Append(0, 0, all)))?;
    steps.push((7, StoreStep::Shard(Place::Files, at.as_bytes()[0])))?;
    steps.push((7, StoreStep::PublishFile(0, 0, at.copy())))?;
    Ok(FoundStore::new(alloc, 1, steps)?)
}

// A tree with this at `/x`, if anything, whose calls with these numbers fail.
fn tree_of(alloc: Global, body: Option<&Body>, fail: Vec<u64>) -> Result<(MemFs, AbsPath), Fail> {
    let mut tree = MemFs::new(alloc, fail);
    let path = AbsPath::read(alloc, "/x")?;
    if let Some(body) = body {
        try_make(&mut tree, alloc, &path, body)?;
    }
    Ok((tree, path))
}

// What stands at a path, by three calls, where a repair may be asked.
fn found_at<P: ReadFs>(
    alloc: Global,
    tree: &mut P,
    path: &AbsPath,
    planned: &Planned,
) -> Result<Kind, Fail>
    ensures kind { IfSome (P.seen tree.old).tree (λ t. IfOk result (λ k. kind_of (t path.now) ≡ k)) }
    ensures parent { IfSome (P.seen tree.old).tree (λ t. IfOk result (λ k. k ≡ Absent → HasParent t path.now)) }
    ensures fits { IfOk result (λ k. fits planned.now k ≡ true) }
    ensures kept { Keeps (P.seen tree.old) (P.seen tree.new) }
{
    let free = is_free(tree, alloc, path)?;
    let found = tree.kind(path)?;
    if !is_fitting(planned, found) {
        return Err(Fail::from("another kind"));
    }
    if found == Kind::Absent && !free {
        return Err(Fail::from("no folder"));
    }
    Ok(found)
}

// A buffer of so many bytes.
fn zeros(alloc: Global, count: usize) -> Result<Vec<u8>, Fail>
    ensures { IfOk result (λ v. length v.items ≡ count) }
{
    Ok(vec![in alloc; 0u8; count]?)
}

// Repairs an entry, by three calls more.
fn repaired<P: Fs, D: StoreDisk>(
    alloc: Global,
    tree: &mut P,
    disk: &mut D,
    path: &AbsPath,
    planned: &Planned,
) -> Result<Result<(), RepairFault>, Fail> {
    let mut buffer = zeros(alloc, PIECE)?;
    let found = found_at(alloc, tree, path, planned)?;
    Ok(repair(tree, disk, path, planned, found, &mut buffer))
}

// Whether a file stands there.
fn has_file<P: ReadFs>(tree: &mut P, path: &AbsPath) -> Result<bool, Fail>
    ensures file { IfSome (P.seen tree.old).tree (λ t. IfOk result (λ yes. yes ≡ true → IsFile t path.now)) }
    ensures kept { Keeps (P.seen tree.old) (P.seen tree.new) }
{
    match tree.kind(path)? {
        Kind::File(_) => Ok(true),
        _ => Ok(false),
    }
}

// Whether a file of these bytes stands there.
fn is_file<P: ReadFs>(
    alloc: Global,
    tree: &mut P,
    path: &AbsPath,
    bytes: &[u8],
) -> Result<bool, Fail> {
    let mut all = zeros(alloc, 65_538)?;
    if !has_file(tree, path)? {
        return Ok(false);
    }
    let count = tree.read_piece(path, 0, &mut all)?;
    Ok(all.get(..count) == Some(bytes))
}

fn file(alloc: Global, bytes: &[u8]) -> Result<Body, Fail> {
    let mut all = Vec::new(alloc);
    all.extend_from_slice(bytes)?;
    Ok(Body::File(all))
}

// How many calls of the tree a repair makes, and the three before.
fn calls_of<D: StoreDisk>(
    alloc: Global,
    tree: &mut MemFs,
    disk: &mut D,
    path: &AbsPath,
    planned: &Planned,
) -> Result<u64, Fail> {
    let start = tree.calls();
    match repaired(alloc, tree, disk, path, planned)? {
        Ok(()) => Ok(tree.calls().wrapping_sub(start)),
        Err(_) => Err(Fail::from("refused")),
    }
}

// The calls of two repairs of an entry, one after the other, where this stood before.
fn calls_twice(
    alloc: Global,
    planned: &Planned,
    before: Option<&Body>,
) -> Result<(u64, u64), Fail> {
    let abc = Digest::of_bytes(b"abc");
    let mut disk = store_of(alloc, b"abc", &abc)?;
    let (mut tree, path) = tree_of(alloc, before, Vec::new(alloc))?;
    let first = calls_of(alloc, &mut tree, &mut disk, &path, planned)?;
    let second = calls_of(alloc, &mut tree, &mut disk, &path, planned)?;
    Ok((first, second))
}

fn at_file(alloc: Global, planned: &Planned, text: &str) -> Result<(u64, u64), Fail> {
    let before = file(alloc, text.as_bytes())?;
    calls_twice(alloc, planned, Some(&before))
}

fn at_link(alloc: Global, text: &str) -> Result<(u64, u64), Fail> {
    let planned = Planned::Link(Text::of(alloc, "a/b")?);
    let before = Body::Link(Text::of(alloc, text)?);
    calls_twice(alloc, &planned, Some(&before))
}

#[test]
fn what_is_wrong_is_made_once_and_what_is_right_only_read(rt: HostRuntime) -> Result<(), Fail> {
    let alloc = rt.alloc();
    assert_eq!(rt; calls_twice(alloc, &Planned::Folder, None)?, (4, 3));
    let stored = Planned::Stored(Digest::of_bytes(b"abc"));
    assert_eq!(rt; calls_twice(alloc, &stored, None)?, (5, 5));
    assert_eq!(rt; at_file(alloc, &stored, "abd")?, (7, 5));
    let text = Planned::Bytes(Text::of(alloc, "abc")?);
    assert_eq!(rt; calls_twice(alloc, &text, None)?, (5, 4));
    assert_eq!(rt; at_file(alloc, &text, "abd")?, (6, 4));
    assert_eq!(rt; at_file(alloc, &text, "ab")?, (5, 4));
    assert_eq!(rt; at_link(alloc, "a/b")?, (4, 4));
    assert_eq!(rt; at_link(alloc, "/")?, (6, 4));
    Ok(())
}

// How many calls bring a file of so many bytes, or 0 where it doesn't come.
fn size_calls(alloc: Global, size: usize) -> Result<u64, Fail> {
    let bytes = vec![in alloc; b'a'; size]?;
    let digest = Digest::of_bytes(&bytes);
    let mut disk = store_of(alloc, &bytes, &digest)?;
    let (mut tree, path) = tree_of(alloc, None, Vec::new(alloc))?;
    let planned = Planned::Stored(digest);
    let made = calls_of(alloc, &mut tree, &mut disk, &path, &planned)?;
    let there = is_file(alloc, &mut tree, &path, &bytes)?;
    Ok(if there { made } else { 0 })
}

#[test]
fn files_around_the_size_of_a_piece_come_whole(rt: HostRuntime) -> Result<(), Fail> {
    let alloc = rt.alloc();
    assert_eq!(rt; size_calls(alloc, 0)?, 4);
    assert_eq!(rt; size_calls(alloc, 65_536)?, 5);
    assert_eq!(rt; size_calls(alloc, 65_537)?, 6);
    Ok(())
}

// The answer where `abc` is planned and the store has these bytes at the address, and calls of the tree fail.
fn answer_of(
    alloc: Global,
    bytes: &[u8],
    at: &Digest,
    fail: Vec<u64>,
) -> Result<Result<(), RepairFault>, Fail> {
    let (mut tree, path) = tree_of(alloc, None, fail)?;
    let mut disk = store_of(alloc, bytes, at)?;
    let planned = Planned::Stored(Digest::of_bytes(b"abc"));
    repaired(alloc, &mut tree, &mut disk, &path, &planned)
}

// The answer where the store's first call fails.
fn answer_of_failing(alloc: Global) -> Result<Result<(), RepairFault>, Fail> {
    let (mut tree, path) = tree_of(alloc, None, Vec::new(alloc))?;
    let fail = vec![in alloc; 0u64]?;
    let mut disk = MemStore::new(alloc, 1, Vec::new(alloc), fail);
    let planned = Planned::Stored(Digest::of_bytes(b"abc"));
    repaired(alloc, &mut tree, &mut disk, &path, &planned)
}

fn is_damaged(fault: &RepairFault, at: &Digest, with: &Digest) -> bool {
    match fault {
        RepairFault::Stored(asked, Some(found)) => asked == at && found == with,
        _ => false,
    }
}

fn is_lacking(fault: &RepairFault, at: &Digest) -> bool {
    match fault {
        RepairFault::Stored(asked, None) => asked == at,
        _ => false,
    }
}

#[test]
fn what_the_store_lacks_and_calls_that_fail_are_answered(rt: HostRuntime) -> Result<(), Fail> {
    let alloc = rt.alloc();
    let abc = Digest::of_bytes(b"abc");
    let abd = Digest::of_bytes(b"abd");
    let damaged = answer_of(alloc, b"abd", &abc, Vec::new(alloc))?;
    assert!(rt; damaged.is_err_and(|fault| is_damaged(&fault, &abc, &abd)));
    let lacking = answer_of(alloc, b"abd", &abd, Vec::new(alloc))?;
    assert!(rt; lacking.is_err_and(|fault| is_lacking(&fault, &abc)));
    let failing = answer_of_failing(alloc)?;
    assert!(rt; matches!(failing, Err(RepairFault::StoreFault)));
    for call in 3..5u64 {
        let fail = vec![in alloc; call]?;
        let done = answer_of(alloc, b"abc", &abc, fail)?;
        assert!(rt; matches!(done, Err(RepairFault::Fault)), "{call}");
    }
    Ok(())
}
