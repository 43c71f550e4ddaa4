// Files and listings put into stores in memory, and calls that fail.
ghost use Rattle.std.specs.Prelude.{◌≡◌, ℕ, List, IfOk};
ghost use Rattle.std.specs.List.{Contains};
ghost use Rattle.pn_digest.specs.Listing.{Entry};

use super::*;
use pn_digest::{Digest, Integrity, Listing};
use pn_fs::{Body, Kind, MemFs, ReadFs, SureFs, try_make};
use pn_memstore::{MemStore, SureStore};
use pn_storecore::{Discard, Place, StoreDisk};
use pn_text::{AbsPath, DevFault, RelPath, copy_piece};
use std::alloc::Global;
use std::test::Fail;

// The integrity of the listing of one file `x` with the bytes `abc`.
const OF_X: &str =
    "sha512-wx3df9cLmoqUBvHiZq8/LAzDW8CLQhMxXjV6InLIIB3Q6cZk+5ykqCYtzLWNzWkPdJFiFm6a4iu5Ff+ha4F9aA==";

// A tree with one file of so many times the byte `a`, and its path.
fn tree_of(alloc: Global, count: usize) -> Result<(SureFs, AbsPath), Fail> {
    let mut tree = SureFs::new(alloc);
    let path = AbsPath::read(alloc, "/x")?;
    let bytes = vec![in alloc; b'a'; count]?;
    try_make(&mut tree, alloc, &path, &Body::File(bytes))?;
    Ok((tree, path))
}

// A tree with one file of the bytes `abc`, whose calls with these numbers fail.
fn tree_of_x(alloc: Global, fail: Vec<u64>) -> Result<(MemFs, AbsPath), Fail> {
    let mut tree = MemFs::new(alloc, fail);
    let path = AbsPath::read(alloc, "/x")?;
    let mut bytes = Vec::new(alloc);
    bytes.extend_from_slice(b"abc")?;
    try_make(&mut tree, alloc, &path, &Body::File(bytes))?;
    Ok((tree, path))
}

// The listing of one file `x`.
fn listing_of_x(alloc: Global, digest: &Digest) -> Result<Listing, Fail>
    ensures { IfOk result (λ all. (e : Entry) → Contains all e → e.1 ≡ digest.now) }
{
    let mut files = Vec::new(alloc);
    files.push((RelPath::read(alloc, "x")?, digest.copy()))?;
    let listing = Listing::of_files(alloc, files)?;
    Ok(listing)
}

// Puts a file, and the listing of it, by a number that is claimed and released.
fn put_x<D: StoreDisk, R: ReadFs>(
    alloc: Global,
    disk: &mut D,
    tree: &mut R,
    path: &AbsPath,
) -> Result<Result<Integrity, PutFault>, Fail> {
    let mut held = match claim(disk) {
        Ok(held) => held,
        Err(_) => return Ok(Err(PutFault::StoreFault)),
    };
    let Ok(Kind::File(_)) = tree.kind(path) else {
        return Ok(Err(PutFault::SourceFault));
    };
    let put = match put_file(alloc, disk, &mut held, tree, path) {
        Ok(put) => put,
        Err(fault) => return Ok(Err(fault)),
    };
    let listing = listing_of_x(alloc, &put.digest)?;
    let at = match put_listing(alloc, disk, &mut held, &listing) {
        Ok(at) => at,
        Err(fault) => return Ok(Err(fault)),
    };
    match release(disk, held) {
        Ok(()) => Ok(Ok(at)),
        Err(_) => Ok(Err(PutFault::StoreFault)),
    }
}

// How many bytes of a file come, where there is room for four.
fn piece_of<D: StoreDisk>(disk: &mut D, at: &Digest) -> Result<Option<usize>, ReadFault> {
    let mut into = [0u8; 4];
    read_piece(disk, at, 1, &mut into)
}

#[test]
fn a_file_and_its_listing_are_put_and_read(rt: HostRuntime) -> Result<(), Fail> {
    let alloc = rt.alloc();
    let mut disk = SureStore::new(alloc, 1);
    assert_eq!(rt; claim(&mut disk)?.number(), 0);
    assert_eq!(rt; claim(&mut disk)?.number(), 1);
    let (mut tree, path) = tree_of_x(alloc, Vec::new(alloc))?;
    let at = put_x(alloc, &mut disk, &mut tree, &path)??;
    assert_eq!(rt; at.print(alloc)?.as_str(), OF_X);
    assert!(rt; has(&mut disk, &at)?);
    let abc = Digest::of_bytes(b"abc");
    assert!(rt; !has(&mut disk, &Integrity::of(abc))?);
    assert_eq!(rt; piece_of(&mut disk, &abc)?, Some(2));
    assert_eq!(rt; piece_of(&mut disk, &at.digest())?, None);
    let listing = listing(alloc, &mut disk, &at)?;
    assert_eq!(rt; listing.map_or(0, |l| l.len()), 1);
    assert_eq!(rt; disk.numbers()?.len(), 2);
    Ok(())
}

// A put of a file and its listing makes 14 calls of the store: claim; drop, create, append, read, shard, publish; drop,
// create, append, shard, publish; and two drops. Of the source it makes four: two kinds, and two pieces.
#[test]
fn each_failing_call_is_answered(rt: HostRuntime) -> Result<(), Fail> {
    let alloc = rt.alloc();
    for call in 0..15u64 {
        let fail = vec![in alloc; call]?;
        let mut disk = MemStore::new(alloc, 1, Vec::new(alloc), fail);
        let (mut tree, path) = tree_of_x(alloc, Vec::new(alloc))?;
        let done = put_x(alloc, &mut disk, &mut tree, &path)?;
        assert_eq!(rt;
            matches!(done, Err(PutFault::StoreFault)),
            call < 14,
            "{call}"
        );
        assert_eq!(rt; done.is_ok(), call == 14, "{call}");
    }
    for call in 0..5u64 {
        let mut disk = SureStore::new(alloc, 1);
        let (mut tree, path) = tree_of_x(alloc, vec![in alloc; call + 4]?)?;
        let done = put_x(alloc, &mut disk, &mut tree, &path)?;
        assert_eq!(rt;
            matches!(done, Err(PutFault::SourceFault)),
            call < 4,
            "{call}"
        );
    }
    Ok(())
}

// The digests are of that many times the byte `a`.
#[test]
fn files_end_with_a_piece_or_behind_it(rt: HostRuntime) -> Result<(), Fail> {
    let alloc = rt.alloc();
    for (count, hex) in [
        (
            0,
            "cf83e1357eefb8bdf1542850d66d8007d620e4050b5715dc83f4a921d36ce9ce47d0d13c5d85f2b0ff8318d2877eec2f63b931bd47417a81a538327af927da3e",
        ),
        (
            65_536,
            "3d7f4d370531902d128619b9b9fb424b598b5fb11e92f44654e8bb754deed22c6cd5587482bd5d3bf506b05818848931a1e5627a542ba6aa4b7a27e003355291",
        ),
        (
            65_537,
            "8773a2d46ac7638f2fc6886c592ac41496c46ca6f8fd2a01fa7d71fb53d50f144f7bc2059c551b5825b1bcd7f7de01c00f599ca4d17b200cea3be2e6576a96aa",
        ),
    ] {
        let mut disk = SureStore::new(alloc, 1);
        let (mut tree, path) = tree_of(alloc, count)?;
        for _ in 0..2 {
            put_x(alloc, &mut disk, &mut tree, &path)??;
        }
        let files = disk.list(Place::Files)?;
        assert_eq!(rt; files.len(), 1);
        assert_eq!(rt; files[0].hex(alloc)?.as_str(), hex);
        let mut last = [0u8; 2];
        let found = read_piece(&mut disk, &files[0], 65_536, &mut last)?;
        assert_eq!(rt; found, Some(count.saturating_sub(65_536)));
    }
    Ok(())
}

// A store of one file, which may be damaged, and tells no journal.
#[derive(Drop)]
struct OneFile {
    stored: Vec<u8>,
    held: Vec<u8>,
}

impl StoreDisk for OneFile {
    ghost use Rattle.std.specs.Prelude.{None};

    ghost seen = { λ s. record { journal = None; me = 0; faults = 0 } };

    fn claim(&mut self, _: u32) -> Result<bool, DevFault> {
        Ok(true)
    }

    fn create(&mut self, _: u32, _: u32) -> Result<(), DevFault> {
        self.held.clear();
        Ok(())
    }

    fn append(&mut self, _: u32, _: u32, bytes: &[u8]) -> Result<(), DevFault> {
        self.held.extend_from_slice(bytes)?;
        Ok(())
    }

    fn shard(&mut self, _: Place, _: u8) -> Result<(), DevFault> {
        Ok(())
    }

    fn publish_file(&mut self, _: u32, _: u32, _: &Digest) -> Result<(), DevFault> {
        self.stored.clear();
        self.stored.extend_from_slice(self.held.as_slice())?;
        Ok(())
    }

    fn publish_listing(&mut self, _: u32, _: u32, _: &Digest) -> Result<(), DevFault> {
        Ok(())
    }

    fn drop_temp(&mut self, _: u32, _: Option<u32>) -> Result<(), DevFault> {
        Ok(())
    }

    fn read(
        &mut self,
        _: Place,
        _: &Digest,
        from: u64,
        into: &mut [u8],
    ) -> Result<Option<usize>, DevFault> {
        Ok(Some(copy_piece(self.stored.as_slice(), from, into)))
    }

    fn list(&mut self, _: Place) -> Result<Vec<Digest>, DevFault> {
        Err(DevFault::Memory)
    }

    fn numbers(&mut self) -> Result<Vec<u32>, DevFault> {
        Err(DevFault::Memory)
    }

    fn discard(&mut self, _: Discard) -> Result<(), DevFault> {
        Ok(())
    }
}

#[test]
fn a_damaged_file_is_replaced(rt: HostRuntime) -> Result<(), Fail> {
    let alloc = rt.alloc();
    for damaged in ["", "ab", "abd", "abcd", "abc"] {
        let mut stored = Vec::new(alloc);
        stored.extend_from_slice(damaged.as_bytes())?;
        let mut disk = OneFile {
            stored,
            held: Vec::new(alloc),
        };
        let (mut tree, path) = tree_of_x(alloc, Vec::new(alloc))?;
        put_x(alloc, &mut disk, &mut tree, &path)??;
        assert_eq!(rt; disk.stored.as_slice(), b"abc".as_slice());
    }
    let mut stored = Vec::new(alloc);
    stored.extend_from_slice(b"abd")?;
    let mut disk = OneFile {
        stored,
        held: Vec::new(alloc),
    };
    let read = listing(alloc, &mut disk, &Integrity::of(Digest::of_bytes(b"abc")));
    assert!(rt; matches!(read, Err(ReadFault::Damaged(_, _))));
    Ok(())
}
