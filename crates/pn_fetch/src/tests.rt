// Packages fetched into stores in memory, beside other installers, and calls that fail.
ghost use Rattle.std.specs.Prelude.{◌≡◌, ◌≤◌, ◌++◌, ◌∷◌, [], IfOk, length, map};
ghost use Rattle.std.specs.List.{All};
ghost use Rattle.pn_text.specs.Path.{path_text};
ghost use Rattle.pn_text.specs.declared.limits.TheConstants.{PATH_LIMIT};
ghost use Rattle.pn_fetch.specs.Listings.{CanList, path_of};

use super::*;
use pn_digest::{Digest, Listing};
use pn_fs::{Kind, ReadFs};
use pn_memstore::{MemStore, SureStore};
use pn_package::{Links, Package};
use pn_storecore::{Bytes, Place, StoreDisk, StoreStep};
use pn_text::{AbsPath, DevFault, PkgId, RelPath, Text, Turns, copy_piece};
use std::alloc::Global;
use std::test::Fail;

// The integrities of the listing of one file `x` with the bytes `abc`, and of that of no file.
const OF_X_AND_NONE: &str =
    "sha512-wx3df9cLmoqUBvHiZq8/LAzDW8CLQhMxXjV6InLIIB3Q6cZk+5ykqCYtzLWNzWkPdJFiFm6a4iu5Ff+ha4F9aA== sha512-z4PhNX7vuL3xVChQ1m2AB9Yg5AULVxXcg/SpIdNs6c5H0NE8XYXysP+DGNKHfuwvY7kxvUdBeoGlODJ6+SfaPg== ";

// The same of files `a`, `b` and `c/d` of 0, 65,536 and 65,537 times the byte `a`, and of no file.
const OF_SIZES_AND_NONE: &str =
    "sha512-KfQ1uaZXmfwJ0sglLJ2kHcWrNq4TeVqckd8+76AN3mmf1njRerlngbnRTHlISCU0n3ftOUHDQwr3z662iM0QoQ== sha512-z4PhNX7vuL3xVChQ1m2AB9Yg5AULVxXcg/SpIdNs6c5H0NE8XYXysP+DGNKHfuwvY7kxvUdBeoGlODJ6+SfaPg== ";

// A registry that tells no tree, and whose calls with given numbers fail.
#[derive(Drop)]
struct Shelf {
    files: Vec<(AbsPath, Vec<u8>)>,
    turns: Turns,
}

impl Shelf {
    // The bytes of a file.
    fn bytes(&self, path: &AbsPath) -> Option<&[u8]> {
        for file in self.files.as_slice() {
            if file.0.is(path) {
                return Some(file.1.as_slice());
            }
        }
        None
    }
}

impl ReadFs for Shelf {
    ghost use Rattle.std.specs.Prelude.{None, []};
    ghost use Rattle.pn_text.proofs.Results.{for_some};
    ghost use Rattle.pn_fs.specs.Tree.{IsTree, IsFinite};

    ghost seen = { λ s. record { tree = None; touched = []; faults = s.turns.faults; bytes = 0; names = 0 } };

    ghost well_formed = { λ _ t told. for_some IsTree None tt t told };

    ghost finite = { λ _ t told. for_some IsFinite None tt t told };

    fn kind(&mut self, path: &AbsPath) -> Result<Kind, DevFault> {
        self.turns.take()?;
        match self.bytes(path) {
            Some(bytes) => Ok(Kind::File(bytes.len() as u64)),
            None => Ok(Kind::Absent),
        }
    }

    fn list(&mut self, _: &AbsPath) -> Result<Vec<Text>, DevFault> {
        Err(DevFault::Memory)
    }

    fn read_piece(&mut self, path: &AbsPath, at: u64, into: &mut [u8]) -> Result<usize, DevFault> {
        self.turns.take()?;
        match self.bytes(path) {
            Some(bytes) => Ok(copy_piece(bytes, at, into)),
            None => Ok(0),
        }
    }

    fn read_link(&mut self, _: &AbsPath) -> Result<Text, DevFault> {
        Err(DevFault::Memory)
    }
}

// The paths of files, each of which has one below the folder.
fn paths(alloc: Global, folder: &AbsPath, files: &[(RelPath, Digest)]) -> Result<Vec<RelPath>, Fail>
    ensures same { IfOk result (λ v. v.items ≡ map path_of files.now) }
    ensures short { IfOk result (λ v. All (λ f. length (path_text (f ++ folder.now)) ≤ PATH_LIMIT) v.items) }
{
    let mut all = Vec::new(alloc);
    for file in files {
        let path = placed(alloc, folder, &file.0)?;
        all.push(path)?;
    }
    Ok(all)
}

fn placed(alloc: Global, folder: &AbsPath, path: &RelPath) -> Result<RelPath, Fail>
    ensures same { IfOk result (λ p. p ≡ path.now) }
    ensures short { IfOk result (λ p. length (path_text (p ++ folder.now)) ≤ PATH_LIMIT) }
{
    let at = folder.join(alloc, path)?;
    let _ = at.as_str();
    Ok(path.copy(alloc)?)
}

// The package `p@1.0.0` with files of these names.
fn packed(alloc: Global, folder: &AbsPath, names: &[&str]) -> Result<Package, Fail>
    ensures { IfOk result CanList }
{
    let listing = Listing::of_files(alloc, named(alloc, names)?)?;
    let files = paths(alloc, folder, listing.as_slice())?;
    let Some(id) = PkgId::read(alloc, "p@1.0.0")? else {
        return Err(Fail::from("no id"));
    };
    let folder = folder.copy(alloc)?;
    let none = Vec::new(alloc);
    let links = Links::of(none);
    Ok(Package {
        id,
        links,
        folder,
        files,
    })
}

fn named(alloc: Global, names: &[&str]) -> Result<Vec<(RelPath, Digest)>, Fail> {
    let mut files = Vec::new(alloc);
    for name in names {
        files.push((RelPath::read(alloc, name)?, Digest::of([0; 64])))?;
    }
    Ok(files)
}

// A registry with one package of these files, whose calls with the numbers `fail` fail, and the answer of a fetch of it.
fn fetch_files<D: StoreDisk>(
    alloc: Global,
    disk: &mut D,
    names: &[&str],
    files: Vec<(AbsPath, Vec<u8>)>,
    fail: Vec<u64>,
) -> Result<Result<Vec<Listing>, FetchFault>, Fail> {
    let folder = AbsPath::read(alloc, "/p/1.0.0")?;
    let packages = [packed(alloc, &folder, names)?, packed(alloc, &folder, &[])?];
    let mut shelf = Shelf {
        files,
        turns: Turns::new(fail),
    };
    Ok(fetch(alloc, disk, &mut shelf, &packages))
}

// The integrities of listings, each with a space behind it.
fn integrities(alloc: Global, listings: &[Listing]) -> Result<String, Fail> {
    let mut text = String::new(alloc);
    for listing in listings {
        let integrity = listing.integrity(alloc)?.print(alloc)?;
        text.push_str(integrity.as_str())?;
        text.push_str(" ")?;
    }
    Ok(text)
}

// The file `x` of the bytes `abc`.
fn x_of_abc(alloc: Global) -> Result<Vec<(AbsPath, Vec<u8>)>, Fail> {
    let bytes = Vec::from_slice(alloc, b"abc")?;
    let mut files = Vec::new(alloc);
    files.push((AbsPath::read(alloc, "/p/1.0.0/x")?, bytes))?;
    Ok(files)
}

// Nobody else; an installer that stopped behind its claim; one whose put of the same file comes between ours.
fn others(alloc: Global, schedule: usize) -> Result<Vec<(u64, u64, StoreStep)>, Fail> {
    let mut steps = Vec::new(alloc);
    if schedule == 1 {
        steps.push((0, 2, StoreStep::Claim(0)))?;
    }
    if schedule == 2 {
        let abc = Digest::of_bytes(b"abc");
        steps.push((1, 2, StoreStep::Claim(1)))?;
        steps.push((2, 2, StoreStep::Create(1, 0)))?;
        steps.push((3, 2, StoreStep::Append(1, 0, Bytes::of(alloc, b"abc")?)))?;
        steps.push((4, 2, StoreStep::Shard(Place::Files, 0xdd)))?;
        steps.push((4, 2, StoreStep::PublishFile(1, 0, abc)))?;
        steps.push((8, 2, StoreStep::DropTemp(1, None)))?;
    }
    Ok(steps)
}

#[test]
fn packages_are_fetched_beside_others(rt: HostRuntime) -> Result<(), Fail> {
    let alloc = rt.alloc();
    for (schedule, taken) in [(0, 0), (1, 1), (2, 0)] {
        let others = others(alloc, schedule)?;
        let mut disk = MemStore::new(alloc, 1, others, Vec::new(alloc));
        let files = x_of_abc(alloc)?;
        let listings = fetch_files(alloc, &mut disk, &["x"], files, Vec::new(alloc))??;
        let text = integrities(alloc, listings.as_slice())?;
        assert_eq!(rt; text.as_str(), OF_X_AND_NONE);
        assert_eq!(rt; disk.list(Place::Files)?.len(), 1);
        assert_eq!(rt; disk.list(Place::Listings)?.len(), 2);
        assert_eq!(rt; disk.numbers()?.len(), taken);
    }
    Ok(())
}

#[test]
fn files_of_a_piece_and_more_are_fetched(rt: HostRuntime) -> Result<(), Fail> {
    let alloc = rt.alloc();
    let mut files = Vec::new(alloc);
    for (path, count) in [
        ("/p/1.0.0/a", 0),
        ("/p/1.0.0/b", 65_536),
        ("/p/1.0.0/c/d", 65_537),
    ] {
        let bytes = vec![in alloc; b'a'; count]?;
        files.push((AbsPath::read(alloc, path)?, bytes))?;
    }
    let mut disk = SureStore::new(alloc, 1);
    let names = ["a", "b", "c/d"];
    let listings = fetch_files(alloc, &mut disk, &names, files, Vec::new(alloc))??;
    let text = integrities(alloc, listings.as_slice())?;
    assert_eq!(rt; text.as_str(), OF_SIZES_AND_NONE);
    Ok(())
}

// The fetch makes 19 calls of the store: claim; drop, create, append, read, shard, publish of the file; drop, create,
// append, shard, publish of each of two listings; and two drops. Of the registry it makes three: kind, and two pieces.
#[test]
fn each_failing_call_is_answered(rt: HostRuntime) -> Result<(), Fail> {
    let alloc = rt.alloc();
    for call in 0..20u64 {
        let mut disk = MemStore::new(alloc, 1, Vec::new(alloc), vec![in alloc; call]?);
        let files = x_of_abc(alloc)?;
        let done = fetch_files(alloc, &mut disk, &["x"], files, Vec::new(alloc))?;
        assert_eq!(rt;
            matches!(done, Err(FetchFault::StoreFault)),
            call < 19,
            "{call}"
        );
        assert_eq!(rt; done.is_ok(), call == 19, "{call}");
    }
    for call in 0..4u64 {
        let mut disk = SureStore::new(alloc, 1);
        let files = x_of_abc(alloc)?;
        let done = fetch_files(alloc, &mut disk, &["x"], files, vec![in alloc; call]?)?;
        assert_eq!(rt;
            matches!(done, Err(FetchFault::RegistryFault)),
            call < 3,
            "{call}"
        );
        assert_eq!(rt; done.is_ok(), call == 3, "{call}");
        assert_eq!(rt; disk.numbers()?.len(), 0);
    }
    Ok(())
}
