// What runs leave in a store, also beside another installer.

use crate::fixtures::{A, B, PROJECT, fill, run_on, shown};
use pn_digest::{Digest, Integrity};
use pn_fs::{SureFs, SureSink};
use pn_memstore::{MemStore, SureStore};
use pn_store::has;
use pn_storecore::{Bytes, Place, StoreDisk, StoreStep};
use std::alloc::Global;
use std::test::Fail;

// A run's status, and how many files, listings and numbers it left in the store.
#[derive(Drop)]
struct Outcome {
    code: u8,
    files: usize,
    listings: usize,
    numbers: Vec<u32>,
}

fn install<D: StoreDisk>(alloc: Global, store: &mut D) -> Result<Outcome, Fail> {
    let mut project = SureFs::new(alloc);
    fill(alloc, &mut project, PROJECT)?;
    let mut registry = SureFs::new(alloc);
    fill(alloc, &mut registry, A)?;
    fill(alloc, &mut registry, B)?;
    let code = install_in(alloc, &mut project, &mut registry, store)?;
    left(store, code)
}

fn install_in<D: StoreDisk>(
    alloc: Global,
    project: &mut SureFs,
    registry: &mut SureFs,
    store: &mut D,
) -> Result<u8, Fail> {
    let mut out = SureSink::new(alloc);
    let mut err = SureSink::new(alloc);
    run_on(
        alloc, "/w", "install", project, registry, store, &mut out, &mut err,
    )
}

// What the store has.
fn left<D: StoreDisk>(store: &mut D, code: u8) -> Result<Outcome, Fail> {
    let files = store.list(Place::Files)?.len();
    let listings = store.list(Place::Listings)?.len();
    let numbers = store.numbers()?;
    Ok(Outcome {
        code,
        files,
        listings,
        numbers,
    })
}

// The files of a package, by their paths.
const OF_A: [(&str, &str); 2] = [
    ("index.js", "first"),
    (
        "package.json",
        r#"{"name":"a","version":"1.0.0","dependencies":{"b":"1.0.0"}}"#,
    ),
];

const OF_B: [(&str, &str); 2] = [
    ("index.js", "second"),
    ("package.json", r#"{"name":"b","version":"1.0.0"}"#),
];

// The integrities of both listings, computed by another program.
const LISTING_A: &str =
    "sha512-wpA1+VAXi52uesqw3Uw36fX4/JHtQeDyv11nmeqmMFlyRf379Kbnt0f4WfjY5Ua4gEzJqNGAS5pvoppp5a5Z/Q==";

const LISTING_B: &str =
    "sha512-R4jg24RQ3WMzAz//2rZZPTmqtoTmrF6809DkS875qzCsbZd+hcAeWFW9mztFARvm2QBu9IVDQp236eSQf2pq4w==";

#[test]
fn each_package_is_in_the_store(rt: HostRuntime) -> Result<(), Fail> {
    let alloc = rt.alloc();
    let mut store = SureStore::new(alloc, 1);
    let left = install(alloc, &mut store)?;
    assert_eq!(rt; left.code, 0);
    assert_eq!(rt; left.files, 4);
    assert_eq!(rt; left.listings, 2);
    assert_eq!(rt; left.numbers.len(), 0);
    for text in [LISTING_A, LISTING_B] {
        let Some(at) = Integrity::read(text) else {
            return Err(Fail::from("no integrity"));
        };
        assert!(rt; has(&mut store, &at)?);
    }
    Ok(())
}

// What another installer does to put these files and their listing.
fn put_package(
    alloc: Global,
    steps: &mut Vec<StoreStep>,
    files: &[(&str, &str)],
) -> Result<(), Fail> {
    let mut text = Vec::new(alloc);
    for (path, bytes) in files {
        put_bytes(alloc, steps, Place::Files, bytes.as_bytes())?;
        let hex = Digest::of_bytes(bytes.as_bytes()).hex(alloc)?;
        let hex = hex.as_str();
        let line = format!(in alloc; "{hex} {path}\n")?;
        text.extend_from_slice(line.as_bytes())?;
    }
    put_bytes(alloc, steps, Place::Listings, text.as_slice())
}

fn put_bytes(
    alloc: Global,
    steps: &mut Vec<StoreStep>,
    place: Place,
    bytes: &[u8],
) -> Result<(), Fail> {
    let at = Digest::of_bytes(bytes);
    let first = at.as_bytes()[0];
    steps.push(StoreStep::Create(0, 0))?;
    steps.push(StoreStep::Append(0, 0, Bytes::of(alloc, bytes)?))?;
    steps.push(StoreStep::Shard(place, first))?;
    match place {
        Place::Files => steps.push(StoreStep::PublishFile(0, 0, at))?,
        Place::Listings => steps.push(StoreStep::PublishListing(0, 0, at))?,
    }
    Ok(())
}

// A store that installer 2 uses too: it makes the first steps of such an install, one at each `apart`-th call.
fn shared(alloc: Global, count: usize, apart: u64) -> Result<MemStore, Fail> {
    let mut steps = Vec::new(alloc);
    steps.push(StoreStep::Claim(0))?;
    put_package(alloc, &mut steps, &OF_A)?;
    put_package(alloc, &mut steps, &OF_B)?;
    steps.push(StoreStep::DropTemp(0, None))?;
    let mut others = Vec::new(alloc);
    let mut call = 0u64;
    for step in steps.into_iter().take(count) {
        others.push((call, 2, step))?;
        call = call.saturating_add(apart);
    }
    Ok(MemStore::new(alloc, 1, others, Vec::new(alloc)))
}

// A run over a store whose k-th call fails: the status, whether the managed folder stands, and the status of a second run.
fn with_fault(alloc: Global, k: u64) -> Result<(u8, bool, u8), Fail> {
    let mut project = SureFs::new(alloc);
    fill(alloc, &mut project, PROJECT)?;
    let mut registry = SureFs::new(alloc);
    fill(alloc, &mut registry, A)?;
    fill(alloc, &mut registry, B)?;
    let mut store = MemStore::new(alloc, 1, Vec::new(alloc), vec![in alloc; k]?);
    let code = install_in(alloc, &mut project, &mut registry, &mut store)?;
    let found = shown(alloc, &mut project, "/w/node_modules")?;
    let stands = found.as_str() == "a folder";
    let again = install_in(alloc, &mut project, &mut registry, &mut store)?;
    Ok((code, stands, again))
}

#[test]
fn each_failed_call_of_the_store_is_told(rt: HostRuntime) -> Result<(), Fail> {
    let alloc = rt.alloc();
    let mut fetched = 0u64;
    let mut written = 0u64;
    for k in 0..200u64 {
        match with_fault(alloc, k)? {
            (21, false, 0) => fetched = fetched.saturating_add(1),
            (21, true, 0) => written = written.saturating_add(1),
            // the call is one of the second run's, or none
            (0, true, 0 | 21) => {}
            _ => return Err(Fail::from("another status")),
        }
    }
    // the calls that put four files and two listings, and those that read four files for the tree
    assert!(rt; fetched > 30);
    assert!(rt; written > 3);
    Ok(())
}

#[test]
fn others_use_the_store_at_once(rt: HostRuntime) -> Result<(), Fail> {
    let alloc = rt.alloc();
    // all of its steps first; its steps among ours; it stops before its first listing is there
    for (count, apart, numbers) in [(26, 0, 0), (26, 1, 0), (11, 0, 1), (11, 1, 1)] {
        let mut store = shared(alloc, count, apart)?;
        let left = install(alloc, &mut store)?;
        assert_eq!(rt; left.code, 0);
        assert_eq!(rt; left.files, 4);
        assert_eq!(rt; left.listings, 2);
        assert_eq!(rt; left.numbers.len(), numbers);
    }
    Ok(())
}
