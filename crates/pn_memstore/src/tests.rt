// Two installers on one store, and calls that fail.
ghost use Rattle.std.specs.Prelude.{◌≤◌, length};
ghost use Rattle.pn_text.specs.declared.limits.TheConstants.{FILE_LIMIT};

use crate::puts::put;
use crate::{MemStore, SureStore};
use pn_digest::Digest;
use pn_storecore::{Bytes, Discard, Place, StoreDisk, StoreStep};
use pn_text::{DevFault, Memory};
use std::alloc::Global;
use std::test::Fail;

// The text of the listing of one file `x` with the bytes `abc`.
const LISTING: &[u8] =
    b"ddaf35a193617abacc417349ae20413112e6fa4e89a97ea20a9eeee64b55d39a2192992a274fc1a836ba3c23a3feebbd454d4423643ce80e2a9ac94fa54ca49f x\n";

// Bytes that no other installer puts, and the text of the listing of one file `x` with them.
const OURS: &[u8] = b"xyz";

const OUR_LISTING: &[u8] =
    b"4a3ed8147e37876adc8f76328e5abcc1b470e6acfc18efea0135f983604953a58e183c1a6086e91ba3e821d926f5fdeb37761c7ca0328a963f5e92870675b728 x\n";

// No step is skipped, or no call fails.
const NONE: u64 = 99;

fn plain_step(i: u64) -> StoreStep {
    match i {
        0 => StoreStep::Claim(0),
        1 => StoreStep::Create(0, 3),
        4 => StoreStep::Shard(Place::Files, 0xdd),
        5 => StoreStep::PublishFile(0, 3, Digest::of_bytes(b"abc")),
        6 => StoreStep::Create(0, 4),
        8 => StoreStep::Shard(Place::Listings, Digest::of_bytes(LISTING).as_bytes()[0]),
        9 => StoreStep::PublishListing(0, 4, Digest::of_bytes(LISTING)),
        _ => StoreStep::DropTemp(0, None),
    }
}

fn append(alloc: Global, n: u32, more: &[u8]) -> Result<StoreStep, Memory> {
    let more = Bytes::of(alloc, more)?;
    Ok(StoreStep::Append(0, n, more))
}

// What an installer does, step by step, that puts a file and its listing into the store.
fn step_at(alloc: Global, i: u64) -> Result<StoreStep, Memory> {
    match i {
        2 => append(alloc, 3, b"ab"),
        3 => append(alloc, 3, b"c"),
        7 => append(alloc, 4, LISTING),
        _ => Ok(plain_step(i)),
    }
}

// Steps of installer 2, but for one of them, each so many calls after the last.
fn steps(
    alloc: Global,
    first: u64,
    end: u64,
    skipped: u64,
    apart: u64,
) -> Result<Vec<(u64, u64, StoreStep)>, Memory> {
    let mut others = Vec::new(alloc);
    for i in first..end {
        if i != skipped {
            let step = step_at(alloc, i)?;
            others.push((i.saturating_mul(apart), 2, step))?;
        }
    }
    Ok(others)
}

// A store where installer 2 makes these steps, and one call fails.
fn beside(
    alloc: Global,
    others: Vec<(u64, u64, StoreStep)>,
    failing: u64,
) -> Result<MemStore, Memory> {
    let mut fail = Vec::new(alloc);
    fail.push(failing)?;
    Ok(MemStore::new(alloc, 1, others, fail))
}

// Whether these bytes stand whole at their address.
fn reads_back<D: StoreDisk>(disk: &mut D, place: Place, bytes: &[u8]) -> Result<bool, DevFault> {
    let mut into = [0u8; 200];
    let found = disk.read(place, &Digest::of_bytes(bytes), 0, &mut into)?;
    Ok(found == Some(bytes.len()) && into.as_slice().starts_with(bytes))
}

// How many files and listings stand, and how many numbers are claimed.
fn counts<D: StoreDisk>(disk: &mut D) -> Result<(usize, usize, usize), DevFault> {
    let files = disk.list(Place::Files)?;
    let listings = disk.list(Place::Listings)?;
    let numbers = disk.numbers()?;
    Ok((files.len(), listings.len(), numbers.len()))
}

// The bytes that the other installer puts, or some of our own.
fn bytes_of(same: bool) -> &'static [u8]
    ensures { length result.now ≤ FILE_LIMIT }
{
    if same { b"abc" } else { OURS }
}

// The text of the listing with them.
fn text_of(same: bool) -> &'static [u8] {
    if same { LISTING } else { OUR_LISTING }
}

// Whether the file stands, the other installer's, and the listing with this text.
fn stand(disk: &mut MemStore, bytes: &[u8], text: &[u8]) -> Result<(bool, bool, bool), DevFault> {
    let ours = reads_back(disk, Place::Files, bytes)?;
    let theirs = reads_back(disk, Place::Files, b"abc")?;
    let listing = reads_back(disk, Place::Listings, text)?;
    Ok((ours, theirs, listing))
}

// Puts these bytes by each of the first numbers, of which all but the last are taken.
fn put_by(
    alloc: Global,
    disk: &mut MemStore,
    numbers: u32,
    bytes: &[u8],
) -> Result<Result<bool, DevFault>, Fail>
    requires { length bytes.now ≤ FILE_LIMIT }
{
    let mut done = Ok(false);
    for k in 0..numbers {
        done = put(alloc, disk, k, bytes)?;
    }
    Ok(done)
}

// The other installer ends first, or takes turns with ours, or stops before its listing. It has the
// number 0 in the last two, and in the last one keeps it. Ours puts the same, or something else.
#[test]
fn what_ours_put_stands_beside_another_installer(rt: HostRuntime) -> Result<(), Fail> {
    let alloc = rt.alloc();
    for (end, apart, numbers, same, left) in [
        (11, 0, 1, true, (1, 1, 0)),
        (11, 0, 1, false, (2, 2, 0)),
        (11, 1, 2, true, (1, 1, 0)),
        (11, 1, 2, false, (2, 2, 0)),
        (9, 0, 2, true, (1, 1, 1)),
        (9, 0, 2, false, (2, 1, 1)),
    ] {
        let (bytes, text) = (bytes_of(same), text_of(same));
        let mut disk = beside(alloc, steps(alloc, 0, end, NONE, apart)?, NONE)?;
        assert_eq!(rt; put_by(alloc, &mut disk, numbers, bytes)?, Ok(true));
        assert_eq!(rt; stand(&mut disk, bytes, text)?, (true, true, true));
        assert_eq!(rt; counts(&mut disk)?, left);
    }
    Ok(())
}

// Of such a put each call fails once. What was published before it is read back: the file from the
// seventh call on, and the listing from the fifteenth.
#[test]
fn what_ours_published_is_read_back_after_each_call(rt: HostRuntime) -> Result<(), Fail> {
    let alloc = rt.alloc();
    for (end, apart, numbers) in [(11, 0, 1u32), (11, 1, 2), (9, 0, 2)] {
        for call in 0..15u64 {
            let others = steps(alloc, 0, end, NONE, apart)?;
            let mut disk = beside(alloc, others, u64::from(numbers) + call - 1)?;
            assert_eq!(rt;
                put_by(alloc, &mut disk, numbers, OURS)?,
                Err(DevFault::Failed)
            );
            let (ours, _, listing) = stand(&mut disk, OURS, OUR_LISTING)?;
            assert_eq!(rt; (ours, listing), (call > 5, call > 13));
        }
    }
    Ok(())
}

// Each call of a put that is alone fails once: claim, create, two appends, shard, publish, read, list,
// numbers, the same of the listing, and the drop. What stands then is what the calls before it made.
#[test]
fn a_listed_call_fails_and_makes_no_step(rt: HostRuntime) -> Result<(), Fail> {
    let alloc = rt.alloc();
    for (first, last, left) in [
        (0, 0, (0, 0, 0)),
        (1, 5, (0, 0, 1)),
        (6, 13, (1, 0, 1)),
        (14, 14, (1, 1, 1)),
    ] {
        for call in first..=last {
            let mut disk = beside(alloc, Vec::new(alloc), call)?;
            assert_eq!(rt; put(alloc, &mut disk, 0, b"abc")?, Err(DevFault::Failed));
            assert_eq!(rt; counts(&mut disk)?, left);
        }
    }
    Ok(())
}

// Whether these numbers are claimed; none where the call fails.
fn are_claimed(disk: &mut MemStore, numbers: &[u32]) -> bool {
    match disk.numbers() {
        Ok(claimed) => claimed.as_slice() == numbers,
        Err(_) => numbers.is_empty(),
    }
}

// An entry comes before its call, also one that stands behind others for later calls, and of two for one call
// the first one in the list comes first. One by our installer doesn't come. A call that fails comes after its entries.
#[test]
fn entries_come_before_their_calls(rt: HostRuntime) -> Result<(), Fail> {
    let alloc = rt.alloc();
    let mut others = Vec::new(alloc);
    for (call, who, k) in [
        (3, 2, 2),
        (0, 2, 0),
        (0, 1, 5),
        (9, 2, 4),
        (0, 2, 1),
        (1, 2, 3),
    ] {
        others.push((call, who, StoreStep::Claim(k)))?;
    }
    others.push((4, 2, StoreStep::DropTemp(8, None)))?;
    others.push((4, 2, StoreStep::Claim(8)))?;
    let mut disk = beside(alloc, others, 3)?;
    let claimed: [&[u32]; 5] = [&[0, 1], &[0, 1, 3], &[0, 1, 3], &[], &[0, 1, 2, 3, 8]];
    for numbers in claimed {
        assert!(rt; are_claimed(&mut disk, numbers));
    }
    Ok(())
}

// A whole put, one without its last piece, one without a claim, and one that stops before its listing.
#[test]
fn what_is_not_lawful_is_passed_over(rt: HostRuntime) -> Result<(), Fail> {
    let alloc = rt.alloc();
    for (first, end, skipped, left) in [
        (0, 11, NONE, (1, 1, 0)),
        (0, 11, 3, (0, 0, 1)),
        (1, 11, NONE, (0, 0, 0)),
        (0, 9, NONE, (1, 0, 1)),
    ] {
        let mut disk = beside(alloc, steps(alloc, first, end, skipped, 0)?, NONE)?;
        assert_eq!(rt; counts(&mut disk)?, left);
    }
    Ok(())
}

// How many bytes of the file are read from a place on, where there is room for two.
fn read_from<D: StoreDisk>(disk: &mut D, from: u64) -> Result<Option<usize>, DevFault> {
    let mut into = [0u8; 2];
    disk.read(Place::Files, &Digest::of_bytes(b"abc"), from, &mut into)
}

#[test]
fn a_store_that_never_fails_holds_what_was_put(rt: HostRuntime) -> Result<(), Fail> {
    let alloc = rt.alloc();
    let mut disk = SureStore::new(alloc, 7);
    assert_eq!(rt; put(alloc, &mut disk, 4, b"abc")?, Ok(true));
    for (from, found) in [(0, Some(2)), (2, Some(1)), (3, Some(0))] {
        assert_eq!(rt; read_from(&mut disk, from)?, found);
    }
    disk.claim(2)?;
    for (what, left) in [
        (Discard::Temp(4), (1, 1, 1)),
        (Discard::Temp(2), (1, 1, 0)),
        (Discard::Listing(Digest::of_bytes(LISTING)), (1, 0, 0)),
    ] {
        disk.discard(what)?;
        assert_eq!(rt; counts(&mut disk)?, left);
    }
    Ok(())
}
