// A file, put into a store with a listing of it alone.
ghost use Rattle.std.specs.Prelude.{◌≡◌, ℕ, List, IfOk};
ghost use Rattle.std.specs.List.{Contains};
ghost use Rattle.pn_digest.specs.Listing.{Entry};
ghost use Rattle.pn_store.specs.Held.{IsHeld};

use pn_digest::{Digest, Integrity, Listing};
use pn_fs::{Kind, ReadFs};
use pn_store::{Claim, claim, put_file, put_listing, release};
use pn_storecore::StoreDisk;
use pn_text::{AbsPath, RelPath};
use std::alloc::Global;

/// What was put: the digest of the file's bytes and their number, and the integrity of the listing.
#[derive(Drop)]
pub struct Stored {
    pub digest: Digest,
    pub length: u64,
    pub at: Integrity,
}

/// Puts both by a number that is claimed and released.
pub fn put<D: StoreDisk, R: ReadFs>(
    alloc: Global,
    disk: &mut D,
    tree: &mut R,
    path: &AbsPath,
) -> Result<Stored, &'static str> {
    let mut held = match claim(disk) {
        Ok(held) => held,
        Err(_) => return Err("!claim"),
    };
    let done = put_both(alloc, disk, &mut held, tree, path);
    match release(disk, held) {
        Ok(()) => done,
        Err(_) => Err("!release"),
    }
}

fn put_both<D: StoreDisk, R: ReadFs>(
    alloc: Global,
    disk: &mut D,
    held: &mut Claim,
    tree: &mut R,
    path: &AbsPath,
) -> Result<Stored, &'static str>
    requires { IsHeld (D.seen disk.old) held.old }
    ensures held { IsHeld (D.seen disk.new) held.old }
    ensures claim { held.new ≡ held.old }
{
    let Ok(Kind::File(_)) = tree.kind(path) else {
        return Err("!file");
    };
    let put = match put_file(alloc, disk, held, tree, path) {
        Ok(put) => put,
        Err(_) => return Err("!put"),
    };
    let listing = listing_of(alloc, &put.digest)?;
    match put_listing(alloc, disk, held, &listing) {
        Ok(at) => Ok(Stored {
            digest: put.digest,
            length: put.length,
            at,
        }),
        Err(_) => Err("!listing"),
    }
}

// The listing of one file `x`.
fn listing_of(alloc: Global, digest: &Digest) -> Result<Listing, &'static str>
    ensures { IfOk result (λ all. (e : Entry) → Contains all e → e.1 ≡ digest.now) }
{
    let Ok(path) = RelPath::read(alloc, "x") else {
        return Err("!memory");
    };
    let mut files = Vec::new(alloc);
    if files.push((path, digest.copy())).is_err() {
        return Err("!memory");
    }
    match Listing::of_files(alloc, files) {
        Ok(listing) => Ok(listing),
        Err(_) => Err("!memory"),
    }
}
