// The files of packages.
ghost use Rattle.std.specs.Prelude.{◌≡◌, ◌<◌, IfOk, IfSome, length, true};
ghost use Rattle.pn_lock.specs.Kept.{is_in};
ghost use Rattle.pn_lock.specs.Locks.{ids_of, place_of};
ghost use Rattle.pn_lock_layout.specs.Layouts.{files_of};

use pn_digest::{Listing, ListingFault};
use pn_lock::LockPackage;
use pn_text::Memory;
use std::alloc::Global;

/// The listing of the package with an id.
pub fn files_of(
    alloc: Global,
    packages: &[LockPackage],
    listings: &[Listing],
    id: &str,
) -> Result<Listing, Memory>
    requires among { is_in (ids_of packages.now) id.now ≡ true }
    requires count { length listings.now ≡ length packages.now }
    ensures { IfOk result (λ l. l ≡ files_of (ids_of packages.now) listings.now id.now) }
{
    match place_of(packages, id) {
        Some(n) => copied(alloc, &listings[n]),
        None => unreachable!(),
    }
}

fn place_of(packages: &[LockPackage], id: &str) -> Option<usize>
    ensures place { result ≡ place_of id.now (ids_of packages.now) }
    ensures within { IfSome result (λ n. n < length packages.now) }
{
    for (n, package) in packages.iter().enumerate() {
        if package.id.as_str() == id {
            return Some(n);
        }
    }
    None
}

// An equal listing: the one that has its text. That its files make a listing is known from `as_slice`.
fn copied(alloc: Global, listing: &Listing) -> Result<Listing, Memory>
    ensures { IfOk result (λ l. l ≡ listing.now) }
{
    let _ = listing.as_slice();
    let text = listing.print(alloc)?;
    match Listing::read(alloc, text.as_slice()) {
        Ok(copy) => Ok(copy),
        Err(ListingFault::Memory) => Err(Memory),
        Err(ListingFault::NotListing) => unreachable!(),
        Err(ListingFault::BadPath(_)) => unreachable!(),
        Err(ListingFault::Twice(_)) => unreachable!(),
    }
}
