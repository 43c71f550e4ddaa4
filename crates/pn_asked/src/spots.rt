// Entries of catalogs, by catalog and name.
ghost use Rattle.std.specs.Prelude.{◌≡◌, IfOk, option_map, if◌then◌else◌, Some};
ghost use Rattle.pn_asked.specs.Spots.{asked_at, catalog_named, catalog_of, fits_at, is_at, lesser_spot, locked_at, spot_below};

use pn_lock::LockCatalog;
use pn_spec::{CatalogEntry, Spec, SpecFault};
use pn_text::{Memory, PkgName, Text};
use std::alloc::Global;
use std::cmp::Ordering;

/// An entry of a catalog.
#[derive(Drop)]
pub struct Spot {
    pub catalog: Text,
    pub name: Text,
}

/// The catalog that a specifier names.
pub fn catalog_named(alloc: Global, specifier: &str) -> Result<Option<Text>, Memory>
    ensures { IfOk result (λ c. c ≡ catalog_named specifier.now) }
{
    match Spec::read(alloc, specifier) {
        Ok(spec) => Ok(catalog_of(spec)),
        Err(SpecFault::Unsupported) => Ok(None),
        Err(SpecFault::Memory) => Err(Memory),
    }
}

fn catalog_of(spec: Spec) -> Option<Text>
    ensures { result ≡ catalog_of spec }
{
    match spec {
        Spec::Catalog(catalog) => Some(catalog),
        Spec::Range(_) => None,
        Spec::Tag(_) => None,
        Spec::Alias(_, _) => None,
        Spec::Workspace(_) => None,
    }
}

// Whether an entry stands under this catalog and name.
fn is_at(spot: &Spot, catalog: &Text, name: &PkgName) -> bool
    ensures { result ≡ is_at spot.now catalog.now name.now }
{
    spot.catalog.as_str() == catalog.as_str() && spot.name.as_str() == name.as_str()
}

fn locked_at<'a>(spot: &Spot, entries: &'a [LockCatalog]) -> Option<&'a str>
    ensures { option_map (λ t. t.now) result ≡ locked_at spot.now entries.now }
{
    for entry in entries {
        if is_at(spot, &entry.catalog, &entry.name) {
            return Some(entry.specifier.as_str());
        }
    }
    None
}

fn asked_at<'a>(spot: &Spot, entries: &'a [CatalogEntry]) -> Option<&'a str>
    ensures { option_map (λ t. t.now) result ≡ asked_at spot.now entries.now }
{
    for entry in entries {
        if is_at(spot, &entry.catalog, &entry.name) {
            return Some(entry.text.as_str());
        }
    }
    None
}

/// Whether both sides have the entry, with one specifier.
pub(crate) fn fits_at(locked: &[LockCatalog], asked: &[CatalogEntry], spot: &Spot) -> bool
    ensures { result ≡ fits_at locked.now asked.now spot.now }
{
    match (locked_at(spot, locked), asked_at(spot, asked)) {
        (Some(a), Some(b)) => a == b,
        (Some(_), None) => false,
        (None, _) => false,
    }
}

fn is_below(a: &Spot, b: &Spot) -> bool
    ensures { result ≡ spot_below a.now b.now }
{
    if a.catalog.as_str().cmp(b.catalog.as_str()) == Ordering::Less {
        return true;
    }
    if a.catalog.as_str() != b.catalog.as_str() {
        return false;
    }
    a.name.as_str().cmp(b.name.as_str()) == Ordering::Less
}

/// Of two entries the one that is before the other.
pub(crate) fn lesser_spot(a: Option<Spot>, b: Spot) -> Option<Spot>
    ensures { result ≡ lesser_spot a (Some b) }
{
    match a {
        None => Some(b),
        Some(a) => Some(before(a, b)),
    }
}

fn before(a: Spot, b: Spot) -> Spot
    ensures { result ≡ (if spot_below b a then b else a) }
{
    if is_below(&b, &a) {
        return b;
    }
    a
}
