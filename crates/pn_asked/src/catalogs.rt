// The catalogs of both sides.
ghost use Rattle.std.specs.Prelude.{◌≡◌, IfOk, None, Some, if◌then◌else◌};
ghost use Rattle.pn_asked.specs.Spots.{fits_at, least_spot, lesser_spot, locked_spots, project_spots, spots_in, worst_spot};

use crate::spots::{Spot, catalog_named, fits_at, lesser_spot};
use pn_lock::{LockCatalog, LockDependency, LockImporter};
use pn_spec::CatalogEntry;
use pn_text::{Memory, PkgName, Text};
use std::alloc::Global;

/// The least entry, of those that the lock has and those that its specifiers name, that isn't the same on both sides.
pub(crate) fn worst_spot(
    alloc: Global,
    locked: &[LockCatalog],
    importers: &[LockImporter],
    asked: &[CatalogEntry],
) -> Result<Option<Spot>, Memory>
    ensures { IfOk result (λ s. s ≡ worst_spot locked.now importers.now asked.now) }
{
    let mut best = worst_locked(alloc, locked, asked)?;
    for importer in importers {
        best = worst_in(alloc, locked, asked, importer, best)?;
    }
    Ok(best)
}

// The same of the entries that a project's specifiers name, where one was found before.
fn worst_in(
    alloc: Global,
    locked: &[LockCatalog],
    asked: &[CatalogEntry],
    importer: &LockImporter,
    found: Option<Spot>,
) -> Result<Option<Spot>, Memory>
    ensures { IfOk result (λ s. s ≡ least_spot (fits_at locked.now asked.now) found (project_spots importer.now)) }
{
    let first = worst_named(
        alloc,
        locked,
        asked,
        importer.dependencies.as_slice(),
        found,
    )?;
    let second = worst_named(alloc, locked, asked, importer.dev.as_slice(), first)?;
    worst_named(alloc, locked, asked, importer.optional.as_slice(), second)
}

fn worst_locked(
    alloc: Global,
    locked: &[LockCatalog],
    asked: &[CatalogEntry],
) -> Result<Option<Spot>, Memory>
    ensures { IfOk result (λ s. s ≡ least_spot (fits_at locked.now asked.now) None (locked_spots locked.now)) }
{
    let mut best = None;
    for entry in locked {
        best = worse(alloc, locked, asked, &entry.catalog, &entry.name, best)?;
    }
    Ok(best)
}

// The same of the entries that specifiers name, where one was found before.
fn worst_named(
    alloc: Global,
    locked: &[LockCatalog],
    asked: &[CatalogEntry],
    dependencies: &[LockDependency],
    found: Option<Spot>,
) -> Result<Option<Spot>, Memory>
    ensures { IfOk result (λ s. s ≡ least_spot (fits_at locked.now asked.now) found (spots_in dependencies.now)) }
{
    let mut best = found;
    for dependency in dependencies {
        if let Some(catalog) = catalog_named(alloc, dependency.specifier.as_str())? {
            best = worse(alloc, locked, asked, &catalog, &dependency.alias, best)?;
        }
    }
    Ok(best)
}

// The lesser of an entry, where it isn't the same on both sides, and of one that was found before.
fn worse(
    alloc: Global,
    locked: &[LockCatalog],
    asked: &[CatalogEntry],
    catalog: &Text,
    name: &PkgName,
    found: Option<Spot>,
) -> Result<Option<Spot>, Memory>
    ensures { IfOk result (λ s. s ≡ lesser_spot found (if fits_at locked.now asked.now (record { catalog = catalog.now; name = name.now }) then None else Some (record { catalog = catalog.now; name = name.now }))) }
{
    let spot = Spot {
        catalog: catalog.copy(alloc)?,
        name: Text::of(alloc, name.as_str())?,
    };
    if fits_at(locked, asked, &spot) {
        return Ok(found);
    }
    Ok(lesser_spot(found, spot))
}
