// The first difference.
ghost use Rattle.std.specs.Prelude.{◌≡◌, IfOk, option_map};
ghost use Rattle.pn_lock.specs.Links.{or_else};
ghost use Rattle.pn_asked.specs.Differences.{first_of, importer_differs, override_differs, setting_differs, specifier_differs, spot_difference};
ghost use Rattle.pn_asked.specs.Spots.{worst_spot};

use crate::asked::Asked;
use crate::catalogs::worst_spot;
use crate::difference::Difference;
use crate::projects::{importer_differs, specifier_differs};
use crate::rows::{first_other, lesser};
use pn_lock::Lock;
use pn_text::{Memory, Text};
use std::alloc::Global;

/// The first difference between a lock and what is asked of it, in the order of settings, overrides, catalogs, projects and
/// specifiers; of one kind the least. None where the lock fits.
pub fn first_difference(
    alloc: Global,
    lock: &Lock,
    asked: &Asked,
) -> Result<Option<Difference>, Memory>
    ensures { IfOk result (λ d. d ≡ first_of lock.now asked.now) }
{
    if lock.auto_install_peers() != asked.auto_install_peers() {
        return Ok(Some(Difference::Setting));
    }
    if let Some(found) = override_difference(alloc, lock, asked)? {
        return Ok(Some(found));
    }
    project_difference(alloc, lock, asked)
}

fn override_difference(
    alloc: Global,
    lock: &Lock,
    asked: &Asked,
) -> Result<Option<Difference>, Memory>
    ensures { IfOk result (λ d. d ≡ option_map Difference.Override (override_differs lock.now.overrides asked.now.overrides)) }
{
    let locked = lock.overrides();
    let rows = asked.overrides();
    match lesser(first_other(locked, rows), first_other(rows, locked)) {
        Some(selector) => Ok(Some(Difference::Override(Text::of(alloc, selector)?))),
        None => Ok(None),
    }
}

fn project_difference(
    alloc: Global,
    lock: &Lock,
    asked: &Asked,
) -> Result<Option<Difference>, Memory>
    ensures { IfOk result (λ d. d ≡ or_else (option_map spot_difference (worst_spot lock.now.catalogs lock.now.importers asked.now.catalogs))
        (or_else (option_map Difference.Importer (importer_differs lock.now.importers asked.now.projects))
        (specifier_differs lock.now.importers asked.now.projects))) }
{
    let importers = lock.importers();
    let projects = asked.projects();
    if let Some(spot) = worst_spot(alloc, lock.catalogs(), importers, asked.catalogs())? {
        return Ok(Some(Difference::Catalog(spot.catalog, spot.name)));
    }
    if let Some(folder) = importer_differs(importers, projects) {
        return Ok(Some(Difference::Importer(Text::of(alloc, folder)?)));
    }
    specifier_differs(alloc, importers, projects)
}
