// The entries of catalogs that are used.
ghost use Rattle.std.specs.Prelude.{◌≡◌, ◌<◌, ◌++◌, IfOk, OnOk, length, option_map, true};
ghost use Rattle.std.specs.List.{list_all};
ghost use Rattle.pn_text.specs.Name.{is_name};
ghost use Rattle.pn_asked.specs.Spots.{catalog_named};
ghost use Rattle.pn_graph.specs.Graphs.{in_range};
ghost use Rattle.pn_lock_make.specs.Entries.{entries_of, entry_of, use_of, used_at, uses_in, uses_of, version_at};
ghost use Rattle.pn_lock_make.specs.Names.{AreNamedEntries};

use crate::packages::name_copy;
use pn_asked::catalog_named;
use pn_graph::{At, Dep, Package, Plain, Project};
use pn_lock::LockCatalog;
use pn_spec::CatalogEntry;
use pn_text::{Memory, PkgIx, PkgName, Text};
use sqlite_items::Items;
use std::alloc::Global;

/// A dependency on a package that uses an entry, and the package's version.
#[derive(Drop)]
pub(crate) struct Use {
    pub catalog: Text,
    pub name: Text,
    pub version: Text,
}

/// The entries that the dependencies of a graph use, each with the version that the first of them leads to.
pub(crate) fn used_entries(
    alloc: Global,
    plain: &Plain,
    entries: &[CatalogEntry],
) -> Result<Items<LockCatalog>, Memory>
    ensures made { IfOk result (λ es. es ≡ entries_of (uses_of plain.now.projects plain.now.packages) entries.now) }
    ensures named { IfOk result AreNamedEntries }
{
    let uses = uses_of(alloc, plain)?;
    entries_of(alloc, &uses, entries)
}

fn uses_of(alloc: Global, plain: &Plain) -> Result<Vec<Use>, Memory>
    ensures { IfOk result (λ us. us.items ≡ uses_of plain.now.projects plain.now.packages) }
{
    let mut uses = Vec::new(alloc);
    for project in plain.projects.as_slice() {
        push_uses(alloc, plain, project.deps.as_slice(), &mut uses)?;
    }
    for package in plain.packages.as_slice() {
        push_uses(alloc, plain, package.deps.as_slice(), &mut uses)?;
    }
    Ok(uses)
}

fn push_uses(alloc: Global, plain: &Plain, deps: &[Dep], uses: &mut Vec<Use>) -> Result<(), Memory>
    requires { list_all (λ d. in_range (length plain.now.projects) (length plain.now.packages) d.to) deps.now ≡ true }
    ensures { OnOk result (uses.new.items ≡ uses.old.items ++ uses_in plain.now.packages deps.now) }
{
    for dep in deps {
        push_use(alloc, plain, dep, uses)?;
    }
    Ok(())
}

fn push_use(alloc: Global, plain: &Plain, dep: &Dep, uses: &mut Vec<Use>) -> Result<(), Memory>
    requires { in_range (length plain.now.projects) (length plain.now.packages) dep.now.to ≡ true }
    ensures { OnOk result (uses.new.items ≡ uses.old.items ++ use_of plain.now.packages dep.now.alias (catalog_named dep.now.specifier) dep.now.to) }
{
    let Some(catalog) = catalog_named(alloc, dep.specifier.as_str())? else {
        return Ok(());
    };
    match dep.to {
        At::Project(_) => Ok(()),
        At::Package(package) => {
            let one = use_at(alloc, plain, catalog, &dep.alias, package)?;
            uses.push(one)?;
            Ok(())
        }
    }
}

fn use_at(
    alloc: Global,
    plain: &Plain,
    catalog: Text,
    name: &PkgName,
    at: PkgIx,
) -> Result<Use, Memory>
    requires { at.0 < length plain.now.packages }
    ensures { IfOk result (λ u. u ≡ record { catalog = catalog; name = name.now; version = version_at plain.now.packages at.0 }) }
{
    let name = Text::of(alloc, name.as_str())?;
    let version = Text::of(alloc, plain.id(at).version_text())?;
    Ok(Use {
        catalog,
        name,
        version,
    })
}

fn entries_of(
    alloc: Global,
    uses: &[Use],
    entries: &[CatalogEntry],
) -> Result<Items<LockCatalog>, Memory>
    ensures made { IfOk result (λ es. es ≡ entries_of uses.now entries.now) }
    ensures named { IfOk result AreNamedEntries }
{
    let mut found = Items::new(alloc);
    for entry in entries {
        match used_at(uses, &entry.catalog, &entry.name) {
            Some(version) => {
                let one = entry_of(alloc, entry, version)?;
                found.push(one)?;
            }
            None => {}
        }
    }
    Ok(found)
}

fn used_at<'a>(uses: &'a [Use], catalog: &Text, name: &PkgName) -> Option<&'a Text>
    ensures { option_map (λ v. v.now) result ≡ used_at catalog.now name.now uses.now }
{
    for one in uses {
        if one.catalog.as_str() == catalog.as_str() && one.name.as_str() == name.as_str() {
            return Some(&one.version);
        }
    }
    None
}

fn entry_of(alloc: Global, entry: &CatalogEntry, version: &Text) -> Result<LockCatalog, Memory>
    ensures made { IfOk result (λ e. e ≡ record { catalog = entry.now.catalog; name = entry.now.name; specifier = entry.now.text; version = version.now }) }
    ensures named { IfOk result (λ e. is_name e.name ≡ true) }
{
    let catalog = entry.catalog.copy(alloc)?;
    let name = name_copy(alloc, &entry.name)?;
    let specifier = entry.text.copy(alloc)?;
    let version = version.copy(alloc)?;
    Ok(LockCatalog {
        catalog,
        name,
        specifier,
        version,
    })
}
