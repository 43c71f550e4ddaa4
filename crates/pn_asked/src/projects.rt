// The projects of both sides.
ghost use Rattle.std.specs.Prelude.{◌≡◌, IfOk, option_map};
ghost use Rattle.std.specs.Option.{option_copied};
ghost use Rattle.pn_asked.specs.Differences.{alias_differs, first_optional, has_alias, importer_differs, is_lost, project_at, project_differs, rows_of, specifier_differs};
ghost use Rattle.pn_asked.specs.Rows.{is_in, keys};

use crate::asked::AskedProject;
use crate::difference::Difference;
use crate::rows::{agree, first_missing, first_other, lesser, value_at};
use pn_lock::{LockDependency, LockImporter};
use pn_text::{Memory, PkgName, Text};
use std::alloc::Global;

/// The least folder that stands on one side alone.
pub(crate) fn importer_differs<'a>(
    importers: &'a [LockImporter],
    projects: &'a [AskedProject],
) -> Option<&'a str>
    ensures { option_map (λ k. k.now) result ≡ importer_differs importers.now projects.now }
{
    let locked = first_missing(importers, projects);
    let asked = first_missing(projects, importers);
    lesser(locked, asked)
}

/// The first project with a name that isn't the same on both sides, and the least such name.
pub(crate) fn specifier_differs(
    alloc: Global,
    importers: &[LockImporter],
    projects: &[AskedProject],
) -> Result<Option<Difference>, Memory>
    ensures { IfOk result (λ d. d ≡ specifier_differs importers.now projects.now) }
{
    for importer in importers {
        if let Some(alias) = alias_differs(importer, projects) {
            let found = specifier(alloc, &importer.folder, alias)?;
            return Ok(Some(found));
        }
    }
    Ok(None)
}

fn specifier(alloc: Global, folder: &Text, alias: &str) -> Result<Difference, Memory>
    ensures { IfOk result (λ d. d ≡ Difference.Specifier folder.now alias.now) }
{
    let folder = folder.copy(alloc)?;
    let alias = Text::of(alloc, alias)?;
    Ok(Difference::Specifier(folder, alias))
}

fn alias_differs<'a>(importer: &'a LockImporter, projects: &'a [AskedProject]) -> Option<&'a str>
    ensures { option_map (λ k. k.now) result ≡ alias_differs importer.now (project_at importer.now.folder projects.now) }
{
    match project_at(projects, &importer.folder) {
        Some(project) => project_differs(importer, project),
        None => None,
    }
}

fn project_at<'a>(projects: &'a [AskedProject], folder: &Text) -> Option<&'a AskedProject>
    ensures { option_copied result ≡ project_at folder.now projects.now }
{
    for project in projects {
        if project.folder.as_str() == folder.as_str() {
            return Some(project);
        }
    }
    None
}

fn project_differs<'a>(importer: &'a LockImporter, project: &'a AskedProject) -> Option<&'a str>
    ensures { option_map (λ k. k.now) result ≡ project_differs importer.now project.now }
{
    let dependencies = importer.dependencies.as_slice();
    let dev = importer.dev.as_slice();
    let optional = importer.optional.as_slice();
    let asked_dependencies = project.dependencies.as_slice();
    let asked_dev = project.dev.as_slice();
    let asked_optional = project.optional.as_slice();
    let new_optional = first_optional(importer, asked_optional);
    let new_dev = lesser(first_other(asked_dev, dev), new_optional);
    let new = lesser(first_other(asked_dependencies, dependencies), new_dev);
    let old_optional = lesser(first_other(optional, asked_optional), new);
    let old_dev = lesser(first_other(dev, asked_dev), old_optional);
    lesser(first_other(dependencies, asked_dependencies), old_dev)
}

// The first optional name that is asked, isn't the same in the lock, and is known to it.
fn first_optional<'a>(importer: &LockImporter, rows: &'a [(PkgName, Text)]) -> Option<&'a str>
    ensures { option_map (λ k. k.now) result ≡ first_optional importer.now rows.now }
{
    for (name, _) in rows {
        if is_lost(importer, rows, name.as_str()) {
            return Some(name.as_str());
        }
    }
    None
}

fn is_lost(importer: &LockImporter, rows: &[(PkgName, Text)], alias: &str) -> bool
    ensures { result ≡ is_lost importer.now rows.now alias.now }
{
    if agree(
        value_at(rows, alias),
        value_at(importer.optional.as_slice(), alias),
    ) {
        return false;
    }
    has_alias(importer, alias)
}

fn has_alias(importer: &LockImporter, alias: &str) -> bool
    ensures { result ≡ has_alias importer.now alias.now }
{
    has_name(importer.dependencies.as_slice(), alias)
        || has_name(importer.dev.as_slice(), alias)
        || has_name(importer.optional.as_slice(), alias)
}

fn has_name(dependencies: &[LockDependency], alias: &str) -> bool
    ensures { result ≡ is_in (keys (rows_of dependencies.now)) alias.now }
{
    for dependency in dependencies {
        if dependency.alias.as_str() == alias {
            return true;
        }
    }
    false
}
