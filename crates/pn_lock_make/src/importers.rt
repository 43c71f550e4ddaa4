// Projects.
ghost use Rattle.std.specs.Prelude.{◌≡◌, IfOk, length, true};
ghost use Rattle.std.specs.List.{All};
ghost use Rattle.pn_text.specs.Name.{is_name};
ghost use Rattle.pn_lock_make.specs.Importers.{dependencies_of, importer_of, importers_from};
ghost use Rattle.pn_lock_make.specs.Names.{AreNamed, IsNamedImporter};
ghost use Rattle.pn_lock_make.specs.Targets.{AreRanked, IsRanked, lock_goal};

use crate::packages::name_copy;
use crate::targets::lock_goal;
use pn_asked::AskedProject;
use pn_instances::{Goal, Link, Links, goal_at};
use pn_lock::{LockDependency, LockImporter};
use pn_text::{Memory, PkgName, Text};
use sqlite_items::Items;
use std::alloc::Global;

/// The projects, each with its links.
pub(crate) fn importers(
    alloc: Global,
    ranks: &[u32],
    roots: &[Links],
    projects: &[AskedProject],
) -> Result<Items<LockImporter>, Memory>
    requires count { length projects.now ≡ length roots.now }
    requires ranked { All (AreRanked (length ranks.now)) roots.now }
    ensures made { IfOk result (λ is. is ≡ importers_from ranks.now roots.now 0 projects.now) }
    ensures named { IfOk result (λ is. All IsNamedImporter is) }
{
    let mut all = Items::new(alloc);
    for (n, project) in projects.iter().enumerate() {
        let one = importer(alloc, ranks, roots[n].as_slice(), project)?;
        all.push(one)?;
    }
    Ok(all)
}

fn importer(
    alloc: Global,
    ranks: &[u32],
    links: &[Link],
    project: &AskedProject,
) -> Result<LockImporter, Memory>
    requires { AreRanked (length ranks.now) links.now }
    ensures made { IfOk result (λ i. i ≡ importer_of ranks.now links.now project.now) }
    ensures named { IfOk result IsNamedImporter }
{
    let folder = project.folder.copy(alloc)?;
    let dependencies = dependencies_of(alloc, ranks, links, project.dependencies.as_slice())?;
    let dev = dependencies_of(alloc, ranks, links, project.dev.as_slice())?;
    let optional = dependencies_of(alloc, ranks, links, project.optional.as_slice())?;
    Ok(LockImporter {
        folder,
        dependencies,
        dev,
        optional,
    })
}

// The names that lead somewhere.
fn dependencies_of(
    alloc: Global,
    ranks: &[u32],
    links: &[Link],
    rows: &[(PkgName, Text)],
) -> Result<Items<LockDependency>, Memory>
    requires { AreRanked (length ranks.now) links.now }
    ensures made { IfOk result (λ ds. ds ≡ dependencies_of ranks.now links.now rows.now) }
    ensures named { IfOk result AreNamed }
{
    let mut found = Items::new(alloc);
    for (name, specifier) in rows {
        match goal_at(links, name) {
            Some(to) => {
                let one = dependency(alloc, ranks, name, specifier, to)?;
                found.push(one)?;
            }
            None => {}
        }
    }
    Ok(found)
}

fn dependency(
    alloc: Global,
    ranks: &[u32],
    name: &PkgName,
    specifier: &Text,
    to: Goal,
) -> Result<LockDependency, Memory>
    requires { IsRanked (length ranks.now) to }
    ensures made { IfOk result (λ d. d ≡ record { alias = name.now; specifier = specifier.now; to = lock_goal ranks.now to }) }
    ensures named { IfOk result (λ d. is_name d.alias ≡ true) }
{
    let alias = name_copy(alloc, name)?;
    let specifier = specifier.copy(alloc)?;
    Ok(LockDependency {
        alias,
        specifier,
        to: lock_goal(ranks, to),
    })
}
