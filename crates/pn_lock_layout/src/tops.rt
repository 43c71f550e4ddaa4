// The links of projects, and those of hoisting.
ghost use Rattle.std.specs.Prelude.{◌≡◌, ◌≤◌, ◌++◌, ◌∷◌, IfOk, OnOk, length, map};
ghost use Rattle.std.specs.List.{flat_map};
ghost use Rattle.pn_text.specs.declared.limits.TheConstants.{PATH_LIMIT};
ghost use Rattle.pn_text.specs.Name.{modules};
ghost use Rattle.pn_text.specs.Path.{path_text};
ghost use Rattle.pn_lock.specs.Locks.{folders_of};
ghost use Rattle.pn_lock_layout.specs.Folders.{found_folder};
ghost use Rattle.pn_lock_layout.specs.Layouts.{all_dependencies, hoist_top, project_tops, top_of, tops_of};
ghost use Rattle.pn_lock_layout.specs.Placed.{HaveShort};
ghost use Rattle.pn_lock_layout.specs.Places.{folder_of};

use crate::folders::{Folders, modules_in};
use crate::hoist::Hoist;
use pn_lock::{LockDependency, LockGoal, LockImporter};
use pn_text::{AbsPath, Memory};
use pn_tree::Top;
use std::alloc::Global;

/// The links outside the instances.
pub fn tops_of(
    alloc: Global,
    importers: &[LockImporter],
    root: &AbsPath,
    folders: &Folders,
    hoisted: &[Hoist],
) -> Result<Vec<Top>, Memory>
    requires short { HaveShort root.now importers.now }
    requires folders { folders.now.importers.items ≡ map (folder_of root.now) (folders_of importers.now) }
    ensures { IfOk result (λ v. v.items ≡ tops_of (found_folder folders.now) root.now importers.now hoisted.now) }
{
    let mut all = Vec::new(alloc);
    add_projects(
        alloc,
        importers,
        root,
        folders,
        &folders.importers,
        &mut all,
    )?;
    add_hoisted(alloc, folders, hoisted, &mut all)?;
    Ok(all)
}

fn add_projects(
    alloc: Global,
    importers: &[LockImporter],
    root: &AbsPath,
    folders: &Folders,
    projects: &[AbsPath],
    all: &mut Vec<Top>,
) -> Result<(), Memory>
    requires short { HaveShort root.now importers.now }
    requires projects { projects.now ≡ map (folder_of root.now) (folders_of importers.now) }
    ensures { OnOk result (all.new.items ≡ all.old.items ++ flat_map (project_tops (found_folder folders.now) root.now) importers.now) }
{
    let _ = root;
    for (n, importer) in importers.iter().enumerate() {
        add_project(alloc, folders, &projects[n], importer, all)?;
    }
    Ok(())
}

// The links of one project, whose folder this is.
fn add_project(
    alloc: Global,
    folders: &Folders,
    folder: &AbsPath,
    importer: &LockImporter,
    all: &mut Vec<Top>,
) -> Result<(), Memory>
    requires { length (path_text (modules ∷ folder.now)) ≤ PATH_LIMIT }
    ensures { OnOk result (all.new.items ≡ all.old.items ++ map (top_of (found_folder folders.now) folder.now) (all_dependencies importer.now)) }
{
    add_dependencies(
        alloc,
        folders,
        folder,
        importer.dependencies.as_slice(),
        all,
    )?;
    add_dependencies(alloc, folders, folder, importer.dev.as_slice(), all)?;
    add_dependencies(alloc, folders, folder, importer.optional.as_slice(), all)
}

fn add_dependencies(
    alloc: Global,
    folders: &Folders,
    folder: &AbsPath,
    dependencies: &[LockDependency],
    all: &mut Vec<Top>,
) -> Result<(), Memory>
    requires { length (path_text (modules ∷ folder.now)) ≤ PATH_LIMIT }
    ensures { OnOk result (all.new.items ≡ all.old.items ++ map (top_of (found_folder folders.now) folder.now) dependencies.now) }
{
    for dependency in dependencies {
        let one = top(alloc, folders, folder, dependency)?;
        all.push(one)?;
    }
    Ok(())
}

fn top(
    alloc: Global,
    folders: &Folders,
    folder: &AbsPath,
    dependency: &LockDependency,
) -> Result<Top, Memory>
    requires { length (path_text (modules ∷ folder.now)) ≤ PATH_LIMIT }
    ensures { IfOk result (λ t. t ≡ top_of (found_folder folders.now) folder.now dependency.now) }
{
    let holder = modules_in(alloc, folder)?;
    let name = dependency.alias.copy(alloc)?;
    let to = folders.folder(alloc, dependency.to)?;
    Ok(Top { holder, name, to })
}

fn add_hoisted(
    alloc: Global,
    folders: &Folders,
    hoisted: &[Hoist],
    all: &mut Vec<Top>,
) -> Result<(), Memory>
    ensures { OnOk result (all.new.items ≡ all.old.items ++ map (hoist_top (found_folder folders.now)) hoisted.now) }
{
    for hoist in hoisted {
        let one = hoist_top(alloc, folders, hoist)?;
        all.push(one)?;
    }
    Ok(())
}

fn hoist_top(alloc: Global, folders: &Folders, hoist: &Hoist) -> Result<Top, Memory>
    ensures { IfOk result (λ t. t ≡ hoist_top (found_folder folders.now) hoist.now) }
{
    let holder = hoist.holder.copy(alloc)?;
    let name = hoist.name.copy(alloc)?;
    let to = folders.folder(alloc, LockGoal::Snapshot(hoist.to))?;
    Ok(Top { holder, name, to })
}
