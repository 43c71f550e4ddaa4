// The place of the virtual store.
ghost use Rattle.std.specs.Prelude.{◌≡◌, IfOk, IfErr};
ghost use Rattle.std.specs.List.{list_any};
ghost use Rattle.pn_text.specs.Path.{same_path};
ghost use Rattle.pn_workspace.specs.Stores.{IsPlaced, NoPlace, default_store, is_in_way, is_misplaced};

use crate::fault::StoreFault;
use crate::search::Workspace;
use crate::within::{is_entry, is_named, is_within, is_within_entry};
use pn_text::{AbsPath, Memory, PathFault};
use std::alloc::Global;

/// The folder of the virtual store, for the projects of a workspace: where `virtualStoreDir` leads to from the root on. It
/// may not be named `node_modules`, be a project's folder or above one, lie in a project's `node_modules` without being
/// the default, nor at or below the root's `pnpm-lock.yaml` or a file that is written in place of a manifest or a lockfile.
pub fn virtual_store(
    alloc: Global,
    workspace: &Workspace,
    place: &AbsPath,
    projects: &[AbsPath],
) -> Result<AbsPath, StoreFault>
    ensures placed { IfOk result (IsPlaced workspace.now place.now projects.now) }
    ensures refused { IfErr result (NoPlace workspace.now place.now projects.now) }
{
    let root = &workspace.root;
    let store = match workspace.config.virtual_store(alloc, root) {
        Ok(store) => store,
        Err(PathFault::Memory) => return Err(StoreFault::Memory),
        Err(_) => return Err(StoreFault::Long),
    };
    if is_misplaced(alloc, root, place, projects, &store)? {
        return Err(StoreFault::Misplaced);
    }
    Ok(store)
}

/// Whether this is the place of the virtual store where the settings say nothing of it.
pub fn is_default_store(alloc: Global, root: &AbsPath, store: &AbsPath) -> Result<bool, Memory>
    ensures { IfOk result (λ b. b ≡ same_path store.now (default_store root.now)) }
{
    match store.parent(alloc)? {
        Some(modules) => {
            let inside = is_entry(alloc, root, "node_modules", &modules)?;
            Ok(is_named(store, ".pnpm") && inside)
        }
        None => Ok(false),
    }
}

fn is_misplaced(
    alloc: Global,
    root: &AbsPath,
    place: &AbsPath,
    projects: &[AbsPath],
    store: &AbsPath,
) -> Result<bool, Memory>
    ensures { IfOk result (λ b. b ≡ is_misplaced root.now place.now projects.now store.now) }
{
    if is_named(store, "node_modules") {
        return Ok(true);
    }
    if is_within_entry(alloc, root, "pnpm-lock.yaml", store)? {
        return Ok(true);
    }
    if is_within_entry(alloc, root, "pnpm-lock.yaml.pnpm-rs", store)? {
        return Ok(true);
    }
    if is_within_entry(alloc, place, "package.json.pnpm-rs", store)? {
        return Ok(true);
    }
    some_in_way(alloc, root, projects, store)
}

fn some_in_way(
    alloc: Global,
    root: &AbsPath,
    projects: &[AbsPath],
    store: &AbsPath,
) -> Result<bool, Memory>
    ensures { IfOk result (λ b. b ≡ list_any (is_in_way (same_path store.now (default_store root.now)) store.now) projects.now) }
{
    let is_default = is_default_store(alloc, root, store)?;
    for project in projects {
        if is_in_way(alloc, is_default, project, store)? {
            return Ok(true);
        }
    }
    Ok(false)
}

fn is_in_way(
    alloc: Global,
    is_default: bool,
    project: &AbsPath,
    store: &AbsPath,
) -> Result<bool, Memory>
    ensures { IfOk result (λ b. b ≡ is_in_way is_default store.now project.now) }
{
    if is_within(alloc, store, project)? {
        return Ok(true);
    }
    let inside = is_within_entry(alloc, project, "node_modules", store)?;
    Ok(inside && !is_default)
}
