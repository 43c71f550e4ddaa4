// The managed folders with their markers.
ghost use Rattle.std.specs.Prelude.{◌≡◌, ◌++◌, ◌∷◌, [], IfOk, OnOk, codes, map, string_bytes};
ghost use Rattle.pn_text.specs.Path.{text_below};
ghost use Rattle.pn_lock.specs.Locks.{folders_of};
ghost use Rattle.pn_lock_layout.specs.Layouts.{managed_of, project_managed, store_managed};
ghost use Rattle.pn_lock_layout.specs.Placed.{HaveShort};
ghost use Rattle.pn_lock_layout.specs.Places.{folder_of};

use crate::folders::modules_in;
use pn_lock::LockImporter;
use pn_text::{AbsPath, Memory, Text};
use std::alloc::{AllocError, Global};

/// The `node_modules` of each project, whose folders these are, and the virtual store where it isn't the default one.
pub fn managed_of(
    alloc: Global,
    importers: &[LockImporter],
    root: &AbsPath,
    store: &AbsPath,
    projects: &[AbsPath],
) -> Result<Vec<(AbsPath, Text)>, Memory>
    requires short { HaveShort root.now importers.now }
    requires projects { projects.now ≡ map (folder_of root.now) (folders_of importers.now) }
    ensures { IfOk result (λ v. v.items ≡ managed_of root.now store.now importers.now) }
{
    let mut all = Vec::new(alloc);
    add_projects(alloc, importers, root, projects, &mut all)?;
    add_store(alloc, root, store, &mut all)?;
    Ok(all)
}

fn add_projects(
    alloc: Global,
    importers: &[LockImporter],
    root: &AbsPath,
    projects: &[AbsPath],
    all: &mut Vec<(AbsPath, Text)>,
) -> Result<(), Memory>
    requires short { HaveShort root.now importers.now }
    requires projects { projects.now ≡ map (folder_of root.now) (folders_of importers.now) }
    ensures { OnOk result (all.new.items ≡ all.old.items ++ map (project_managed root.now) importers.now) }
{
    let _ = root;
    for (n, importer) in importers.iter().enumerate() {
        let _ = importer;
        let modules = modules_in(alloc, &projects[n])?;
        let marker = Text::of(alloc, "pnpm-rs 1\n")?;
        let one = (modules, marker);
        all.push(one)?;
    }
    Ok(())
}

fn add_store(
    alloc: Global,
    root: &AbsPath,
    store: &AbsPath,
    all: &mut Vec<(AbsPath, Text)>,
) -> Result<(), Memory>
    ensures { OnOk result (all.new.items ≡ all.old.items ++ store_managed root.now store.now) }
{
    let name = root.as_str();
    let default = default_text(alloc, root)?;
    if store.as_str() == default.as_str() {
        return Ok(());
    }
    let text = marker_of(alloc, name)?;
    let marker = Text::of(alloc, text.as_str())?;
    let folder = store.copy(alloc)?;
    let one = (folder, marker);
    all.push(one)?;
    Ok(())
}

// The text of the default virtual store's path.
fn default_text(alloc: Global, root: &AbsPath) -> Result<String, AllocError>
    ensures { IfOk result (λ t. string_bytes t ≡ text_below root.now ++ codes "/node_modules/.pnpm") }
{
    let mut text = String::from_str(alloc, root.stem())?;
    text.push_str("/node_modules/.pnpm")?;
    Ok(text)
}

// A marker that names a root.
fn marker_of(alloc: Global, root: &str) -> Result<String, AllocError>
    ensures { IfOk result (λ t. string_bytes t ≡ codes "pnpm-rs 1" ++ 32 ∷ (root.now ++ 10 ∷ [])) }
{
    let mut text = String::from_str(alloc, "pnpm-rs 1 ")?;
    text.push_str(root)?;
    text.push_str("\n")?;
    Ok(text)
}
