// Node's lookup of packages.
ghost use Rattle.std.specs.Prelude.{◌≡◌, [], ◌∷◌, OnOk, IfOk, IfSome};
ghost use Rattle.pn_text.specs.Causes.{HasCause};
ghost use Rattle.pn_text.specs.Name.{name_path, modules};
ghost use Rattle.pn_fs.specs.Seen.{Keeps};
ghost use Rattle.pn_node.specs.Find.{find, into, path_steps};
ghost use Rattle.pn_node.specs.Steps.{steps_of};
ghost use Rattle.pn_node.specs.Finds.{ends_in_modules};
ghost use Rattle.pn_node.specs.Lookups.{IsFoundNear, LeadsIn, IsFolderOr};

use crate::entry::is_folder;
use crate::real_path::LINKS;
use crate::walk::Walk;
use pn_fs::ReadFs;
use pn_text::{AbsPath, DevFault, Memory, PkgName, RelPath};
use std::alloc::Global;

/// The package that a name finds from a folder that is its own real path: the real path of the name in the first
/// lookup folder where that is a folder. `Failed` comes only where the count of faults rose.
pub fn find<R: ReadFs>(
    alloc: Global,
    fs: &mut R,
    from: &AbsPath,
    name: &PkgName,
) -> Result<Option<AbsPath>, DevFault>
    ensures find { IfSome (R.seen fs.old).tree (λ t. IfOk result (λ found. found ≡ find t from.now (name_path name.now))) }
    ensures kept { Keeps (R.seen fs.old) (R.seen fs.new) }
    ensures cause { HasCause (R.seen fs.old).faults (R.seen fs.new).faults result }
{
    let name = name.as_path(alloc)?;
    let folder = from.copy(alloc)?;
    find_up(alloc, fs, folder, &name)
}

// The package that a name finds from a folder, or from those above.
fn find_up<R: ReadFs>(
    alloc: Global,
    fs: &mut R,
    mut folder: AbsPath,
    name: &RelPath,
) -> Result<Option<AbsPath>, DevFault>
    ensures find { IfSome (R.seen fs.old).tree (λ t. IfOk result (λ found. found ≡ find t folder name.now)) }
    ensures kept { Keeps (R.seen fs.old) (R.seen fs.new) }
    ensures cause { HasCause (R.seen fs.old).faults (R.seen fs.new).faults result }
{
    'folders: loop {
        if let Some(found) = find_near(alloc, fs, &folder, name)? {
            return Ok(Some(found));
        }
        match folder.parent(alloc)? {
            Some(parent) => folder = parent,
            None => return Ok(None),
        }
    }
}

// The package in a folder's own `node_modules`. A folder of that name has none.
fn find_near<R: ReadFs>(
    alloc: Global,
    fs: &mut R,
    folder: &AbsPath,
    name: &RelPath,
) -> Result<Option<AbsPath>, DevFault>
    ensures found { IfSome (R.seen fs.old).tree (λ t. IfOk result (IsFoundNear t folder.now name.now)) }
    ensures kept { Keeps (R.seen fs.old) (R.seen fs.new) }
    ensures cause { HasCause (R.seen fs.old).faults (R.seen fs.new).faults result }
{
    if is_modules(folder) {
        return Ok(None);
    }
    let walk = walk_into(alloc, fs, folder, name)?;
    match walk.finish(alloc, fs, LINKS)? {
        Some(found) => only_folder(fs, found),
        None => Ok(None),
    }
}

fn is_modules(folder: &AbsPath) -> bool
    ensures { result ≡ ends_in_modules folder.now }
{
    match folder.name() {
        Some(name) => name == "node_modules",
        None => false,
    }
}

// The walk to a name in a folder's `node_modules`. It begins at the folder where one stands there, since a folder is
// its own real path, and else at `/`.
fn walk_into<R: ReadFs>(
    alloc: Global,
    fs: &mut R,
    folder: &AbsPath,
    name: &RelPath,
) -> Result<Walk, DevFault>
    ensures leads { IfSome (R.seen fs.old).tree (λ t. IfOk result (LeadsIn t folder.now name.now)) }
    ensures kept { Keeps (R.seen fs.old) (R.seen fs.new) }
    ensures cause { HasCause (R.seen fs.old).faults (R.seen fs.new).faults result }
{
    if is_folder(fs, folder)? {
        Ok(walk_from(alloc, folder, name)?)
    } else {
        Ok(walk_down(alloc, folder, name)?)
    }
}

fn walk_from(alloc: Global, folder: &AbsPath, name: &RelPath) -> Result<Walk, Memory>
    ensures at { IfOk result (λ w. w.at ≡ folder.now) }
    ensures steps { IfOk result (λ w. steps_of w.steps.items ≡ into modules ∷ path_steps name.now []) }
{
    let mut walk = Walk::new(alloc, folder.copy(alloc)?);
    put_in_modules(alloc, &mut walk, name)?;
    Ok(walk)
}

fn walk_down(alloc: Global, folder: &AbsPath, name: &RelPath) -> Result<Walk, Memory>
    ensures at { IfOk result (λ w. w.at ≡ []) }
    ensures steps { IfOk result (λ w. steps_of w.steps.items ≡ path_steps folder.now (into modules ∷ path_steps name.now [])) }
{
    let mut walk = Walk::new(alloc, AbsPath::root(alloc)?);
    put_in_modules(alloc, &mut walk, name)?;
    walk.put(alloc, folder.as_str())?;
    Ok(walk)
}

// Puts the way to a name in `node_modules` before the other steps.
fn put_in_modules(alloc: Global, walk: &mut Walk, name: &RelPath) -> Result<(), Memory>
    ensures at { OnOk result (walk.new.at ≡ walk.old.at) }
    ensures steps { OnOk result (steps_of walk.new.steps.items ≡ into modules ∷ path_steps name.now (steps_of walk.old.steps.items)) }
{
    walk.put(alloc, name.as_str())?;
    walk.put(alloc, "node_modules")
}

// A path where a folder stands.
fn only_folder<R: ReadFs>(fs: &mut R, path: AbsPath) -> Result<Option<AbsPath>, DevFault>
    ensures folder { IfSome (R.seen fs.old).tree (λ t. IfOk result (IsFolderOr t path)) }
    ensures kept { Keeps (R.seen fs.old) (R.seen fs.new) }
    ensures cause { HasCause (R.seen fs.old).faults (R.seen fs.new).faults result }
{
    if is_folder(fs, &path)? {
        Ok(Some(path))
    } else {
        Ok(None)
    }
}
