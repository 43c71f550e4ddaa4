// What a registry publishes under a name.
ghost use Rattle.std.specs.Prelude.{◌≡◌, ◌≤◌, ◌+◌, ◌++◌, length, IfOk, IfErr, IfSome, OnOk};
ghost use Rattle.pn_text.specs.declared.limits.TheConstants.{PATH_LIMIT, TEXT_LIMIT, ENTRY_LIMIT};
ghost use Rattle.pn_text.specs.Path.{path_text};
ghost use Rattle.pn_text.specs.Name.{name_path};
ghost use Rattle.pn_fs.specs.Seen.{Keeps, GaveAtMost};
ghost use Rattle.pn_fs.specs.Calls.{IsEntryName};
ghost use Rattle.pn_published.specs.Folders.{ListsOnce};
ghost use Rattle.pn_published.specs.Shelves.{IsPublished, IsShelf};
ghost use Rattle.pn_published.specs.Tags.{tags_name};
ghost use Rattle.pn_published.specs.Shown.{shelf_of};
ghost use Rattle.pn_published.specs.Refusals.{VersionsRefused};

use crate::entries::read_versions;
use crate::fault::PublishedFault;
use crate::published::Published;
use crate::shelf::shelf;
use crate::tags::read_tags;
use pn_fs::ReadFs;
use pn_text::{AbsPath, Memory, PathFault, PkgName, RelPath};
use std::alloc::Global;

/// The versions, tags and latest version that a registry's folder has for a name. A name without a folder has none.
pub fn versions<R: ReadFs>(
    alloc: Global,
    registry: &mut R,
    name: &PkgName,
) -> Result<Published, PublishedFault>
    ensures published { IfSome (R.seen registry.old).tree (λ t. IfOk result (λ p. IsPublished t name.now (shelf_of p))) }
    ensures shelf { IfOk result (λ p. IsShelf (shelf_of p)) }
    ensures gave_few { IfSome (R.seen registry.old).tree (λ t. OnOk result (GaveAtMost (R.seen registry.old) (TEXT_LIMIT + 1) ENTRY_LIMIT (R.seen registry.new))) }
    ensures gave { IfSome (R.seen registry.old).tree (λ t. ListsOnce t (name_path name.now) (TEXT_LIMIT + 1) (R.seen registry.old) (R.seen registry.new)) }
    ensures kept { Keeps (R.seen registry.old) (R.seen registry.new) }
    ensures fault { IfErr result (VersionsRefused (name_path name.now) (R.seen registry.old) (R.seen registry.new)) }
{
    let folder = name_folder(alloc, name)?;
    let versions = read_versions(alloc, registry, &folder)?;
    let said = read_tags(alloc, registry, &folder)?;
    shelf(alloc, versions, said.as_slice())
}

// The folder of a name. Its path and that of the tags are never too long.
fn name_folder(alloc: Global, name: &PkgName) -> Result<AbsPath, Memory>
    ensures path { IfOk result (λ p. p ≡ name_path name.now) }
    ensures tags { OnOk result (IsEntryName (name_path name.now) tags_name) }
{
    let _text = name.as_str();
    let tail = name.as_path(alloc)?;
    let root = AbsPath::root(alloc)?;
    join(alloc, &root, &tail)
}

fn join(alloc: Global, folder: &AbsPath, tail: &RelPath) -> Result<AbsPath, Memory>
    requires { length (path_text (tail.now ++ folder.now)) ≤ PATH_LIMIT }
    ensures { IfOk result (λ p. p ≡ tail.now ++ folder.now) }
{
    match folder.join(alloc, tail) {
        Ok(path) => Ok(path),
        Err(PathFault::Memory) => Err(Memory),
        Err(_) => unreachable!(),
    }
}
