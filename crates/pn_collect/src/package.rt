// One package of an install.
ghost use Rattle.std.specs.Prelude.{◌≡◌, ◌≤◌, length, IfOk, IfErr, IfSome};
ghost use Rattle.pn_text.specs.declared.limits.TheConstants.{ID_LIMIT};
ghost use Rattle.pn_fs.specs.Seen.{Keeps};
ghost use Rattle.pn_registry.specs.Places.{package_folder};
ghost use Rattle.pn_collect.specs.CollectFaults.{CollectRefuses, NoFiles};
ghost use Rattle.pn_collect.specs.Packages.{HasFolder};
ghost use Rattle.pn_collect.specs.Outline.{outline, dressed, HasFiles, AreSoundFiles, IsMade, AreFilesBelow, IsSoundBare};

use crate::bare::Bare;
use crate::fault::CollectFault;
use crate::folder::{modules, package_folder};
use crate::paths::paths;
use pn_fs::ReadFs;
use pn_package::Package;
use pn_registry::{FilesFault, files};
use pn_text::{AbsPath, Memory, PkgId, RelPath};
use std::alloc::Global;

/// A package with its folder in the registry and its files.
pub fn package<R: ReadFs>(
    alloc: Global,
    registry: &mut R,
    bare: &Bare,
) -> Result<Package, CollectFault>
    requires stands { HasFolder (R.seen registry.old).tree bare.now.id }
    requires short { length bare.now.id ≤ ID_LIMIT }
    requires sound { IsSoundBare bare.now }
    ensures outline { IfOk result (λ p. outline p ≡ dressed bare.now) }
    ensures made { IfOk result IsMade }
    ensures files { IfSome (R.seen registry.old).tree (λ t. IfOk result (HasFiles t)) }
    ensures kept { Keeps (R.seen registry.old) (R.seen registry.new) }
    ensures refused { IfErr result (CollectRefuses (λ r. NoFiles r bare.now.id) (R.seen registry.old) (R.seen registry.new)) }
{
    match package_folder(alloc, &bare.id) {
        Ok(folder) => match listed(alloc, registry, &bare.id, &folder) {
            Ok(files) => match put(alloc, bare, folder, files) {
                Ok(package) => Ok(package),
                Err(_) => Err(CollectFault::Memory),
            },
            Err(fault) => Err(fault),
        },
        Err(_) => Err(CollectFault::Memory),
    }
}

// The paths of the package's files.
fn listed<R: ReadFs>(
    alloc: Global,
    registry: &mut R,
    id: &PkgId,
    folder: &AbsPath,
) -> Result<Vec<RelPath>, CollectFault>
    requires stands { HasFolder (R.seen registry.old).tree id.now }
    requires here { folder.now ≡ package_folder id.now }
    ensures sound { IfOk result (λ v. AreSoundFiles folder.now v.items) }
    ensures files { IfSome (R.seen registry.old).tree (λ t. IfOk result (λ v. AreFilesBelow t folder.now v.items)) }
    ensures kept { Keeps (R.seen registry.old) (R.seen registry.new) }
    ensures refused { IfErr result (CollectRefuses (λ r. NoFiles r id.now) (R.seen registry.old) (R.seen registry.new)) }
{
    match files(alloc, registry, id) {
        Ok(files) => match paths(alloc, &files) {
            Ok(paths) => Ok(paths),
            Err(_) => Err(CollectFault::Memory),
        },
        Err(FilesFault::Modules(path)) => Err(modules(alloc, id, path)),
        Err(FilesFault::TooLarge(_, length)) => Err(CollectFault::TooLarge(length)),
        Err(FilesFault::Entries) => Err(CollectFault::Entries),
        Err(FilesFault::Fault) => Err(CollectFault::Fault),
        Err(FilesFault::Memory) => Err(CollectFault::Memory),
    }
}

fn put(alloc: Global, bare: &Bare, folder: AbsPath, files: Vec<RelPath>) -> Result<Package, Memory>
    ensures id { IfOk result (λ p. p.id ≡ bare.now.id) }
    ensures links { IfOk result (λ p. p.links ≡ bare.now.links) }
    ensures folder { IfOk result (λ p. p.folder ≡ folder) }
    ensures files { IfOk result (λ p. p.files.items ≡ files.items) }
{
    match (bare.id.copy(alloc), bare.links.copy(alloc)) {
        (Ok(id), Ok(links)) => Ok(Package {
            id,
            links,
            folder,
            files,
        }),
        _ => Err(Memory),
    }
}
