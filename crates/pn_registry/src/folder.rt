// Where a package stands.
ghost use Rattle.std.specs.Prelude.{◌≡◌, ◌∷◌, ◌↔◌, IsTrue, IfOk, IfSome, Some};
ghost use Rattle.pn_text.specs.Path.{is_part};
ghost use Rattle.pn_text.specs.Causes.{HasCause};
ghost use Rattle.pn_fs.specs.Tree.{folder};
ghost use Rattle.pn_fs.specs.Seen.{Keeps, GaveNothing};
ghost use Rattle.pn_registry.specs.Places.{package_folder, manifest_path, IsPathOrLong};

use pn_fs::{Kind, ReadFs};
use pn_text::{AbsPath, DevFault, Memory, PathFault, PkgId};
use std::alloc::Global;

/// Whether a folder stands at a package's place.
pub fn stands<R: ReadFs>(alloc: Global, registry: &mut R, id: &PkgId) -> Result<bool, DevFault>
    ensures folder { IfSome (R.seen registry.old).tree (λ t. IfOk result (λ is. IsTrue is ↔ (t (package_folder id.now) ≡ Some folder))) }
    ensures gave { IfSome (R.seen registry.old).tree (λ t. GaveNothing (R.seen registry.old) (R.seen registry.new)) }
    ensures kept { Keeps (R.seen registry.old) (R.seen registry.new) }
    ensures cause { HasCause (R.seen registry.old).faults (R.seen registry.new).faults result }
{
    match package_folder(alloc, id) {
        Ok(Some(path)) => is_folder(registry, &path),
        Ok(None) => Ok(false),
        Err(_) => Err(DevFault::Memory),
    }
}

fn is_folder<R: ReadFs>(registry: &mut R, path: &AbsPath) -> Result<bool, DevFault>
    ensures folder { IfSome (R.seen registry.old).tree (λ t. IfOk result (λ is. IsTrue is ↔ (t path.now ≡ Some folder))) }
    ensures gave { IfSome (R.seen registry.old).tree (λ t. GaveNothing (R.seen registry.old) (R.seen registry.new)) }
    ensures kept { Keeps (R.seen registry.old) (R.seen registry.new) }
    ensures cause { HasCause (R.seen registry.old).faults (R.seen registry.new).faults result }
{
    match registry.kind(path) {
        Ok(Kind::Folder) => Ok(true),
        Ok(_) => Ok(false),
        Err(e) => Err(e),
    }
}

/// The path of a package's folder, or none where it is too long for one.
pub fn package_folder(alloc: Global, id: &PkgId) -> Result<Option<AbsPath>, Memory>
    ensures { IfOk result (IsPathOrLong (package_folder id.now)) }
{
    let name = id.name().as_path(alloc)?;
    let root = AbsPath::root(alloc)?;
    match root.join(alloc, &name) {
        Ok(folder) => child(alloc, &folder, id.version_text()),
        Err(PathFault::Memory) => Err(Memory),
        Err(_) => Ok(None),
    }
}

/// The path of a package's manifest, or none where it is too long for one.
pub fn manifest_path(alloc: Global, id: &PkgId) -> Result<Option<AbsPath>, Memory>
    ensures { IfOk result (IsPathOrLong (manifest_path id.now)) }
{
    match package_folder(alloc, id)? {
        Some(folder) => child(alloc, &folder, "package.json"),
        None => Ok(None),
    }
}

fn child(alloc: Global, folder: &AbsPath, part: &str) -> Result<Option<AbsPath>, Memory>
    requires { IsTrue (is_part part.now) }
    ensures { IfOk result (IsPathOrLong (part.now ∷ folder.now)) }
{
    match folder.child(alloc, part) {
        Ok(path) => Ok(Some(path)),
        Err(PathFault::Memory) => Err(Memory),
        Err(_) => Ok(None),
    }
}
