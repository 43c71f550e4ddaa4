// Where a package is in the registry.
ghost use Rattle.std.specs.Prelude.{◌≡◌, ◌≤◌, IfOk, length};
ghost use Rattle.pn_text.specs.declared.limits.TheConstants.{ID_LIMIT};
ghost use Rattle.pn_registry.specs.Places.{package_folder};
ghost use Rattle.pn_collect.specs.CollectFaults.{NamesModules};

use crate::fault::CollectFault;
use pn_text::{AbsPath, Memory, PkgId, RelPath};
use std::alloc::Global;

/// The path of a package's folder. It isn't too long, since the package's id isn't.
pub fn package_folder(alloc: Global, id: &PkgId) -> Result<AbsPath, Memory>
    requires { length id.now ≤ ID_LIMIT }
    ensures { IfOk result (λ p. p ≡ package_folder id.now) }
{
    let _ = id.as_str(); // a name and a version
    match pn_registry::package_folder(alloc, id) {
        Ok(Some(folder)) => Ok(folder),
        Ok(None) => unreachable!(),
        Err(_) => Err(Memory),
    }
}

/// The refusal of a file with a part `node_modules`.
pub fn modules(alloc: Global, id: &PkgId, path: RelPath) -> CollectFault
    ensures { NamesModules id.now path result }
{
    match id.copy(alloc) {
        Ok(id) => CollectFault::Modules(id, path),
        Err(_) => CollectFault::Memory,
    }
}
