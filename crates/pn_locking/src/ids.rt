// What a lock holds.
ghost use Rattle.std.specs.Prelude.{◌≡◌, IfOk};
ghost use Rattle.pn_lock.specs.Locks.{ids_of};

use pn_lock::{Lock, LockPackage};
use pn_text::{Memory, PkgId};
use std::alloc::Global;

/// The ids of a lock's packages, in its order.
pub fn held(alloc: Global, lock: &Lock) -> Result<Vec<PkgId>, Memory>
    ensures { IfOk result (λ v. v.items ≡ ids_of lock.now.packages) }
{
    ids_of(alloc, lock.packages())
}

/// The ids of packages.
pub(crate) fn ids_of(alloc: Global, packages: &[LockPackage]) -> Result<Vec<PkgId>, Memory>
    ensures { IfOk result (λ v. v.items ≡ ids_of packages.now) }
{
    let mut ids = Vec::new(alloc);
    for package in packages {
        ids.push(package.id.copy(alloc)?)?;
    }
    Ok(ids)
}
