// A lock without development dependencies.
ghost use Rattle.std.specs.Prelude.{IfOk};
ghost use Rattle.pn_lock_prod.specs.Production.{IsProduction};

use crate::copies::{catalogs, overrides};
use crate::kept::{new_importers, new_snapshots, numbers, packages};
use crate::starts::staying;
use pn_lock::Lock;
use pn_text::Memory;
use std::alloc::Global;

/// The lock without development dependencies, and without the snapshots and packages that only these lead to.
pub fn prod(alloc: Global, lock: &Lock) -> Result<Lock, Memory>
    ensures { IfOk result (IsProduction lock.now) }
{
    let old = lock.snapshots();
    let marks = staying(alloc, lock)?;
    let numbers = numbers(alloc, &marks)?;
    let importers = new_importers(alloc, &numbers, lock.importers())?;
    let snapshots = new_snapshots(alloc, &numbers, &marks, old)?;
    let packages = packages(alloc, &marks, old, lock.packages())?;
    let catalogs = catalogs(alloc, lock.catalogs())?;
    let overrides = overrides(alloc, lock.overrides())?;
    Ok(Lock::of(
        lock.auto_install_peers(),
        catalogs,
        overrides,
        importers,
        packages,
        snapshots,
    ))
}
