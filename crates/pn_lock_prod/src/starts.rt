// The snapshots that stay.
ghost use Rattle.std.specs.Prelude.{◌≡◌, ◌<◌, ◌^◌, ◌++◌, IfOk, OnOk, length};
ghost use Rattle.pn_lock_prod.specs.Targets.{Stays, dev_targets, kept_targets, places_without};
ghost use Rattle.pn_lock_prod.specs.Walks.{AreMarks};

use crate::walk::{push_dependencies, walked};
use pn_lock::{Lock, LockImporter};
use pn_text::Memory;
use std::alloc::Global;

/// Marks the snapshots that stay without development dependencies.
pub(crate) fn staying(alloc: Global, lock: &Lock) -> Result<Vec<bool>, Memory>
    ensures { IfOk result (λ v. AreMarks (length lock.now.snapshots) (Stays lock.now) v.items) }
{
    let snapshots = lock.snapshots();
    let dev = walked(alloc, snapshots, &dev_targets(alloc, lock.importers())?)?;
    let mut starts = kept_targets(alloc, lock.importers())?;
    push_without(&dev, &mut starts)?;
    walked(alloc, snapshots, &starts)
}

fn dev_targets(alloc: Global, importers: &[LockImporter]) -> Result<Vec<u32>, Memory>
    ensures { IfOk result (λ v. v.items ≡ dev_targets importers.now) }
{
    let mut row = Vec::new(alloc);
    for importer in importers {
        push_dependencies(importer.dev.as_slice(), &mut row)?;
    }
    Ok(row)
}

fn kept_targets(alloc: Global, importers: &[LockImporter]) -> Result<Vec<u32>, Memory>
    ensures { IfOk result (λ v. v.items ≡ kept_targets importers.now) }
{
    let mut row = Vec::new(alloc);
    for importer in importers {
        push_dependencies(importer.dependencies.as_slice(), &mut row)?;
        push_dependencies(importer.optional.as_slice(), &mut row)?;
    }
    Ok(row)
}

// The places without a mark.
fn push_without(marks: &[bool], row: &mut Vec<u32>) -> Result<(), Memory>
    requires { length marks.now < 2 ^ 32 }
    ensures { OnOk result (row.new.items ≡ row.old.items ++ places_without 0 marks.now) }
{
    for (n, mark) in marks.iter().enumerate() {
        if !*mark {
            row.push(n as u32)?;
        }
    }
    Ok(())
}
