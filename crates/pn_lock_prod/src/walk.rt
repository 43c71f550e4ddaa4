// Walks over snapshots.
ghost use Rattle.std.specs.Prelude.{◌≡◌, ◌<◌, ◌++◌, ℕ, [], IfOk, OnOk, length};
ghost use Rattle.std.specs.List.{Contains};
ghost use Rattle.pn_lock_prod.specs.Targets.{AreThere, Leads, dependency_targets, goal_targets, link_targets, snapshot_targets};
ghost use Rattle.pn_lock_prod.specs.Walks.{AreMarks, AreMet, IsMarked, Walks};

use crate::found::Found;
use pn_lock::{LockDependency, LockGoal, LockLink, LockSnapshot};
use pn_text::Memory;
use std::alloc::Global;

/// Marks the snapshots to which walks from some of them lead.
pub(crate) fn walked(
    alloc: Global,
    snapshots: &[LockSnapshot],
    starts: &[u32],
) -> Result<Vec<bool>, Memory>
    requires within { (k : ℕ) → Contains starts.now k → k < length snapshots.now }
    requires there { AreThere snapshots.now }
    ensures { IfOk result (λ v. AreMarks (length snapshots.now) (Walks (Leads snapshots.now) (Contains starts.now)) v.items) }
{
    let mut found = Found::new(alloc, snapshots.len())?;
    walk(alloc, snapshots, starts, &mut found)?;
    let Found { seen, order: _ } = found;
    Ok(seen)
}

fn walk(
    alloc: Global,
    snapshots: &[LockSnapshot],
    starts: &[u32],
    found: &mut Found,
) -> Result<(), Memory>
    requires marked { IsMarked found.old.seen.items found.old.order.items }
    requires none { found.old.order.items ≡ [] }
    requires count { length found.old.seen.items ≡ length snapshots.now }
    requires within { (k : ℕ) → Contains starts.now k → k < length snapshots.now }
    requires there { AreThere snapshots.now }
    ensures marked { OnOk result (IsMarked found.new.seen.items found.new.order.items) }
    ensures count { length found.new.seen.items ≡ length found.old.seen.items }
    ensures met { OnOk result (AreMet (Leads snapshots.now) (Contains starts.now) found.new.order.items) }
{
    found.meet_all(starts)?;
    for at in 0..snapshots.len() {
        if at >= found.order.len() {
            return Ok(());
        }
        let from = found.order[at] as usize;
        let row = targets(alloc, &snapshots[from])?;
        found.meet_all(&row)?;
    }
    Ok(())
}

// The snapshots that a snapshot links.
fn targets(alloc: Global, snapshot: &LockSnapshot) -> Result<Vec<u32>, Memory>
    ensures { IfOk result (λ v. v.items ≡ snapshot_targets snapshot.now) }
{
    let mut row = Vec::new(alloc);
    push_links(snapshot.dependencies.as_slice(), &mut row)?;
    push_links(snapshot.optional.as_slice(), &mut row)?;
    Ok(row)
}

fn push_links(links: &[LockLink], row: &mut Vec<u32>) -> Result<(), Memory>
    ensures { OnOk result (row.new.items ≡ row.old.items ++ link_targets links.now) }
{
    for link in links {
        push_goal(link.to, row)?;
    }
    Ok(())
}

/// The snapshots that dependencies of a project lead to.
pub(crate) fn push_dependencies(
    dependencies: &[LockDependency],
    row: &mut Vec<u32>,
) -> Result<(), Memory>
    ensures { OnOk result (row.new.items ≡ row.old.items ++ dependency_targets dependencies.now) }
{
    for dependency in dependencies {
        push_goal(dependency.to, row)?;
    }
    Ok(())
}

fn push_goal(to: LockGoal, row: &mut Vec<u32>) -> Result<(), Memory>
    ensures { OnOk result (row.new.items ≡ row.old.items ++ goal_targets to) }
{
    match to {
        LockGoal::Importer(_) => Ok(()),
        LockGoal::Snapshot(k) => {
            row.push(k)?;
            Ok(())
        }
    }
}
