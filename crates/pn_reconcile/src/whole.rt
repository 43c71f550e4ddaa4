// The plan at and below managed folders.
ghost use Rattle.std.specs.Prelude.{◌≡◌, ◌≤◌, ◌<◌, ◌+◌, OnOk, OnErr, IfOk, IfErr, IfSome, length};
ghost use Rattle.std.specs.Option.{ForSome};
ghost use Rattle.pn_text.specs.declared.limits.TheConstants.{PIECE};
ghost use Rattle.pn_fs.specs.Seen.{GaveAtMost};
ghost use Rattle.pn_storecore.specs.Grew.{Grew};
ghost use Rattle.pn_store.specs.Leaves.{LeavesAll};
ghost use Rattle.pn_scan.specs.Managed.{AreApart, AreOurs};
ghost use Rattle.pn_scan.specs.Scans.{IsScan, IsRising};
ghost use Rattle.pn_repair.specs.RepairFaults.{RepairRefused};
ghost use Rattle.pn_repair.specs.Writes.{ReadsStore};
ghost use Rattle.pn_clear.specs.Items.{Rises};
ghost use Rattle.pn_reconcile.specs.Phases.{scanned};
ghost use Rattle.pn_reconcile.specs.Plans.{IsRooted, HasPlan, KeepsAllRight, Reconciled, HalfReconciled};
ghost use Rattle.pn_reconcile.specs.Spares.{Spares, IsIdle, IsOfPlan};
ghost use Rattle.pn_reconcile.specs.Needs.{NeedsNoFiles, IsNeeded};
ghost use Rattle.pn_reconcile.specs.Bounds.{most_planned, most_marked};

use crate::begin::begin;
use crate::entries::repair_all;
use pn_clear::clear;
use pn_digest::{Planned, PlannedTree};
use pn_fs::{Fs, Kind, ReadFs};
use pn_repair::RepairFault;
use pn_scan::Scan;
use pn_storecore::{StoreDisk, claims_law, grew_law, was_law};
use pn_text::{AbsPath, PIECE, Text};
use std::alloc::Global;

/// Makes the tree have the plan at and below the managed folders of the scan, which are the installer's. What stands as
/// planned isn't written and stays as it is, whatever is answered, and the store is asked only for a file that doesn't.
/// A file of a right length is read once, and markers once more; no folder is listed. After a refusal some of the plan may
/// stand, the managed folders are still the installer's, and all else is as it was.
pub fn reconcile<P: Fs, D: StoreDisk>(
    alloc: Global,
    fs: &mut P,
    disk: &mut D,
    plan: &PlannedTree,
    scan: &Scan,
) -> Result<(), RepairFault>
    requires scan { ForSome (P.seen fs.old).tree (λ t. IsScan t scan.now) }
    requires ours { ForSome (P.seen fs.old).tree (λ t. AreOurs t scan.now.managed) }
    requires rooted { IsRooted scan.now.managed plan.now }
    ensures ok { OnOk result (Reconciled scan.now.managed plan.now (P.seen fs.old).tree (P.seen fs.new).tree) }
    ensures err { OnErr result (HalfReconciled scan.now.managed plan.now (P.seen fs.old).tree (P.seen fs.new).tree) }
    ensures spares { IfSome (P.seen fs.old).tree (λ t. Spares scan.now.managed plan.now t (P.seen fs.old) (P.seen fs.new)) }
    ensures keeps { KeepsAllRight plan.now (P.seen fs.old).tree (P.seen fs.new).tree }
    ensures gave { IfSome (P.seen fs.old).tree (λ t. GaveAtMost (P.seen fs.old) (most_planned plan.now t + most_marked scan.now.managed) 0 (P.seen fs.new)) }
    ensures idle { IfSome (P.seen fs.old).tree (λ t. HasPlan scan.now.managed plan.now t → IsIdle (P.seen fs.old) (P.seen fs.new) (D.seen disk.old) (D.seen disk.new)) }
    ensures later { (P.seen fs.old).faults ≤ (P.seen fs.new).faults }
    ensures grew { Grew (D.seen disk.old) (D.seen disk.new) }
    ensures left { LeavesAll (D.seen disk.old) (D.seen disk.new) }
    ensures store_later { (D.seen disk.old).faults ≤ (D.seen disk.new).faults }
    ensures asks { NeedsNoFiles plan.now (P.seen fs.old).tree → D.seen disk.new ≡ D.seen disk.old }
    ensures fault { IfErr result (RepairRefused (P.seen fs.old) (P.seen fs.new) (D.seen disk.old) (D.seen disk.new)) }
    ensures of_plan { IfErr result (IsOfPlan plan.now) }
    ensures needed { IfErr result (λ e. IfSome (P.seen fs.old).tree (λ t. IsNeeded plan.now t e)) }
{
    grew_law();
    claims_law();
    let mut buffer = zeros(alloc)?;
    in_parts(
        alloc,
        fs,
        disk,
        plan.as_slice(),
        scan.managed(),
        scan.entries(),
        &mut buffer,
    )
}

// The folders with their markers, then what is taken away, then the entries.
fn in_parts<P: Fs, D: StoreDisk>(
    alloc: Global,
    fs: &mut P,
    disk: &mut D,
    plan: &[(AbsPath, Planned)],
    managed: &[(AbsPath, Text)],
    entries: &[(AbsPath, Kind)],
    buffer: &mut [u8],
) -> Result<(), RepairFault>
    requires plan { Rises plan.now }
    requires order { IsRising entries.now }
    requires apart { AreApart managed.now }
    requires rooted { IsRooted managed.now plan.now }
    requires scan { ForSome (P.seen fs.old).tree (λ t. IsScan t (scanned managed.now entries.now)) }
    requires ours { ForSome (P.seen fs.old).tree (λ t. AreOurs t managed.now) }
    requires room { 0 < length buffer.old }
    ensures ok { OnOk result (Reconciled managed.now plan.now (P.seen fs.old).tree (P.seen fs.new).tree) }
    ensures err { OnErr result (HalfReconciled managed.now plan.now (P.seen fs.old).tree (P.seen fs.new).tree) }
    ensures spares { IfSome (P.seen fs.old).tree (λ t. Spares managed.now plan.now t (P.seen fs.old) (P.seen fs.new)) }
    ensures keeps { KeepsAllRight plan.now (P.seen fs.old).tree (P.seen fs.new).tree }
    ensures gave { IfSome (P.seen fs.old).tree (λ t. GaveAtMost (P.seen fs.old) (most_planned plan.now t + most_marked managed.now) 0 (P.seen fs.new)) }
    ensures asks { NeedsNoFiles plan.now (P.seen fs.old).tree → D.seen disk.new ≡ D.seen disk.old }
    ensures later { (P.seen fs.old).faults ≤ (P.seen fs.new).faults }
    ensures reads { ReadsStore (D.seen disk.old) (D.seen disk.new) }
    ensures fault { IfErr result (RepairRefused (P.seen fs.old) (P.seen fs.new) (D.seen disk.old) (D.seen disk.new)) }
    ensures of_plan { IfErr result (IsOfPlan plan.now) }
    ensures needed { IfErr result (λ e. IfSome (P.seen fs.old).tree (λ t. IsNeeded plan.now t e)) }
{
    grew_law();
    claims_law();
    was_law();
    begin(alloc, fs, disk, plan, managed, buffer)?;
    clear(fs, plan, entries)?;
    repair_all(fs, disk, plan, buffer)
}

fn zeros(alloc: Global) -> Result<Vec<u8>, RepairFault>
    ensures ok { IfOk result (λ v. length v.items ≡ PIECE) }
    ensures memory { IfErr result (λ e. e ≡ RepairFault.Memory) }
{
    match vec![in alloc; 0u8; PIECE] {
        Ok(buffer) => Ok(buffer),
        Err(_) => Err(RepairFault::Memory),
    }
}
