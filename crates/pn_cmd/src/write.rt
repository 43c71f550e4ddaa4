// The writing of a tree and of its report.
ghost use Rattle.std.specs.Prelude.{◌≡◌, ◌≤◌, OnOk, OnErr, IfErr, IfSome};
ghost use Rattle.std.specs.Option.{ForSome};
ghost use Rattle.pn_fs.specs.Seen.{Seen, Taken};
ghost use Rattle.pn_scan.specs.Managed.{AreOurs};
ghost use Rattle.pn_scan.specs.Scans.{IsScan};
ghost use Rattle.pn_repair.specs.Writes.{ReadsStore};
ghost use Rattle.pn_reconcile.specs.Plans.{IsRooted, KeepsAllRight, Reconciled, HalfReconciled};
ghost use Rattle.pn_reconcile.specs.Spares.{Spares};
ghost use Rattle.pn_cmd.specs.World.{world};
ghost use Rattle.pn_cmd.specs.Points.{Refuses};
ghost use Rattle.pn_cmd.specs.Endings.{Stops};
ghost use Rattle.pn_cmd.specs.Reports.{Reported};
ghost use Rattle.pn_cmd.specs.Writings.{repair_status};

use pn_digest::PlannedTree;
use pn_fs::{Fs, ReadFs, Sink};
use pn_reconcile::reconcile;
use pn_repair::RepairFault;
use pn_scan::Scan;
use pn_status::{IntegrityWhy, Status};
use pn_storecore::StoreDisk;
use pn_text::DevFault;
use std::alloc::Global;

/// Makes the project's tree have the plan in the managed folders of the scan, with files of the store.
pub fn write<P: Fs, D: StoreDisk>(
    alloc: Global,
    plan: &PlannedTree,
    scan: &Scan,
    project: &mut P,
    store: &mut D,
) -> Result<(), Status>
    requires scan { ForSome (P.seen project.old).tree (λ t. IsScan t scan.now) }
    requires ours { ForSome (P.seen project.old).tree (λ t. AreOurs t scan.now.managed) }
    requires rooted { IsRooted scan.now.managed plan.now }
    ensures ok { OnOk result (Reconciled scan.now.managed plan.now (P.seen project.old).tree (P.seen project.new).tree) }
    ensures err { OnErr result (HalfReconciled scan.now.managed plan.now (P.seen project.old).tree (P.seen project.new).tree) }
    ensures spares { IfSome (P.seen project.old).tree (λ t. Spares scan.now.managed plan.now t (P.seen project.old) (P.seen project.new)) }
    ensures keeps { KeepsAllRight plan.now (P.seen project.old).tree (P.seen project.new).tree }
    ensures reads { ReadsStore (D.seen store.old) (D.seen store.new) }
    ensures cause { (registry : Seen) (out : Taken) → IfErr result (Refuses (Stops plan.now) (world (P.seen project.old) registry (D.seen store.old) out) (world (P.seen project.new) registry (D.seen store.new) out)) }
{
    match reconcile(alloc, project, store, plan, scan) {
        Ok(()) => Ok(()),
        Err(fault) => Err(unwritten(&fault)),
    }
}

// The status where the writing stops.
fn unwritten(fault: &RepairFault) -> Status
    ensures { result ≡ repair_status fault.now }
{
    match fault {
        RepairFault::Fault => Status::ProjectFault,
        RepairFault::StoreFault => Status::StoreFault,
        RepairFault::Stored(at, found) => Status::Integrity(IntegrityWhy::Stored(*at, *found)),
        RepairFault::Memory => Status::Memory,
    }
}

/// Writes the report.
pub fn tell_report<O: Sink>(report: &str, out: &mut O) -> Status
    ensures { Reported report.now (O.seen out.old) (O.seen out.new) result }
{
    match out.write(report.as_bytes()) {
        Ok(()) => Status::Done,
        Err(DevFault::Failed) => Status::SinkFault,
        Err(DevFault::Memory) => Status::Memory,
    }
}
