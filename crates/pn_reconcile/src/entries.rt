// Planned entries, repaired in order.
ghost use Rattle.std.specs.Prelude.{◌≡◌, ◌≤◌, ◌<◌, true, OnOk, OnErr, IfErr, IfSome, None, length};
ghost use Rattle.std.specs.Option.{ForSome};
ghost use Rattle.pn_fs.specs.Calls.{kind_of};
ghost use Rattle.pn_fs.specs.Seen.{GaveAtMost};
ghost use Rattle.pn_fs.specs.Tree.{HasParent};
ghost use Rattle.pn_repair.specs.Repairs.{fits, Repaired, HalfRepaired, Touches, most_read};
ghost use Rattle.pn_repair.specs.RepairFaults.{RepairRefused, IsOfPlan as IsOfEntry, IsNeeded as IsEntryNeeded};
ghost use Rattle.pn_repair.specs.Stands.{StandsAs, NeedsNoFile};
ghost use Rattle.pn_repair.specs.Writes.{ReadsStore};
ghost use Rattle.pn_clear.specs.Items.{Rises};
ghost use Rattle.pn_reconcile.specs.Plans.{IsPlanned, KeepsAllRight, Made, HalfMade};
ghost use Rattle.pn_reconcile.specs.Phases.{IsReady, IsFilled, IsHalfFilled};
ghost use Rattle.pn_reconcile.specs.Spares.{SparesRight, IsOfPlan};
ghost use Rattle.pn_reconcile.specs.Needs.{NeedsNoFiles, IsNeeded};
ghost use Rattle.pn_reconcile.specs.Bounds.{most_planned};

use crate::kinds::kind_at;
use pn_digest::Planned;
use pn_fs::{Fs, Kind, ReadFs};
use pn_repair::{RepairFault, is_fitting, repair};
use pn_storecore::{StoreDisk, claims_law, grew_law, was_law};
use pn_text::AbsPath;

/// Makes all that is planned stand, in order, where nothing stands in its way.
pub fn repair_all<P: Fs, D: StoreDisk>(
    fs: &mut P,
    disk: &mut D,
    plan: &[(AbsPath, Planned)],
    buffer: &mut [u8],
) -> Result<(), RepairFault>
    requires plan { Rises plan.now }
    requires ready { ForSome (P.seen fs.old).tree (IsReady plan.now) }
    requires room { 0 < length buffer.old }
    ensures ok { OnOk result (Made (IsFilled plan.now) (P.seen fs.old).tree (P.seen fs.new).tree) }
    ensures err { OnErr result (HalfMade (IsHalfFilled plan.now) (P.seen fs.old).tree (P.seen fs.new).tree) }
    ensures spares { IfSome (P.seen fs.old).tree (λ t. SparesRight (IsPlanned plan.now) plan.now t (P.seen fs.old) (P.seen fs.new)) }
    ensures keeps { KeepsAllRight plan.now (P.seen fs.old).tree (P.seen fs.new).tree }
    ensures later { (P.seen fs.old).faults ≤ (P.seen fs.new).faults }
    ensures reads { ReadsStore (D.seen disk.old) (D.seen disk.new) }
    ensures gave { IfSome (P.seen fs.old).tree (λ t. GaveAtMost (P.seen fs.old) (most_planned plan.now t) 0 (P.seen fs.new)) }
    ensures asks { NeedsNoFiles plan.now (P.seen fs.old).tree → D.seen disk.new ≡ D.seen disk.old }
    ensures fault { IfErr result (RepairRefused (P.seen fs.old) (P.seen fs.new) (D.seen disk.old) (D.seen disk.new)) }
    ensures of_plan { IfErr result (IsOfPlan plan.now) }
    ensures needed { IfErr result (λ e. IfSome (P.seen fs.old).tree (λ t. IsNeeded plan.now t e)) }
{
    grew_law();
    claims_law();
    was_law();
    for entry in plan {
        repair_next(fs, disk, entry, buffer)?;
    }
    Ok(())
}

/// Makes a planned entry stand where nothing or an entry of its kind stands.
pub fn repair_next<P: Fs, D: StoreDisk>(
    fs: &mut P,
    disk: &mut D,
    entry: &(AbsPath, Planned),
    buffer: &mut [u8],
) -> Result<(), RepairFault>
    requires fits { ForSome (P.seen fs.old).tree (λ t. fits entry.now.1 (kind_of (t entry.now.0)) ≡ true) }
    requires parent { ForSome (P.seen fs.old).tree (λ t. t entry.now.0 ≡ None → HasParent t entry.now.0) }
    requires room { 0 < length buffer.old }
    ensures ok { OnOk result (Repaired entry.now (P.seen fs.old).tree (P.seen fs.new).tree) }
    ensures err { OnErr result (HalfRepaired entry.now (P.seen fs.old).tree (P.seen fs.new).tree) }
    ensures touches { Touches entry.now (P.seen fs.old) (P.seen fs.new) }
    ensures right_stays { IfSome (P.seen fs.old).tree (λ t. StandsAs entry.now.1 (t entry.now.0) → (P.seen fs.new).tree ≡ (P.seen fs.old).tree) }
    ensures later { (P.seen fs.old).faults ≤ (P.seen fs.new).faults }
    ensures reads { ReadsStore (D.seen disk.old) (D.seen disk.new) }
    ensures gave { IfSome (P.seen fs.old).tree (λ t. GaveAtMost (P.seen fs.old) (most_read entry.now.1 (kind_of (t entry.now.0))) 0 (P.seen fs.new)) }
    ensures asks { NeedsNoFile entry.now.1 entry.now.0 (P.seen fs.old).tree → D.seen disk.new ≡ D.seen disk.old }
    ensures fault { IfErr result (RepairRefused (P.seen fs.old) (P.seen fs.new) (D.seen disk.old) (D.seen disk.new)) }
    ensures of_plan { IfErr result (IsOfEntry entry.now.1) }
    ensures needed { IfErr result (λ e. IfSome (P.seen fs.old).tree (λ t. IsEntryNeeded entry.now.1 (t entry.now.0) e)) }
{
    grew_law();
    claims_law();
    let there = kind_at(fs, &entry.0)?;
    let found = fitting(&entry.1, there);
    repair(fs, disk, &entry.0, &entry.1, found, buffer)
}

// What stands there, if it fits. What doesn't came there after it was cleared: the call that makes the entry is refused.
fn fitting(planned: &Planned, found: Kind) -> Kind
    ensures fits { fits planned.now result ≡ true }
    ensures same { fits planned.now found ≡ true → result ≡ found }
{
    if is_fitting(planned, found) {
        found
    } else {
        Kind::Absent
    }
}
