// Managed folders and their markers.
ghost use Rattle.std.specs.Prelude.{◌≡◌, ◌≤◌, ◌<◌, ◌∷◌, [], OnOk, OnErr, IfErr, IfSome, length};
ghost use Rattle.std.specs.Option.{ForSome};
ghost use Rattle.std.specs.List.{Contains};
ghost use Rattle.pn_digest.specs.declared.planned.Planned.TheVariants.{Bytes};
ghost use Rattle.pn_scan.specs.Managed.{AreApart, AreOurs, IsOurs, marker_name};
ghost use Rattle.pn_repair.specs.RepairFaults.{TreeRefused};
ghost use Rattle.pn_clear.specs.Items.{Rises};
ghost use Rattle.pn_reconcile.specs.Plans.{IsRooted, KeepsAllRight, Made, HalfMade};
ghost use Rattle.pn_reconcile.specs.Phases.{BeginsAt, IsBegun, IsHalfBegun};
ghost use Rattle.pn_reconcile.specs.Spares.{Spares, SparesRight};
ghost use Rattle.pn_reconcile.specs.Bounds.{IsWithin, most_marked};

use crate::folders::make_down;
use crate::marker::mark;
use pn_digest::Planned;
use pn_fs::{Fs, ReadFs};
use pn_repair::RepairFault;
use pn_storecore::StoreDisk;
use pn_text::{AbsPath, Text};
use std::alloc::Global;

/// Makes each of the managed folders, in their order, with the folders above it and its marker. The
/// store isn't asked.
pub fn begin<P: Fs, D: StoreDisk>(
    alloc: Global,
    fs: &mut P,
    disk: &mut D,
    plan: &[(AbsPath, Planned)],
    managed: &[(AbsPath, Text)],
    buffer: &mut [u8],
) -> Result<(), RepairFault>
    requires plan { Rises plan.now }
    requires rooted { IsRooted managed.now plan.now }
    requires apart { AreApart managed.now }
    requires ours { ForSome (P.seen fs.old).tree (λ t. AreOurs t managed.now) }
    requires room { 0 < length buffer.old }
    ensures ok { OnOk result (Made (IsBegun managed.now) (P.seen fs.old).tree (P.seen fs.new).tree) }
    ensures err { OnErr result (HalfMade (IsHalfBegun managed.now) (P.seen fs.old).tree (P.seen fs.new).tree) }
    ensures spares { IfSome (P.seen fs.old).tree (λ t. Spares managed.now plan.now t (P.seen fs.old) (P.seen fs.new)) }
    ensures keeps { KeepsAllRight plan.now (P.seen fs.old).tree (P.seen fs.new).tree }
    ensures later { (P.seen fs.old).faults ≤ (P.seen fs.new).faults }
    ensures gave { IfSome (P.seen fs.old).tree (λ t. ForSome (P.seen fs.new).tree (λ u. IsWithin plan.now (most_marked managed.now) t u (P.seen fs.old) (P.seen fs.new))) }
    ensures unasked { D.seen disk.new ≡ D.seen disk.old }
    ensures fault { IfErr result (TreeRefused (P.seen fs.old).faults (P.seen fs.new).faults) }
{
    for one in managed {
        begin_one(alloc, fs, disk, plan, one, buffer)?;
    }
    Ok(())
}

fn begin_one<P: Fs, D: StoreDisk>(
    alloc: Global,
    fs: &mut P,
    disk: &mut D,
    plan: &[(AbsPath, Planned)],
    one: &(AbsPath, Text),
    buffer: &mut [u8],
) -> Result<(), RepairFault>
    requires plan { Rises plan.now }
    requires marker { Contains plan.now (marker_name ∷ one.now.0, Bytes one.now.1) }
    requires ours { ForSome (P.seen fs.old).tree (λ t. IsOurs t one.now) }
    requires room { 0 < length buffer.old }
    ensures ok { OnOk result (Made (IsBegun (one.now ∷ [])) (P.seen fs.old).tree (P.seen fs.new).tree) }
    ensures err { OnErr result (HalfMade (IsHalfBegun (one.now ∷ [])) (P.seen fs.old).tree (P.seen fs.new).tree) }
    ensures spares { IfSome (P.seen fs.old).tree (λ t. SparesRight (BeginsAt one.now t) plan.now t (P.seen fs.old) (P.seen fs.new)) }
    ensures keeps { KeepsAllRight plan.now (P.seen fs.old).tree (P.seen fs.new).tree }
    ensures later { (P.seen fs.old).faults ≤ (P.seen fs.new).faults }
    ensures gave { IfSome (P.seen fs.old).tree (λ t. ForSome (P.seen fs.new).tree (λ u. IsWithin plan.now (length one.now.1) t u (P.seen fs.old) (P.seen fs.new))) }
    ensures unasked { D.seen disk.new ≡ D.seen disk.old }
    ensures fault { IfErr result (TreeRefused (P.seen fs.old).faults (P.seen fs.new).faults) }
{
    make_down(alloc, fs, &one.0)?;
    mark(alloc, fs, disk, plan, one, buffer)
}
