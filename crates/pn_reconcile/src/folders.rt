// Folders that are made where they are absent.
ghost use Rattle.std.specs.Prelude.{◌≡◌, ◌≤◌, ◌⊎◌, ◌∷◌, [], ℕ, List, IfOk, IfErr, IfSome, MatchOption, OnOk, OnErr, Some};
ghost use Rattle.std.specs.Bool.{MatchBool};
ghost use Rattle.std.specs.Option.{ForSome};
ghost use Rattle.pn_fs.specs.Calls.{told_put};
ghost use Rattle.pn_fs.specs.Seen.{Keeps, GaveNothing};
ghost use Rattle.pn_fs.specs.Tree.{folder, IsFree};
ghost use Rattle.pn_scan.specs.Looks.{AreFolders};
ghost use Rattle.pn_repair.specs.RepairFaults.{TreeRefused};
ghost use Rattle.pn_reconcile.specs.Plans.{Made, HalfMade};
ghost use Rattle.pn_reconcile.specs.Phases.{IsDown, IsHalfDown, TouchesAbove};

use crate::kinds::kind_at;
use pn_fs::{Fs, Kind, ReadFs};
use pn_repair::RepairFault;
use pn_text::{AbsPath, DevFault};
use std::alloc::Global;

/// Makes a folder and those above it where they are absent, the outermost first. It looks no higher than to the nearest one
/// that stands.
pub fn make_down<P: Fs>(alloc: Global, fs: &mut P, path: &AbsPath) -> Result<(), RepairFault>
    requires { ForSome (P.seen fs.old).tree (λ t. AreFolders t path.now) }
    ensures ok { OnOk result (Made (IsDown path.now) (P.seen fs.old).tree (P.seen fs.new).tree) }
    ensures err { OnErr result (HalfMade (IsHalfDown path.now) (P.seen fs.old).tree (P.seen fs.new).tree) }
    ensures touched { IfSome (P.seen fs.old).tree (λ t. TouchesAbove path.now t (P.seen fs.old) (P.seen fs.new)) }
    ensures gave { IfSome (P.seen fs.old).tree (λ t. GaveNothing (P.seen fs.old) (P.seen fs.new)) }
    ensures later { (P.seen fs.old).faults ≤ (P.seen fs.new).faults }
    ensures fault { IfErr result (TreeRefused (P.seen fs.old).faults (P.seen fs.new).faults) }
{
    if is_folder(fs, path)? {
        return Ok(());
    }
    let Some(above) = parent(alloc, path)? else {
        return make(fs, path);
    };
    make_down(alloc, fs, &above)?;
    make(fs, path)
}

fn is_folder<P: ReadFs>(fs: &mut P, path: &AbsPath) -> Result<bool, RepairFault>
    ensures stands { IfSome (P.seen fs.old).tree (λ t. IfOk result (λ yes. MatchBool yes (t path.now ≡ Some folder) (t path.now ≡ Some folder → ⊥))) }
    ensures gave { IfSome (P.seen fs.old).tree (λ t. GaveNothing (P.seen fs.old) (P.seen fs.new)) }
    ensures kept { Keeps (P.seen fs.old) (P.seen fs.new) }
    ensures fault { IfErr result (TreeRefused (P.seen fs.old).faults (P.seen fs.new).faults) }
{
    let kind = kind_at(fs, path)?;
    Ok(kind == Kind::Folder)
}

fn parent(alloc: Global, path: &AbsPath) -> Result<Option<AbsPath>, RepairFault>
    ensures ok { IfOk result (λ found. MatchOption found (path.now ≡ []) (λ p. (x : List ℕ) × (path.now ≡ x ∷ p))) }
    ensures memory { IfErr result (λ e. e ≡ RepairFault.Memory) }
{
    match path.parent(alloc) {
        Ok(found) => Ok(found),
        Err(_) => Err(RepairFault::Memory),
    }
}

fn make<P: Fs>(fs: &mut P, path: &AbsPath) -> Result<(), RepairFault>
    requires { ForSome (P.seen fs.old).tree (λ t. IsFree t path.now) }
    ensures ok { OnOk result ((P.seen fs.new).tree ≡ told_put (P.seen fs.old).tree path.now folder) }
    ensures err { OnErr result (((P.seen fs.new).tree ≡ (P.seen fs.old).tree) ⊎ ((P.seen fs.new).tree ≡ told_put (P.seen fs.old).tree path.now folder)) }
    ensures touched { IfSome (P.seen fs.old).tree (λ t. TouchesAbove path.now t (P.seen fs.old) (P.seen fs.new)) }
    ensures gave { IfSome (P.seen fs.old).tree (λ t. GaveNothing (P.seen fs.old) (P.seen fs.new)) }
    ensures later { (P.seen fs.old).faults ≤ (P.seen fs.new).faults }
    ensures fault { IfErr result (TreeRefused (P.seen fs.old).faults (P.seen fs.new).faults) }
{
    match fs.make_folder(path) {
        Ok(()) => Ok(()),
        Err(DevFault::Failed) => Err(RepairFault::Fault),
        Err(DevFault::Memory) => Err(RepairFault::Memory),
    }
}
