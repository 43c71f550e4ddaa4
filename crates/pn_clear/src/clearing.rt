// Entries that aren't planned as they stand are taken away.
ghost use Rattle.std.specs.Prelude.{◌≡◌, ◌≤◌, ◌∷◌, [], true, OnOk, OnErr, IfErr, IfSome};
ghost use Rattle.std.specs.Option.{ForSome, option_map};
ghost use Rattle.pn_text.specs.Path.{same_path};
ghost use Rattle.pn_fs.specs.Tree.{CanRemove};
ghost use Rattle.pn_fs.specs.Seen.{GaveNothing};
ghost use Rattle.pn_fs.specs.Calls.{told_gone};
ghost use Rattle.pn_fs.specs.Made.{DiffersOnly};
ghost use Rattle.pn_repair.specs.RepairFaults.{TreeRefused};
ghost use Rattle.pn_clear.specs.Items.{Rises, is_doomed, is_gone, without};
ghost use Rattle.pn_clear.specs.Clearing.{CanClear, Touched};

use crate::search::find;
use pn_digest::Planned;
use pn_fs::{Fs, Kind, ReadFs};
use pn_repair::{RepairFault, is_fitting};
use pn_text::{AbsPath, DevFault};

/// Takes the entries away that aren't planned, or of another kind than planned, the last one first. Nothing is read
/// of them. After a refusal some of them may be gone.
pub fn clear<P: Fs>(
    fs: &mut P,
    plan: &[(AbsPath, Planned)],
    entries: &[(AbsPath, Kind)],
) -> Result<(), RepairFault>
    requires plan { Rises plan.now }
    requires order { Rises entries.now }
    requires clear { ForSome (P.seen fs.old).tree (CanClear plan.now entries.now) }
    ensures ok { OnOk result ((P.seen fs.new).tree ≡ option_map (without plan.now entries.now) (P.seen fs.old).tree) }
    ensures err { OnErr result (DiffersOnly (is_gone plan.now entries.now) (P.seen fs.old).tree (P.seen fs.new).tree) }
    ensures touched { IfSome (P.seen fs.old).tree (λ t. Touched (λ p. is_gone plan.now entries.now p ≡ true) (P.seen fs.old) (P.seen fs.new)) }
    ensures gave { IfSome (P.seen fs.old).tree (λ t. GaveNothing (P.seen fs.old) (P.seen fs.new)) }
    ensures later { (P.seen fs.old).faults ≤ (P.seen fs.new).faults }
    ensures fault { IfErr result (TreeRefused (P.seen fs.old).faults (P.seen fs.new).faults) }
{
    let mut left = entries.len();
    'entries: while left > 0 {
        left -= 1;
        clear_one(fs, plan, &entries[left])?;
    }
    Ok(())
}

fn clear_one<P: Fs>(
    fs: &mut P,
    plan: &[(AbsPath, Planned)],
    entry: &(AbsPath, Kind),
) -> Result<(), RepairFault>
    requires plan { Rises plan.now }
    requires clear { ForSome (P.seen fs.old).tree (λ t. is_doomed plan.now entry.now ≡ true → CanRemove t entry.now.0) }
    ensures ok { OnOk result ((P.seen fs.new).tree ≡ option_map (without plan.now (entry.now ∷ [])) (P.seen fs.old).tree) }
    ensures err { OnErr result (DiffersOnly (is_gone plan.now (entry.now ∷ [])) (P.seen fs.old).tree (P.seen fs.new).tree) }
    ensures touched { IfSome (P.seen fs.old).tree (λ t. Touched (λ p. is_gone plan.now (entry.now ∷ []) p ≡ true) (P.seen fs.old) (P.seen fs.new)) }
    ensures gave { IfSome (P.seen fs.old).tree (λ t. GaveNothing (P.seen fs.old) (P.seen fs.new)) }
    ensures later { (P.seen fs.old).faults ≤ (P.seen fs.new).faults }
    ensures fault { IfErr result (TreeRefused (P.seen fs.old).faults (P.seen fs.new).faults) }
{
    if is_doomed(plan, &entry.0, entry.1) {
        remove(fs, &entry.0)
    } else {
        Ok(())
    }
}

fn is_doomed(plan: &[(AbsPath, Planned)], path: &AbsPath, kind: Kind) -> bool
    requires plan { Rises plan.now }
    ensures { result ≡ is_doomed plan.now (path.now, kind) }
{
    match find(plan, path.as_str()) {
        Some(entry) => !is_fitting(&entry.1, kind),
        None => true,
    }
}

fn remove<P: Fs>(fs: &mut P, path: &AbsPath) -> Result<(), RepairFault>
    requires { ForSome (P.seen fs.old).tree (λ t. CanRemove t path.now) }
    ensures ok { OnOk result ((P.seen fs.new).tree ≡ told_gone (P.seen fs.old).tree path.now) }
    ensures err { OnErr result (DiffersOnly (same_path path.now) (P.seen fs.old).tree (P.seen fs.new).tree) }
    ensures touched { IfSome (P.seen fs.old).tree (λ t. Touched (λ p. p ≡ path.now) (P.seen fs.old) (P.seen fs.new)) }
    ensures gave { IfSome (P.seen fs.old).tree (λ t. GaveNothing (P.seen fs.old) (P.seen fs.new)) }
    ensures later { (P.seen fs.old).faults ≤ (P.seen fs.new).faults }
    ensures fault { IfErr result (TreeRefused (P.seen fs.old).faults (P.seen fs.new).faults) }
{
    match fs.remove(path) {
        Ok(()) => Ok(()),
        Err(DevFault::Failed) => Err(RepairFault::Fault),
        Err(DevFault::Memory) => Err(RepairFault::Memory),
    }
}
