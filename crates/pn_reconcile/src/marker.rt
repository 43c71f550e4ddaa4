// The marker of a managed folder.
ghost use Rattle.std.specs.Prelude.{◌≡◌, ◌≤◌, ◌<◌, ◌⊎◌, ◌∷◌, ◌++◌, OnOk, OnErr, IfOk, IfErr, IfSome, Some, None, length, string_bytes};
ghost use Rattle.std.specs.Option.{ForSome};
ghost use Rattle.std.specs.List.{Contains};
ghost use Rattle.pn_text.specs.Path.{SpellsAbs};
ghost use Rattle.pn_fs.specs.Tree.{folder};
ghost use Rattle.pn_fs.specs.Seen.{GaveAtMost};
ghost use Rattle.pn_fs.specs.Calls.{kind_of};
ghost use Rattle.pn_digest.specs.declared.planned.Planned.TheVariants.{Bytes};
ghost use Rattle.pn_scan.specs.Managed.{IsMarked, marker_name};
ghost use Rattle.pn_repair.specs.Repairs.{Repaired, HalfRepaired, Touches, most_read};
ghost use Rattle.pn_repair.specs.RepairFaults.{TreeRefused};
ghost use Rattle.pn_clear.specs.Items.{Rises};
ghost use Rattle.pn_reconcile.specs.Plans.{KeepsAllRight};

use crate::entries::repair_next;
use pn_clear::find;
use pn_digest::Planned;
use pn_fs::{Fs, ReadFs};
use pn_repair::RepairFault;
use pn_storecore::StoreDisk;
use pn_text::{AbsPath, Text};
use std::alloc::{AllocError, Global};

// What the path of a folder's marker has behind that of the folder.
const MARKER: &str = "/.pnpm-rs";

/// Makes the marker of a managed folder stand, as it is planned. While it is half written it is a front of its text. The
/// store isn't asked.
pub fn mark<P: Fs, D: StoreDisk>(
    alloc: Global,
    fs: &mut P,
    disk: &mut D,
    plan: &[(AbsPath, Planned)],
    one: &(AbsPath, Text),
    buffer: &mut [u8],
) -> Result<(), RepairFault>
    requires plan { Rises plan.now }
    requires planned { Contains plan.now (marker_name ∷ one.now.0, Bytes one.now.1) }
    requires stands { ForSome (P.seen fs.old).tree (λ t. t one.now.0 ≡ Some folder) }
    requires free { ForSome (P.seen fs.old).tree (λ t. IsMarked t one.now ⊎ (t (marker_name ∷ one.now.0) ≡ None)) }
    requires room { 0 < length buffer.old }
    ensures ok { OnOk result (Repaired (marker_name ∷ one.now.0, Bytes one.now.1) (P.seen fs.old).tree (P.seen fs.new).tree) }
    ensures err { OnErr result (HalfRepaired (marker_name ∷ one.now.0, Bytes one.now.1) (P.seen fs.old).tree (P.seen fs.new).tree) }
    ensures touches { Touches (marker_name ∷ one.now.0, Bytes one.now.1) (P.seen fs.old) (P.seen fs.new) }
    ensures keeps { KeepsAllRight plan.now (P.seen fs.old).tree (P.seen fs.new).tree }
    ensures later { (P.seen fs.old).faults ≤ (P.seen fs.new).faults }
    ensures gave { IfSome (P.seen fs.old).tree (λ t. GaveAtMost (P.seen fs.old) (most_read (Bytes one.now.1) (kind_of (t (marker_name ∷ one.now.0)))) 0 (P.seen fs.new)) }
    ensures unasked { D.seen disk.new ≡ D.seen disk.old }
    ensures fault { IfErr result (TreeRefused (P.seen fs.old).faults (P.seen fs.new).faults) }
{
    let text = marker_text(alloc, &one.0)?;
    match find(plan, text.as_str()) {
        Some(entry) => repair_next(fs, disk, entry, buffer),
        None => unreachable!(),
    }
}

// The text of its path.
fn marker_text(alloc: Global, folder: &AbsPath) -> Result<String, RepairFault>
    ensures ok { IfOk result (λ text. SpellsAbs (string_bytes text) (marker_name ∷ folder.now)) }
    ensures memory { IfErr result (λ e. e ≡ RepairFault.Memory) }
{
    match with_marker(alloc, folder.stem()) {
        Ok(text) => Ok(text),
        Err(_) => Err(RepairFault::Memory),
    }
}

fn with_marker(alloc: Global, stem: &str) -> Result<String, AllocError>
    ensures { IfOk result (λ text. string_bytes text ≡ stem.now ++ 47 ∷ marker_name) }
{
    let mut text = String::from_str(alloc, stem)?;
    text.push_str(MARKER)?;
    Ok(text)
}
