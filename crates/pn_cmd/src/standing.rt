// The points at which nothing is to stand.
ghost use Rattle.std.specs.Prelude.{◌≡◌, ◌∷◌, IsTrue, OnOk, IfOk, IfErr};
ghost use Rattle.pn_text.specs.Path.{is_part};
ghost use Rattle.pn_fs.specs.Seen.{Seen, Taken, Keeps};
ghost use Rattle.pn_storecore.specs.Seen.{Seen as Stored};
ghost use Rattle.pn_cmd.specs.World.{world};
ghost use Rattle.pn_cmd.specs.Points.{Refuses};
ghost use Rattle.pn_cmd.specs.Standing.{NothingStands, Stands, IsStood};

use crate::entry::{EntryFault, entry};
use pn_fs::{Kind, ReadFs};
use pn_status::{Status, Which};
use pn_text::{AbsPath, DevFault, Text};
use std::alloc::Global;

/// An entry of a folder at which nothing stands, or it is refused.
pub fn nothing_stands<P: ReadFs>(
    alloc: Global,
    folder: &AbsPath,
    part: &str,
    project: &mut P,
) -> Result<AbsPath, Status>
    requires part { IsTrue (is_part part.now) }
    ensures path { IfOk result (λ p. p ≡ part.now ∷ folder.now) }
    ensures passed { OnOk result (NothingStands (P.seen project.old).tree (part.now ∷ folder.now)) }
    ensures refused { (registry : Seen) (store : Stored) (out : Taken) → IfErr result (Refuses (Stands (part.now ∷ folder.now)) (world (P.seen project.old) registry store out) (world (P.seen project.new) registry store out)) }
    ensures kept { Keeps (P.seen project.old) (P.seen project.new) }
{
    let path = match entry(alloc, folder, part) {
        Ok(path) => path,
        Err(EntryFault::Long(length)) => return Err(Status::Limit(Which::Path, length)),
        Err(EntryFault::Memory) => return Err(Status::Memory),
    };
    match project.kind(&path) {
        Ok(kind) => free_path(alloc, path, kind),
        Err(DevFault::Failed) => Err(Status::ProjectFault),
        Err(DevFault::Memory) => Err(Status::Memory),
    }
}

// The path, where this is what stands there: nothing.
fn free_path(alloc: Global, path: AbsPath, kind: Kind) -> Result<AbsPath, Status>
    ensures path { IfOk result (λ p. p ≡ path) }
    ensures free { OnOk result (kind ≡ Kind.Absent) }
    ensures stood { IfErr result (IsStood path kind) }
{
    if let Kind::Absent = kind {
        return Ok(path);
    }
    match Text::of(alloc, path.as_str()) {
        Ok(text) => Err(Status::NotYet(text)),
        Err(_) => Err(Status::Memory),
    }
}
