// One planned entry.
ghost use Rattle.std.specs.Prelude.{◌≡◌, ◌≤◌, ◌<◌, true, OnOk, OnErr, IfOk, IfErr, IfSome, length};
ghost use Rattle.std.specs.Bool.{MatchBool};
ghost use Rattle.std.specs.Option.{ForSome};
ghost use Rattle.pn_fs.specs.declared.kind.Kind.TheVariants.{Absent, Folder};
ghost use Rattle.pn_fs.specs.Tree.{HasParent};
ghost use Rattle.pn_fs.specs.Seen.{Keeps, GaveAtMost};
ghost use Rattle.pn_fs.specs.Calls.{kind_of};
ghost use Rattle.pn_storecore.specs.Grew.{Grew};
ghost use Rattle.pn_store.specs.Leaves.{LeavesAll};
ghost use Rattle.pn_repair.specs.Repairs.{fits, Repaired, HalfRepaired, IsHalf, Touches, most_read};
ghost use Rattle.pn_repair.specs.Stands.{StandsAs, NeedsNoFile};
ghost use Rattle.pn_repair.specs.Writes.{WroteAt, HasAt, IsAt, ReadsStore};
ghost use Rattle.pn_repair.specs.RepairFaults.{RepairRefused, TreeRefused, IsOfPlan, IsNeeded};

use crate::calls::make_folder;
use crate::fault::RepairFault;
use crate::link::{has_link, write_link};
use crate::stored::{copy_stored, has_digest};
use crate::text::{has_text, write_text};
use pn_digest::Planned;
use pn_fs::{Fs, Kind, ReadFs};
use pn_storecore::{StoreDisk, claims_law, grew_law};
use pn_text::AbsPath;

/// Makes what is planned stand at a path where nothing or an entry of its kind stands: a folder where there is none, a
/// file whose bytes are other ones anew, a link with another text anew. What stands as planned is read and left alone: a
/// stored file is read once, in pieces, and hashed once. A file whose length shows that it is another one isn't read. A
/// stored file's bytes come from the store in pieces and are hashed on the way; the store isn't asked where the file
/// stands. After a refusal the tree differs at that path at most.
pub fn repair<P: Fs, D: StoreDisk>(
    fs: &mut P,
    disk: &mut D,
    path: &AbsPath,
    planned: &Planned,
    found: Kind,
    buffer: &mut [u8],
) -> Result<(), RepairFault>
    requires fits { fits planned.now found ≡ true }
    requires found { ForSome (P.seen fs.old).tree (λ t. kind_of (t path.now) ≡ found) }
    requires parent { ForSome (P.seen fs.old).tree (λ t. found ≡ Absent → HasParent t path.now) }
    requires room { 0 < length buffer.old }
    ensures ok { OnOk result (Repaired (path.now, planned.now) (P.seen fs.old).tree (P.seen fs.new).tree) }
    ensures err { OnErr result (HalfRepaired (path.now, planned.now) (P.seen fs.old).tree (P.seen fs.new).tree) }
    ensures touches { Touches (path.now, planned.now) (P.seen fs.old) (P.seen fs.new) }
    ensures gave { IfSome (P.seen fs.old).tree (λ t. GaveAtMost (P.seen fs.old) (most_read planned.now found) 0 (P.seen fs.new)) }
    ensures later { (P.seen fs.old).faults ≤ (P.seen fs.new).faults }
    ensures grew { Grew (D.seen disk.old) (D.seen disk.new) }
    ensures left { LeavesAll (D.seen disk.old) (D.seen disk.new) }
    ensures store_later { (D.seen disk.old).faults ≤ (D.seen disk.new).faults }
    ensures right_stays { IfSome (P.seen fs.old).tree (λ t. StandsAs planned.now (t path.now) → (P.seen fs.new).tree ≡ (P.seen fs.old).tree) }
    ensures asks { NeedsNoFile planned.now path.now (P.seen fs.old).tree → D.seen disk.new ≡ D.seen disk.old }
    ensures fault { IfErr result (RepairRefused (P.seen fs.old) (P.seen fs.new) (D.seen disk.old) (D.seen disk.new)) }
    ensures of_plan { IfErr result (IsOfPlan planned.now) }
    ensures needed { IfErr result (λ e. IfSome (P.seen fs.old).tree (λ t. IsNeeded planned.now (t path.now) e)) }
{
    grew_law();
    claims_law();
    if stands(fs, path, planned, found, buffer)? {
        return Ok(());
    }
    renew(fs, disk, path, planned, found, buffer)
}

/// Whether what stands needn't be taken away first: nothing, or an entry of the planned kind.
pub fn is_fitting(planned: &Planned, found: Kind) -> bool
    ensures { result ≡ fits planned.now found }
{
    match found {
        Kind::Absent => true,
        Kind::Folder => matches!(planned, Planned::Folder),
        Kind::File(_) => matches!(planned, Planned::Bytes(_) | Planned::Stored(_)),
        Kind::Link => matches!(planned, Planned::Link(_)),
    }
}

// Whether what is planned stands there.
fn stands<P: ReadFs>(
    fs: &mut P,
    path: &AbsPath,
    planned: &Planned,
    found: Kind,
    buffer: &mut [u8],
) -> Result<bool, RepairFault>
    requires found { ForSome (P.seen fs.old).tree (λ t. kind_of (t path.now) ≡ found) }
    requires room { 0 < length buffer.old }
    ensures right { IfSome (P.seen fs.old).tree (λ t. IfOk result (λ yes. MatchBool yes (StandsAs planned.now (t path.now)) (StandsAs planned.now (t path.now) → ⊥))) }
    ensures gave { IfSome (P.seen fs.old).tree (λ t. GaveAtMost (P.seen fs.old) (most_read planned.now found) 0 (P.seen fs.new)) }
    ensures kept { Keeps (P.seen fs.old) (P.seen fs.new) }
    ensures fault { IfErr result (TreeRefused (P.seen fs.old).faults (P.seen fs.new).faults) }
{
    match planned {
        Planned::Folder => Ok(is_folder(found)),
        Planned::Bytes(text) => match found {
            Kind::File(size) => has_text(fs, path, text.as_str().as_bytes(), size, buffer),
            _ => Ok(false),
        },
        Planned::Stored(digest) => match found {
            Kind::File(size) => has_digest(fs, path, digest, size, buffer),
            _ => Ok(false),
        },
        Planned::Link(text) => match found {
            Kind::Link => has_link(fs, path, text),
            _ => Ok(false),
        },
    }
}

fn is_folder(found: Kind) -> bool
    ensures { MatchBool result (found ≡ Folder) (found ≡ Folder → ⊥) }
{
    found == Kind::Folder
}

// Makes what is planned stand in place of what is wrong.
fn renew<P: Fs, D: StoreDisk>(
    fs: &mut P,
    disk: &mut D,
    path: &AbsPath,
    planned: &Planned,
    found: Kind,
    buffer: &mut [u8],
) -> Result<(), RepairFault>
    requires fits { fits planned.now found ≡ true }
    requires found { ForSome (P.seen fs.old).tree (λ t. kind_of (t path.now) ≡ found) }
    requires parent { ForSome (P.seen fs.old).tree (λ t. found ≡ Absent → HasParent t path.now) }
    requires wrong { ForSome (P.seen fs.old).tree (λ t. StandsAs planned.now (t path.now) → ⊥) }
    requires room { 0 < length buffer.old }
    ensures ok { OnOk result (HasAt path.now (StandsAs planned.now) (P.seen fs.new).tree) }
    ensures err { OnErr result (IsAt path.now (IsHalf planned.now) (P.seen fs.old).tree (P.seen fs.new).tree) }
    ensures wrote { WroteAt path.now (P.seen fs.old) (P.seen fs.new) }
    ensures reads { ReadsStore (D.seen disk.old) (D.seen disk.new) }
    ensures asks { NeedsNoFile planned.now path.now (P.seen fs.old).tree → D.seen disk.new ≡ D.seen disk.old }
    ensures fault { IfErr result (RepairRefused (P.seen fs.old) (P.seen fs.new) (D.seen disk.old) (D.seen disk.new)) }
    ensures of_plan { IfErr result (IsOfPlan planned.now) }
{
    grew_law();
    claims_law();
    match planned {
        Planned::Folder => make_folder(fs, path),
        Planned::Bytes(text) => write_text(fs, path, text.as_str().as_bytes()),
        Planned::Stored(digest) => copy_stored(fs, disk, path, digest, buffer),
        Planned::Link(text) => write_link(fs, path, text, found),
    }
}
