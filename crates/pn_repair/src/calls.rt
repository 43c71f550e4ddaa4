// Calls of a tree on one path.
ghost use Rattle.std.specs.Prelude.{◌≡◌, ◌≤◌, ◌<◌, ◌⊎◌, ℕ, List, [], ◌++◌, OnOk, OnErr, IfOk, IfErr, IfSome, Some, None, length, take};
ghost use Rattle.std.specs.Option.{ForSome};
ghost use Rattle.pn_fs.specs.Tree.{IsFile, IsLink, IsFree, CanCreate, CanRemove, folder, file, link};
ghost use Rattle.pn_fs.specs.Seen.{Keeps, GaveBytes, GaveNothing};
ghost use Rattle.pn_fs.specs.Pieces.{IsPiece};
ghost use Rattle.pn_repair.specs.RepairFaults.{TreeRefused, tree_answer};
ghost use Rattle.pn_repair.specs.Repairs.{IsHalf};
ghost use Rattle.pn_repair.specs.Writes.{WroteAt, HasAt, IsAt};
ghost use Rattle.pn_digest.specs.declared.planned.Planned.TheVariants.{Folder};

use crate::fault::RepairFault;
use pn_fs::{Fs, ReadFs};
use pn_text::{AbsPath, DevFault, Text};

pub fn make_folder<P: Fs>(fs: &mut P, path: &AbsPath) -> Result<(), RepairFault>
    requires { ForSome (P.seen fs.old).tree (λ t. IsFree t path.now) }
    ensures ok { OnOk result (HasAt path.now (λ o. o ≡ Some folder) (P.seen fs.new).tree) }
    ensures err { OnErr result (IsAt path.now (IsHalf Folder) (P.seen fs.old).tree (P.seen fs.new).tree) }
    ensures wrote { WroteAt path.now (P.seen fs.old) (P.seen fs.new) }
    ensures cause { IfErr result (TreeRefused (P.seen fs.old).faults (P.seen fs.new).faults) }
{
    of_tree(fs.make_folder(path))
}

/// Leaves an empty file.
pub fn create<P: Fs>(fs: &mut P, path: &AbsPath) -> Result<(), RepairFault>
    requires { ForSome (P.seen fs.old).tree (λ t. CanCreate t path.now) }
    ensures ok { OnOk result (HasAt path.now (λ o. o ≡ Some (file [])) (P.seen fs.new).tree) }
    ensures err { OnErr result (IsAt path.now (λ was o. (o ≡ was) ⊎ (o ≡ Some (file []))) (P.seen fs.old).tree (P.seen fs.new).tree) }
    ensures wrote { WroteAt path.now (P.seen fs.old) (P.seen fs.new) }
    ensures cause { IfErr result (TreeRefused (P.seen fs.old).faults (P.seen fs.new).faults) }
{
    of_tree(fs.create(path))
}

/// Adds bytes to a file.
pub fn append<P: Fs>(fs: &mut P, path: &AbsPath, more: &[u8]) -> Result<(), RepairFault>
    requires { (bytes : List ℕ) × HasAt path.now (λ o. o ≡ Some (file bytes)) (P.seen fs.old).tree }
    ensures ok { (bytes : List ℕ) → HasAt path.now (λ o. o ≡ Some (file bytes)) (P.seen fs.old).tree → OnOk result (HasAt path.now (λ o. o ≡ Some (file (bytes ++ more.now))) (P.seen fs.new).tree) }
    ensures err { (bytes : List ℕ) → HasAt path.now (λ o. o ≡ Some (file bytes)) (P.seen fs.old).tree → OnErr result (HasAt path.now (λ o. (n : ℕ) × (o ≡ Some (file (bytes ++ take n more.now)))) (P.seen fs.new).tree) }
    ensures wrote { WroteAt path.now (P.seen fs.old) (P.seen fs.new) }
    ensures cause { IfErr result (TreeRefused (P.seen fs.old).faults (P.seen fs.new).faults) }
{
    of_tree(fs.append(path, more))
}

/// Adds the first bytes of a buffer to a file.
pub fn append_front<P: Fs>(
    fs: &mut P,
    path: &AbsPath,
    buffer: &[u8],
    count: usize,
) -> Result<(), RepairFault>
    requires stands { (bytes : List ℕ) × HasAt path.now (λ o. o ≡ Some (file bytes)) (P.seen fs.old).tree }
    requires within { count ≤ length buffer.now }
    ensures ok { (bytes : List ℕ) → HasAt path.now (λ o. o ≡ Some (file bytes)) (P.seen fs.old).tree → OnOk result (HasAt path.now (λ o. o ≡ Some (file (bytes ++ take count buffer.now))) (P.seen fs.new).tree) }
    ensures err { OnErr result (HasAt path.now (λ o. (bytes : List ℕ) × (o ≡ Some (file bytes))) (P.seen fs.new).tree) }
    ensures wrote { WroteAt path.now (P.seen fs.old) (P.seen fs.new) }
    ensures cause { IfErr result (TreeRefused (P.seen fs.old).faults (P.seen fs.new).faults) }
{
    let (front, _) = buffer.split_at(count);
    append(fs, path, front)
}

pub fn link<P: Fs>(fs: &mut P, path: &AbsPath, text: &Text) -> Result<(), RepairFault>
    requires { ForSome (P.seen fs.old).tree (λ t. IsFree t path.now) }
    ensures ok { OnOk result (HasAt path.now (λ o. o ≡ Some (link text.now)) (P.seen fs.new).tree) }
    ensures err { OnErr result (HasAt path.now (λ o. (o ≡ None) ⊎ (o ≡ Some (link text.now))) (P.seen fs.new).tree) }
    ensures wrote { WroteAt path.now (P.seen fs.old) (P.seen fs.new) }
    ensures cause { IfErr result (TreeRefused (P.seen fs.old).faults (P.seen fs.new).faults) }
{
    of_tree(fs.link(path, text))
}

pub fn remove<P: Fs>(fs: &mut P, path: &AbsPath) -> Result<(), RepairFault>
    requires { ForSome (P.seen fs.old).tree (λ t. CanRemove t path.now) }
    ensures ok { OnOk result (HasAt path.now (λ o. o ≡ None) (P.seen fs.new).tree) }
    ensures err { OnErr result (IsAt path.now (λ was o. (o ≡ was) ⊎ (o ≡ None)) (P.seen fs.old).tree (P.seen fs.new).tree) }
    ensures wrote { WroteAt path.now (P.seen fs.old) (P.seen fs.new) }
    ensures cause { IfErr result (TreeRefused (P.seen fs.old).faults (P.seen fs.new).faults) }
{
    of_tree(fs.remove(path))
}

/// A piece of a file from a place on.
pub fn piece<P: ReadFs>(
    fs: &mut P,
    path: &AbsPath,
    at: u64,
    into: &mut [u8],
) -> Result<usize, RepairFault>
    requires stands { ForSome (P.seen fs.old).tree (λ t. IsFile t path.now) }
    requires room { 0 < length into.old }
    ensures within { IfOk result (λ n. n ≤ length into.old) }
    ensures piece { IfSome (P.seen fs.old).tree (λ t. IfOk result (IsPiece (t path.now) at into.new)) }
    ensures kept { Keeps (P.seen fs.old) (P.seen fs.new) }
    ensures gave { IfSome (P.seen fs.old).tree (λ t. IfOk result (λ n. GaveBytes (P.seen fs.old) n (P.seen fs.new))) }
    ensures gave_none { IfSome (P.seen fs.old).tree (λ t. OnErr result (GaveNothing (P.seen fs.old) (P.seen fs.new))) }
    ensures cause { IfErr result (TreeRefused (P.seen fs.old).faults (P.seen fs.new).faults) }
{
    match fs.read_piece(path, at, into) {
        Ok(count) => Ok(count),
        Err(DevFault::Failed) => Err(RepairFault::Fault),
        Err(DevFault::Memory) => Err(RepairFault::Memory),
    }
}

/// The text of a link.
pub fn link_text<P: ReadFs>(fs: &mut P, path: &AbsPath) -> Result<Text, RepairFault>
    requires { ForSome (P.seen fs.old).tree (λ t. IsLink t path.now) }
    ensures text { IfSome (P.seen fs.old).tree (λ t. IfOk result (λ text. t path.now ≡ Some (link text))) }
    ensures kept { Keeps (P.seen fs.old) (P.seen fs.new) }
    ensures gave { IfSome (P.seen fs.old).tree (λ t. GaveNothing (P.seen fs.old) (P.seen fs.new)) }
    ensures cause { IfErr result (TreeRefused (P.seen fs.old).faults (P.seen fs.new).faults) }
{
    match fs.read_link(path) {
        Ok(text) => Ok(text),
        Err(DevFault::Failed) => Err(RepairFault::Fault),
        Err(DevFault::Memory) => Err(RepairFault::Memory),
    }
}

fn of_tree(answer: Result<(), DevFault>) -> Result<(), RepairFault>
    ensures { result ≡ tree_answer answer }
{
    match answer {
        Ok(()) => Ok(()),
        Err(DevFault::Failed) => Err(RepairFault::Fault),
        Err(DevFault::Memory) => Err(RepairFault::Memory),
    }
}
