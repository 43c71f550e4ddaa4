// A link.
ghost use Rattle.std.specs.Prelude.{◌≡◌, ◌↔◌, ◌⊎◌, true, OnOk, OnErr, IfOk, IfErr, IfSome, Some, None};
ghost use Rattle.std.specs.Bool.{MatchBool};
ghost use Rattle.std.specs.Option.{ForSome};
ghost use Rattle.pn_digest.specs.declared.planned.Planned.TheVariants.{Link};
ghost use Rattle.pn_fs.specs.declared.kind.Kind.TheVariants as kind;
ghost use Rattle.pn_fs.specs.Tree.{IsLink, IsFree, HasParent, link};
ghost use Rattle.pn_fs.specs.Seen.{Keeps, GaveNothing};
ghost use Rattle.pn_fs.specs.Calls.{kind_of};
ghost use Rattle.pn_repair.specs.Repairs.{IsHalf};
ghost use Rattle.pn_repair.specs.RepairFaults.{TreeRefused};
ghost use Rattle.pn_repair.specs.Writes.{WroteAt, HasAt, IsAt};

use crate::calls::{link, link_text, remove};
use crate::fault::RepairFault;
use pn_fs::{Fs, Kind, ReadFs};
use pn_text::{AbsPath, Text};

/// Whether the link at a path has this text.
pub fn has_link<P: ReadFs>(fs: &mut P, path: &AbsPath, text: &Text) -> Result<bool, RepairFault>
    requires { ForSome (P.seen fs.old).tree (λ t. IsLink t path.now) }
    ensures right { IfSome (P.seen fs.old).tree (λ t. IfOk result (λ yes. MatchBool yes (t path.now ≡ Some (link text.now)) (t path.now ≡ Some (link text.now) → ⊥))) }
    ensures gave { IfSome (P.seen fs.old).tree (λ t. GaveNothing (P.seen fs.old) (P.seen fs.new)) }
    ensures kept { Keeps (P.seen fs.old) (P.seen fs.new) }
    ensures fault { IfErr result (TreeRefused (P.seen fs.old).faults (P.seen fs.new).faults) }
{
    let found = link_text(fs, path)?;
    Ok(is_same(&found, text))
}

fn is_same(one: &Text, other: &Text) -> bool
    ensures { (result ≡ true) ↔ (one.now ≡ other.now) }
{
    one.as_str().as_bytes() == other.as_str().as_bytes()
}

/// Leaves a link with this text where nothing or a link stands.
pub fn write_link<P: Fs>(
    fs: &mut P,
    path: &AbsPath,
    text: &Text,
    found: Kind,
) -> Result<(), RepairFault>
    requires kind { (found ≡ kind.Absent) ⊎ (found ≡ kind.Link) }
    requires found { ForSome (P.seen fs.old).tree (λ t. kind_of (t path.now) ≡ found) }
    requires parent { ForSome (P.seen fs.old).tree (λ t. HasParent t path.now) }
    ensures ok { OnOk result (HasAt path.now (λ o. o ≡ Some (link text.now)) (P.seen fs.new).tree) }
    ensures err { OnErr result (IsAt path.now (IsHalf (Link text.now)) (P.seen fs.old).tree (P.seen fs.new).tree) }
    ensures wrote { WroteAt path.now (P.seen fs.old) (P.seen fs.new) }
    ensures fault { IfErr result (TreeRefused (P.seen fs.old).faults (P.seen fs.new).faults) }
{
    clear(fs, path, found)?;
    link(fs, path, text)
}

// Takes a link away, where one stands.
fn clear<P: Fs>(fs: &mut P, path: &AbsPath, found: Kind) -> Result<(), RepairFault>
    requires kind { (found ≡ kind.Absent) ⊎ (found ≡ kind.Link) }
    requires found { ForSome (P.seen fs.old).tree (λ t. kind_of (t path.now) ≡ found) }
    requires parent { ForSome (P.seen fs.old).tree (λ t. HasParent t path.now) }
    ensures ok { OnOk result (ForSome (P.seen fs.new).tree (λ t. IsFree t path.now)) }
    ensures err { OnErr result (IsAt path.now (λ was o. (o ≡ was) ⊎ (o ≡ None)) (P.seen fs.old).tree (P.seen fs.new).tree) }
    ensures wrote { WroteAt path.now (P.seen fs.old) (P.seen fs.new) }
    ensures fault { IfErr result (TreeRefused (P.seen fs.old).faults (P.seen fs.new).faults) }
{
    match found {
        Kind::Link => remove(fs, path),
        _ => Ok(()),
    }
}
