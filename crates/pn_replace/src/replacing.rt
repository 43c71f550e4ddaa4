// One file takes the place of another by a rename.
ghost use Rattle.std.specs.Prelude.{◌≡◌, ◌≢◌, ◌⊎◌, ◌≤◌, OnOk, OnErr, IfErr, IfSome};
ghost use Rattle.std.specs.Option.{ForSome};
ghost use Rattle.pn_text.specs.Causes.{HasCause};
ghost use Rattle.pn_fs.specs.Tree.{CanCreate};
ghost use Rattle.pn_fs.specs.Seen.{GaveNothing};
ghost use Rattle.pn_replace.specs.Replaces.{told_replaced, IsHalfReplaced, ReplaceRefused};
ghost use Rattle.pn_replace.specs.Writes.{Touched, WroteTold};

use crate::fault::ReplaceFault;
use pn_fs::{Fs, ReadFs};
use pn_text::{AbsPath, DevFault};

/// Replaces a file, or makes it, by one rename of a temporary file. After a refusal what stood there still stands, or the
/// new bytes do, and elsewhere only the temporary path may differ.
pub fn replace<P: Fs>(
    fs: &mut P,
    path: &AbsPath,
    temp: &AbsPath,
    bytes: &[u8],
) -> Result<(), ReplaceFault>
    requires differ { path.now ≢ temp.now }
    requires target { ForSome (P.seen fs.old).tree (λ t. CanCreate t path.now) }
    requires free { ForSome (P.seen fs.old).tree (λ t. CanCreate t temp.now) }
    ensures ok { OnOk result ((P.seen fs.new).tree ≡ told_replaced (P.seen fs.old).tree path.now temp.now bytes.now) }
    ensures err { OnErr result (IsHalfReplaced path.now temp.now bytes.now (P.seen fs.old).tree (P.seen fs.new).tree) }
    ensures touched { IfSome (P.seen fs.old).tree (λ t. Touched (λ p. (p ≡ path.now) ⊎ (p ≡ temp.now)) (P.seen fs.old) (P.seen fs.new)) }
    ensures gave { IfSome (P.seen fs.old).tree (λ t. GaveNothing (P.seen fs.old) (P.seen fs.new)) }
    ensures later { (P.seen fs.old).faults ≤ (P.seen fs.new).faults }
    ensures fault { IfErr result (ReplaceRefused (P.seen fs.old).faults (P.seen fs.new).faults) }
{
    match write_and_move(fs, path, temp, bytes) {
        Ok(()) => Ok(()),
        Err(DevFault::Failed) => Err(ReplaceFault::Fault),
        Err(DevFault::Memory) => Err(ReplaceFault::Memory),
    }
}

fn write_and_move<P: Fs>(
    fs: &mut P,
    path: &AbsPath,
    temp: &AbsPath,
    bytes: &[u8],
) -> Result<(), DevFault>
    requires differ { path.now ≢ temp.now }
    requires target { ForSome (P.seen fs.old).tree (λ t. CanCreate t path.now) }
    requires free { ForSome (P.seen fs.old).tree (λ t. CanCreate t temp.now) }
    ensures ok { OnOk result ((P.seen fs.new).tree ≡ told_replaced (P.seen fs.old).tree path.now temp.now bytes.now) }
    ensures err { OnErr result (IsHalfReplaced path.now temp.now bytes.now (P.seen fs.old).tree (P.seen fs.new).tree) }
    ensures wrote { ForSome (P.seen fs.old).tree (λ t. WroteTold (λ p. (p ≡ path.now) ⊎ (p ≡ temp.now)) t (P.seen fs.old) (P.seen fs.new)) }
    ensures cause { HasCause (P.seen fs.old).faults (P.seen fs.new).faults result }
{
    fs.create(temp)?;
    fs.append(temp, bytes)?;
    fs.rename(temp, path)
}
