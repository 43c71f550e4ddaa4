// A lockfile written over what stands there.
ghost use Rattle.std.specs.Prelude.{◌≡◌, ◌⊎◌, ◌≤◌, OnOk, OnErr, IfErr, IfSome};
ghost use Rattle.std.specs.Option.{ForSome};
ghost use Rattle.pn_fs.specs.Tree.{CanCreate};
ghost use Rattle.pn_replace.specs.Removes.{IsWithin};
ghost use Rattle.pn_replace.specs.Replaces.{ReplaceRefused};
ghost use Rattle.pn_replace.specs.Writes.{Touched};
ghost use Rattle.pn_lockfile.specs.Rewrites.{AreBeside, HalfRewritten, Rewritten};

use pn_fs::{Fs, ReadFs};
use pn_replace::{ReplaceFault, remove_all, replace};
use pn_text::AbsPath;
use std::alloc::Global;

/// Writes a file by one rename of a temporary file beside it. What stands at the temporary path is taken away before, with
/// all below it. After a refusal the file is as before or has the new bytes, and elsewhere only what stood at or below the
/// temporary path may differ.
pub fn write_lockfile<P: Fs>(
    alloc: Global,
    fs: &mut P,
    path: &AbsPath,
    temp: &AbsPath,
    bytes: &[u8],
) -> Result<(), ReplaceFault>
    requires beside { AreBeside path.now temp.now }
    requires target { ForSome (P.seen fs.old).tree (λ t. CanCreate t path.now) }
    ensures ok { OnOk result (Rewritten path.now temp.now bytes.now (P.seen fs.old).tree (P.seen fs.new).tree) }
    ensures err { OnErr result (HalfRewritten path.now temp.now bytes.now (P.seen fs.old).tree (P.seen fs.new).tree) }
    ensures touched { IfSome (P.seen fs.old).tree (λ t. Touched (λ q. (q ≡ path.now) ⊎ IsWithin temp.now q) (P.seen fs.old) (P.seen fs.new)) }
    ensures later { (P.seen fs.old).faults ≤ (P.seen fs.new).faults }
    ensures fault { IfErr result (ReplaceRefused (P.seen fs.old).faults (P.seen fs.new).faults) }
{
    remove_all(alloc, fs, temp)?;
    replace(fs, path, temp, bytes)
}
