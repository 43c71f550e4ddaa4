// All that stands at a path and below it is taken away.
ghost use Rattle.std.specs.Prelude.{◌≡◌, ◌≢◌, ◌≤◌, ◌∷◌, [], None, OnOk, OnErr, IfOk, IfErr, IfSome};
ghost use Rattle.std.specs.Option.{ForSome};
ghost use Rattle.pn_text.specs.Causes.{HasCause};
ghost use Rattle.pn_text.specs.declared.fault.DevFault.TheVariants.{Memory as no_memory};
ghost use Rattle.pn_fs.specs.Tree.{CanRemove};
ghost use Rattle.pn_fs.specs.Calls.{IsEntryName};
ghost use Rattle.pn_replace.specs.Replaces.{ReplaceRefused};
ghost use Rattle.pn_replace.specs.Removes.{Cuts, Removed, HalfRemoved, IsWithin};
ghost use Rattle.pn_replace.specs.Writes.{Touched};

use crate::fault::ReplaceFault;
use pn_fs::{Fs, Kind, ReadFs};
use pn_text::{AbsPath, DevFault};
use std::alloc::Global;

/// Takes away what stands at a path with all below it, if anything does; a link is taken away and not followed. After a
/// refusal some of it may be gone.
pub fn remove_all<P: Fs>(alloc: Global, fs: &mut P, path: &AbsPath) -> Result<(), ReplaceFault>
    requires { path.now ≢ [] }
    ensures ok { OnOk result (Removed path.now (P.seen fs.old).tree (P.seen fs.new).tree) }
    ensures err { OnErr result (HalfRemoved path.now (P.seen fs.old).tree (P.seen fs.new).tree) }
    ensures touched { IfSome (P.seen fs.old).tree (λ t. Touched (IsWithin path.now) (P.seen fs.old) (P.seen fs.new)) }
    ensures later { (P.seen fs.old).faults ≤ (P.seen fs.new).faults }
    ensures fault { IfErr result (ReplaceRefused (P.seen fs.old).faults (P.seen fs.new).faults) }
{
    match cut(alloc, fs, path) {
        Ok(()) => Ok(()),
        Err(DevFault::Failed) => Err(ReplaceFault::Fault),
        Err(DevFault::Memory) => Err(ReplaceFault::Memory),
    }
}

// A folder's entries go before it.
fn cut<P: Fs>(alloc: Global, fs: &mut P, path: &AbsPath) -> Result<(), DevFault>
    requires { path.now ≢ [] }
    ensures cuts { Cuts path.now (P.seen fs.old) (P.seen fs.new) }
    ensures gone { OnOk result (ForSome (P.seen fs.new).tree (λ u. u path.now ≡ None)) }
    ensures cause { HasCause (P.seen fs.old).faults (P.seen fs.new).faults result }
{
    match fs.kind(path)? {
        Kind::Absent => Ok(()),
        Kind::File(_) => remove(fs, path),
        Kind::Link => remove(fs, path),
        Kind::Folder => {
            let names = fs.list(path)?;
            'names: for name in &names {
                let inner = child(alloc, path, name.as_str())?;
                cut(alloc, fs, &inner)?;
            }
            remove(fs, path)
        }
    }
}

fn remove<P: Fs>(fs: &mut P, path: &AbsPath) -> Result<(), DevFault>
    requires { ForSome (P.seen fs.old).tree (λ t. CanRemove t path.now) }
    ensures cuts { Cuts path.now (P.seen fs.old) (P.seen fs.new) }
    ensures gone { OnOk result (ForSome (P.seen fs.new).tree (λ u. u path.now ≡ None)) }
    ensures cause { HasCause (P.seen fs.old).faults (P.seen fs.new).faults result }
{
    fs.remove(path)
}

fn child(alloc: Global, path: &AbsPath, name: &str) -> Result<AbsPath, DevFault>
    requires { IsEntryName path.now name.now }
    ensures path { IfOk result (λ p. p ≡ name.now ∷ path.now) }
    ensures memory { IfErr result (λ e. e ≡ no_memory) }
{
    match path.child(alloc, name) {
        Ok(inner) => Ok(inner),
        Err(_) => Err(DevFault::Memory),
    }
}
