// Real paths.
ghost use Rattle.std.specs.Prelude.{◌≡◌, IfOk, IfSome};
ghost use Rattle.pn_text.specs.Causes.{HasCause};
ghost use Rattle.pn_fs.specs.Seen.{Keeps};
ghost use Rattle.pn_node.specs.Find.{real};

use crate::walk::Walk;
use pn_fs::ReadFs;
use pn_text::{AbsPath, DevFault};
use std::alloc::Global;

/// How many links are followed.
pub const LINKS: u64 = 40;

/// The real path of a path, over at most 40 links, or none: where an entry is missing, where a file has further parts,
/// or where a 41st link is met. `Failed` comes only where the count of faults rose.
pub fn real<R: ReadFs>(
    alloc: Global,
    fs: &mut R,
    path: &AbsPath,
) -> Result<Option<AbsPath>, DevFault>
    ensures real { IfSome (R.seen fs.old).tree (λ t. IfOk result (λ found. found ≡ real t path.now)) }
    ensures kept { Keeps (R.seen fs.old) (R.seen fs.new) }
    ensures cause { HasCause (R.seen fs.old).faults (R.seen fs.new).faults result }
{
    let mut walk = Walk::new(alloc, AbsPath::root(alloc)?);
    walk.put(alloc, path.as_str())?;
    walk.finish(alloc, fs, LINKS)
}
