// What dependencies lead to.
ghost use Rattle.std.specs.Prelude.{◌<◌, IfOk, length};
ghost use Rattle.pn_graph.specs.Reaches.{IsReach};

use crate::explored::explore;
use crate::found::places;
use crate::plain::Plain;
use pn_text::{Memory, PkgIx};
use std::alloc::Global;

/// The packages that dependencies lead to from a package, itself included, and never through a project. They rise.
pub fn reach(alloc: Global, p: &Plain, from: PkgIx) -> Result<Vec<PkgIx>, Memory>
    requires { from.0 < length p.now.packages }
    ensures { IfOk result (λ found. IsReach p.now.packages from.0 found.items) }
{
    let packages = p.packages.as_slice();
    let found = explore(alloc, packages, from.0, None)?;
    places(alloc, &found.seen)
}
