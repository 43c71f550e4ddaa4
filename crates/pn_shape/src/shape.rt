// The plain graph of a walk's end.
ghost use Rattle.std.specs.Prelude.{◌≡◌, ◌<◌, IfOk, [], length};
ghost use Rattle.pn_walk.specs.Calls.{at};
ghost use Rattle.pn_shape.specs.Shapes.{IsShape};
ghost use Rattle.pn_shape.specs.Fits.{IsFit};

use crate::lists::DepLists;
use crate::nodes::{packages, projects};
use pn_graph::Plain;
use pn_text::{Memory, ProjIx, Text};
use pn_walk::Queue;
use std::alloc::Global;

/// The plain graph of a walk's end: each project and package with the edges that it asked for and that lead somewhere.
pub fn plain_of(
    alloc: Global,
    root: ProjIx,
    folders: Vec<Text>,
    queue: Queue,
) -> Result<Plain, Memory>
    requires fit { IsFit folders.items (at [] queue) }
    requires root { root.0 < length folders.items }
    ensures shape { IfOk result (λ p. IsShape folders.items (at [] queue) p.projects p.packages) }
    ensures root { IfOk result (λ p. p.root ≡ root) }
{
    let lists = DepLists::of(alloc, folders.len(), queue.nodes.len(), queue.links)?;
    let projects = projects(alloc, folders, lists.projects)?;
    let packages = packages(alloc, queue.nodes, lists.packages)?;
    Ok(Plain::of(root, projects, packages))
}
