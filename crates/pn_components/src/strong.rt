// The components of a graph.
ghost use Rattle.std.specs.Prelude.{◌≡◌, ◌<◌, IfOk, map};
ghost use Rattle.std.specs.List.{All};
ghost use Rattle.pn_components.specs.Graphs.{AreComponents, Edges};
ghost use Rattle.pn_components.specs.Walks.{number_of};

use crate::rows::targets;
use crate::walk::{Mark, Walk};
use pn_text::Memory;
use std::alloc::Global;

/// The number of each place's strong component, for that many places and the edges between them, each from one place to
/// another. Components are numbered from 0, targets first.
pub fn components(alloc: Global, count: u32, edges: &[(u32, u32)]) -> Result<Vec<u32>, Memory>
    requires { All (λ e. (e.0 < count) × (e.1 < count)) edges.now }
    ensures { IfOk result (λ numbers. AreComponents count edges.now numbers.items) }
{
    let rows = targets(alloc, count, edges)?;
    let mut walk = Walk::new(alloc, rows)?;
    for root in 0..count {
        walk.visit(root)?;
    }
    numbers(alloc, &walk.marks)
}

// The numbers that places are marked with.
fn numbers(alloc: Global, marks: &[Mark]) -> Result<Vec<u32>, Memory>
    ensures { IfOk result (λ v. v.items ≡ map number_of marks.now) }
{
    let mut all = Vec::new(alloc);
    for mark in marks {
        all.push(number_of(*mark))?;
    }
    Ok(all)
}

fn number_of(mark: Mark) -> u32
    ensures { result ≡ number_of mark }
{
    match mark {
        Mark::Done(number) => number,
        Mark::New => 0,
        Mark::Open(_) => 0,
    }
}
