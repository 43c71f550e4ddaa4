// The edge at which a walk stops.
ghost use Rattle.std.specs.Prelude.{◌≡◌, IfOk};
ghost use Rattle.pn_walk.specs.Edges.{IsNamed};

use crate::fault::WalkFault;
use crate::wish::Wish;
use pn_text::{Edge, Memory, Text};
use std::alloc::Global;

/// The refusal of an edge, which it names.
pub fn refused<F: Drop>(alloc: Global, from: &str, wish: &Wish, fault: F) -> WalkFault<F>
    ensures { IsNamed from.now wish.now fault result }
{
    match edge(alloc, from, wish) {
        Ok(edge) => WalkFault::Ways(edge, fault),
        Err(Memory) => WalkFault::Memory,
    }
}

fn edge(alloc: Global, from: &str, wish: &Wish) -> Result<Edge, Memory>
    ensures from { IfOk result (λ e. e.from ≡ from.now) }
    ensures alias { IfOk result (λ e. e.alias ≡ wish.now.alias) }
    ensures specifier { IfOk result (λ e. e.specifier ≡ wish.now.specifier) }
{
    let from = Text::of(alloc, from)?;
    let alias = wish.alias.copy(alloc)?;
    let specifier = wish.specifier.copy(alloc)?;
    Ok(Edge {
        from,
        alias,
        specifier,
    })
}
