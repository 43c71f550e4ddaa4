// Who depends on each instance.
ghost use Rattle.std.specs.Prelude.{◌≡◌, ◌<◌, ◌++◌, ◌^◌, ℕ, IfOk, OnOk, length};
ghost use Rattle.pn_components.specs.Rows.{rows_of};
ghost use Rattle.pn_outer.specs.Instances.{AreInRange};
ghost use Rattle.pn_outer.specs.Dependents.{AreDependents, edges_of};

use crate::instance::{Goal, Instance, Link};
use pn_components::targets;
use pn_text::Memory;
use std::alloc::Global;

/// For each instance those that depend on it.
pub(crate) fn dependents(alloc: Global, instances: &[Instance]) -> Result<Vec<Vec<u32>>, Memory>
    requires few { length instances.now < 2 ^ 32 }
    requires within { AreInRange instances.now }
    ensures count { IfOk result (λ rows. length rows.items ≡ length instances.now) }
    ensures rows { IfOk result (λ rows. AreDependents instances.now (rows_of rows.items)) }
{
    let mut edges = Vec::new(alloc);
    for (i, instance) in instances.iter().enumerate() {
        push_edges(&mut edges, i as u32, instance.deps.as_slice())?;
    }
    let rows = targets(alloc, instances.len() as u32, &edges)?;
    Ok(rows)
}

// The links from an instance to others, turned round.
fn push_edges(edges: &mut Vec<(u32, u32)>, from: u32, links: &[Link]) -> Result<(), Memory>
    ensures { OnOk result (edges.new.items ≡ edges.old.items ++ edges_of from links.now) }
{
    for link in links {
        if let Goal::Inst(to) = link.to {
            edges.push((to.0, from))?;
        }
    }
    Ok(())
}
