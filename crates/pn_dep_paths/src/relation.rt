// The outer relation, which leads from an instance to those that its outer pairs lead to.
ghost use Rattle.std.specs.Prelude.{◌<◌, ◌^◌, IfOk, length};
ghost use Rattle.pn_components.specs.Rows.{rows_of};
ghost use Rattle.pn_outer.specs.Instances.{AreInRange, ArePeersThere};
ghost use Rattle.pn_outer.specs.Outer.{AreOuter};
ghost use Rattle.pn_dep_paths.specs.Relation.{AreRanks};

use crate::edges::edges;
use pn_components::components;
use pn_outer::{Instance, Outer, outer_pairs};
use pn_text::Memory;
use std::alloc::Global;

/// The outer pairs of instances, and the number of each instance's component, targets first.
#[derive(Drop)]
pub(crate) struct Relation {
    pub outer: Outer,
    pub numbers: Vec<u32>,
}

/// The outer relation of these instances, whose peers are among them or among that many projects.
pub(crate) fn outer_relation(
    alloc: Global,
    instances: &[Instance],
    projects: usize,
) -> Result<Relation, Memory>
    requires few { length instances.now < 2 ^ 32 }
    requires within { AreInRange instances.now }
    requires peers { ArePeersThere projects instances.now }
    ensures outer { IfOk result (λ r. AreOuter instances.now r.outer.pairs.items (rows_of r.outer.rows.items)) }
    ensures ranks { IfOk result (λ r. AreRanks instances.now r.numbers.items) }
{
    let outer = outer_pairs(alloc, instances)?;
    let edges = edges(alloc, &outer.pairs, &outer.rows)?;
    let numbers = components(alloc, instances.len() as u32, &edges)?;
    Ok(Relation { outer, numbers })
}
