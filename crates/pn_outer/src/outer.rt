// The outer pairs of instances.
ghost use Rattle.std.specs.Prelude.{◌≡◌, ◌<◌, ◌^◌, ℕ, IfOk, OnOk, length};
ghost use Rattle.std.specs.List.{Contains};
ghost use Rattle.pn_components.specs.Rows.{rows_of};
ghost use Rattle.pn_outer.specs.Founds.{AddsPair, AreNone};
ghost use Rattle.pn_outer.specs.Instances.{AreInRange};
ghost use Rattle.pn_outer.specs.Dependents.{AreDependents};
ghost use Rattle.pn_outer.specs.Outer.{AreOuter};
ghost use Rattle.pn_outer.specs.Provisions.{AreProvided};

use crate::dependents::dependents;
use crate::found::Found;
use crate::instance::{Instance, Link};
use crate::provided::provided_peers;
use crate::spread::spread;
use pn_text::Memory;
use std::alloc::Global;

/// Pairs of a name and its target, and for each instance the numbers of its outer pairs.
#[derive(Drop)]
pub struct Outer {
    pub pairs: Vec<Link>,
    pub rows: Vec<Vec<usize>>,
}

/// The outer pairs of these instances.
pub fn outer_pairs(alloc: Global, instances: &[Instance]) -> Result<Outer, Memory>
    requires few { length instances.now < 2 ^ 32 }
    requires within { AreInRange instances.now }
    ensures { IfOk result (λ outer. AreOuter instances.now outer.pairs.items (rows_of outer.rows.items)) }
{
    let provided = provided_peers(alloc, instances)?;
    let dependents = dependents(alloc, instances)?;
    let rows = numbers(
        alloc,
        instances,
        &provided.pairs,
        &provided.holders,
        &dependents,
    )?;
    Ok(Outer {
        pairs: provided.pairs,
        rows,
    })
}

// For each instance the numbers of its outer pairs.
fn numbers(
    alloc: Global,
    instances: &[Instance],
    pairs: &[Link],
    holders: &[Vec<u32>],
    dependents: &[Vec<u32>],
) -> Result<Vec<Vec<usize>>, Memory>
    requires pairs { length holders.now ≡ length pairs.now }
    requires count { length dependents.now ≡ length instances.now }
    requires provided { AreProvided instances.now pairs.now (rows_of holders.now) }
    requires dependents { AreDependents instances.now (rows_of dependents.now) }
    ensures { IfOk result (λ rows. AreOuter instances.now pairs.now (rows_of rows.items)) }
{
    let mut found = Found::new(alloc, instances.len())?;
    let mut rows = none(alloc, instances.len())?;
    for (p, pair) in pairs.iter().enumerate() {
        let holders = holders[p].as_slice();
        spread(instances, dependents, holders, &pair.name, &mut found)?;
        add(&mut rows, p, &found.order)?;
        found.clear();
    }
    Ok(rows)
}

// No pairs for that many instances.
fn none(alloc: Global, count: usize) -> Result<Vec<Vec<usize>>, Memory>
    ensures count { IfOk result (λ rows. length rows.items ≡ count) }
    ensures none { IfOk result (λ rows. AreNone (rows_of rows.items)) }
{
    let mut rows = Vec::new(alloc);
    for _ in 0..count {
        rows.push(Vec::new(alloc))?;
    }
    Ok(rows)
}

// One more pair of these instances.
fn add(rows: &mut Vec<Vec<usize>>, pair: usize, order: &[u32]) -> Result<(), Memory>
    requires { (k : ℕ) → Contains order.now k → k < length rows.old.items }
    ensures count { length rows.new.items ≡ length rows.old.items }
    ensures adds { OnOk result (AddsPair pair (Contains order.now) (rows_of rows.old.items) (rows_of rows.new.items)) }
{
    for at in order {
        push(rows, pair, *at)?;
    }
    Ok(())
}

// One more pair of an instance.
fn push(rows: &mut Vec<Vec<usize>>, pair: usize, at: u32) -> Result<(), Memory>
    requires { at < length rows.old.items }
    ensures count { length rows.new.items ≡ length rows.old.items }
    ensures adds { OnOk result (AddsPair pair (λ k. k ≡ at) (rows_of rows.old.items) (rows_of rows.new.items)) }
{
    rows[at as usize].push(pair)?;
    Ok(())
}
