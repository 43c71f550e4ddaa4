// The edges of the outer relation.
ghost use Rattle.std.specs.Prelude.{◌≡◌, ◌<◌, ◌++◌, ◌^◌, ℕ, [], IfOk, OnOk, length, get_or, slice_get, Some};
ghost use Rattle.pn_components.specs.Rows.{rows_of};
ghost use Rattle.pn_dep_paths.specs.Steps.{ArePairs, edge_to, edges_from, row_edges};

use pn_outer::{Goal, Link};
use pn_text::Memory;
use std::alloc::Global;

/// An edge from each instance to each instance that one of its pairs leads to.
pub(crate) fn edges(
    alloc: Global,
    pairs: &[Link],
    rows: &[Vec<usize>],
) -> Result<Vec<(u32, u32)>, Memory>
    requires few { length rows.now < 2 ^ 32 }
    requires pairs { (i : ℕ) → ArePairs pairs.now (get_or (rows_of rows.now) i []) }
    ensures { IfOk result (λ edges. edges.items ≡ edges_from pairs.now 0 (rows_of rows.now)) }
{
    let mut edges = Vec::new(alloc);
    for i in 0..rows.len() {
        push_edges(&mut edges, pairs, i as u32, row_at(rows, i))?;
    }
    Ok(edges)
}

fn push_edges(
    edges: &mut Vec<(u32, u32)>,
    pairs: &[Link],
    from: u32,
    row: &[usize],
) -> Result<(), Memory>
    requires { ArePairs pairs.now row.now }
    ensures { OnOk result (edges.new.items ≡ edges.old.items ++ row_edges pairs.now from row.now) }
{
    for p in row {
        push_edge(edges, from, pair_at(pairs, *p).to)?;
    }
    Ok(())
}

fn push_edge(edges: &mut Vec<(u32, u32)>, from: u32, to: Goal) -> Result<(), Memory>
    ensures { OnOk result (edges.new.items ≡ edges.old.items ++ edge_to from to) }
{
    if let Goal::Inst(to) = to {
        edges.push((from, to.0))?;
    }
    Ok(())
}

/// The numbers of an instance's pairs.
pub(crate) fn row_at(rows: &[Vec<usize>], i: usize) -> &[usize]
    requires { i < length rows.now }
    ensures { result.now ≡ get_or (rows_of rows.now) i [] }
{
    rows[i].as_slice()
}

/// The pair of a number.
pub(crate) fn pair_at(pairs: &[Link], p: usize) -> &Link
    requires { p < length pairs.now }
    ensures { slice_get pairs.now p ≡ Some result.now }
{
    &pairs[p]
}
