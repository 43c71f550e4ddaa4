// The targets of each place.
ghost use Rattle.std.specs.Prelude.{◌≡◌, ◌<◌, ◌++◌, ◌∷◌, [], IfOk, OnOk, length, get_or, slice_set};
ghost use Rattle.std.specs.List.{All};
ghost use Rattle.pn_components.specs.Rows.{AreRows, rows_of, Adds};

use pn_text::Memory;
use std::alloc::Global;

/// The targets of each of that many places, by edges that begin at them.
pub fn targets(alloc: Global, count: u32, edges: &[(u32, u32)]) -> Result<Vec<Vec<u32>>, Memory>
    requires { All (λ e. e.0 < count) edges.now }
    ensures count { IfOk result (λ rows. length rows.items ≡ count) }
    ensures rows { IfOk result (λ rows. AreRows edges.now (rows_of rows.items)) }
{
    let mut rows = empty(alloc, count)?;
    for edge in edges {
        add(&mut rows, edge.0, edge.1)?;
    }
    Ok(rows)
}

// That many places without targets.
fn empty(alloc: Global, count: u32) -> Result<Vec<Vec<u32>>, Memory>
    ensures count { IfOk result (λ rows. length rows.items ≡ count) }
    ensures rows { IfOk result (λ rows. AreRows [] (rows_of rows.items)) }
{
    let mut rows = Vec::new(alloc);
    for _ in 0..count {
        rows.push(Vec::new(alloc))?;
    }
    Ok(rows)
}

// One more target of a place.
fn add(rows: &mut Vec<Vec<u32>>, from: u32, to: u32) -> Result<(), Memory>
    requires { from < length rows.old.items }
    ensures { OnOk result (Adds from to (rows_of rows.old.items) (rows_of rows.new.items)) }
{
    rows[from as usize].push(to)?;
    Ok(())
}
