// The packages of a graph without their files.
ghost use Rattle.std.specs.Prelude.{◌≡◌, ◌++◌, ◌∷◌, [], IfOk, OnOk, IsSorted, IsPermutation, length, map, true};
ghost use Rattle.std.specs.Cmp.Lexicographic.{slice_cmp};
ghost use Rattle.std.specs.List.{All};
ghost use Rattle.std.specs.Ordering.{nat_cmp};
ghost use Rattle.pn_graph.specs.Graphs.{are_deps};
ghost use Rattle.pn_collect.specs.Outline.{bare_of, bare_id, IsSoundBare};

use crate::links::links;
use pn_graph::{Package as Node, Plain};
use pn_package::Links;
use pn_text::{Memory, PkgId};
use std::alloc::Global;
use std::cmp::Ordering;

/// A package without its files: its id, and its links.
#[derive(Drop)]
pub struct Bare {
    pub id: PkgId,
    pub links: Links,
}

/// The packages of a graph, in byte order of ids.
pub fn bare_by_id(alloc: Global, plain: &Plain) -> Result<Vec<Bare>, Memory>
    ensures same { IfOk result (λ v. IsPermutation (map (bare_of plain.now.packages) plain.now.packages) v.items) }
    ensures sorted { IfOk result (λ v. IsSorted (slice_cmp nat_cmp) (map bare_id v.items)) }
    ensures sound { IfOk result (λ v. All IsSoundBare v.items) }
{
    let all = as_met(alloc, plain)?;
    in_order(all)
}

// The packages of a graph, in the order in which they were met.
fn as_met(alloc: Global, plain: &Plain) -> Result<Vec<Bare>, Memory>
    ensures same { IfOk result (λ v. v.items ≡ map (bare_of plain.now.packages) plain.now.packages) }
    ensures sound { IfOk result (λ v. All IsSoundBare v.items) }
{
    let mut all = Vec::new(alloc);
    for node in plain.packages.as_slice() {
        let one = bare_node(alloc, plain, node)?;
        add(&mut all, one)?;
    }
    Ok(all)
}

fn bare_node(alloc: Global, plain: &Plain, node: &Node) -> Result<Bare, Memory>
    requires { are_deps (length plain.now.projects) (length plain.now.packages) node.now.deps ≡ true }
    ensures same { IfOk result (λ b. b ≡ bare_of plain.now.packages node.now) }
    ensures sound { IfOk result IsSoundBare }
{
    let links = links(alloc, plain, node.deps.as_slice())?;
    let id = node.id.copy(alloc)?;
    let _ = id.as_str(); // a name and a version
    Ok(Bare { id, links })
}

fn in_order(mut all: Vec<Bare>) -> Result<Vec<Bare>, Memory>
    ensures permutation { IfOk result (λ v. IsPermutation all.items v.items) }
    ensures sorted { IfOk result (λ v. IsSorted (slice_cmp nat_cmp) (map bare_id v.items)) }
{
    all.sort_by(|a, b| by_id(a, b))?;
    Ok(all)
}

fn by_id(a: &Bare, b: &Bare) -> Ordering
    ensures { result ≡ slice_cmp nat_cmp a.now.id b.now.id }
{
    a.id.cmp(&b.id)
}

fn add(all: &mut Vec<Bare>, one: Bare) -> Result<(), Memory>
    ensures { OnOk result (all.new.items ≡ all.old.items ++ one ∷ []) }
{
    match all.push(one) {
        Ok(()) => Ok(()),
        Err(_) => Err(Memory),
    }
}
