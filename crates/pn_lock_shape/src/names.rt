// Package names.
ghost use Rattle.std.specs.Prelude.{◌≡◌, [], codes};
ghost use Rattle.pn_text.specs.Name.{is_name};
ghost use Rattle.pn_lock_shape.specs.Answers.{Reads, ReadsVec};
ghost use Rattle.pn_lock_shape.specs.Bare.{tree, tree_items, tree_members};
ghost use Rattle.pn_lock_shape.specs.Keys.{rising};
ghost use Rattle.pn_lock_shape.specs.Reading.{name_in, names_in, transitive_in};
ghost use Rattle.pn_lock_shape.specs.Shapes.{optional, when};

use crate::fault::ShapeFault;
use crate::fields::{field, items, text};
use crate::keyed::sorted;
use pn_text::{NameFault, PkgName, Text};
use pn_yaml::Node;
use sqlite_items::Items;
use std::alloc::Global;
use std::cmp::Ordering;

/// A package name.
pub(crate) fn read_name(alloc: Global, name: &str) -> Result<PkgName, ShapeFault>
    ensures { Reads result (when (is_name name.now) name.now) }
{
    match PkgName::read(alloc, name) {
        Ok(name) => Ok(name),
        Err(NameFault::Memory) => Err(ShapeFault::Memory),
        Err(_) => Err(ShapeFault::here(alloc)),
    }
}

fn name_of(alloc: Global, node: &Node) -> Result<PkgName, ShapeFault>
    ensures { Reads result (name_in (tree node.now)) }
{
    let name = text(alloc, node)?;
    read_name(alloc, name.as_str())
}

fn names_of(alloc: Global, nodes: &[Node]) -> Result<Vec<PkgName>, ShapeFault>
    ensures { ReadsVec result (names_in (tree_items nodes.now)) }
{
    let mut names = Vec::new(alloc);
    for node in nodes {
        names.push(name_of(alloc, node)?)?;
    }
    Ok(names)
}

// The names in a list, in byte order.
fn read_transitive(alloc: Global, node: &Node) -> Result<Items<PkgName>, ShapeFault>
    ensures { Reads result (transitive_in (tree node.now)) }
{
    let nodes = items(alloc, node)?;
    let names = names_of(alloc, nodes)?;
    let ordered = sorted(names)?;
    if !rises(ordered.as_slice()) {
        return Err(ShapeFault::here(alloc));
    }
    Ok(ordered)
}

// Whether each of these is before the next one.
fn rises(names: &[PkgName]) -> bool
    ensures { result ≡ rising names.now }
{
    let mut left = names;
    'names: loop {
        let Some((first, rest)) = left.split_first() else {
            return true;
        };
        let Some(next) = rest.first() else {
            return true;
        };
        if first.as_str().cmp(next.as_str()) != Ordering::Less {
            return false;
        }
        left = rest;
    }
}

/// The names under `transitivePeerDependencies`, where it stands.
pub(crate) fn optional_transitive(
    alloc: Global,
    fields: &[(Text, Node)],
) -> Result<Items<PkgName>, ShapeFault>
    ensures { Reads result (optional (codes "transitivePeerDependencies") transitive_in [] (tree_members fields.now)) }
{
    let Some(node) = field(fields, "transitivePeerDependencies") else {
        return Ok(Items::new(alloc));
    };
    match read_transitive(alloc, node) {
        Ok(names) => Ok(names),
        Err(fault) => Err(fault.within(alloc, "transitivePeerDependencies")),
    }
}
