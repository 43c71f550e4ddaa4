// The fields of a node.
ghost use Rattle.std.specs.Prelude.{◌≡◌, IfOk, IfErr, Ok, option_map};
ghost use Rattle.pn_yaml.specs.Data.{map};
ghost use Rattle.pn_lock_shape.specs.Answers.{Fails, Reads};
ghost use Rattle.pn_lock_shape.specs.Bare.{tree, tree_items, tree_members};
ghost use Rattle.pn_lock_shape.specs.Shapes.{get, items_in, members_in, optional, required, text_in, truth_in, truth_of};

use crate::fault::ShapeFault;
use pn_text::Text;
use pn_yaml::{Node, Scalar};
use std::alloc::Global;

/// The entries of a map.
pub(crate) fn members(alloc: Global, node: &Node) -> Result<&[(Text, Node)], ShapeFault>
    ensures ok { IfOk result (λ ms. tree node.now ≡ map (tree_members ms.now)) }
    ensures fault { IfErr result (λ e. Fails e (members_in (tree node.now))) }
{
    match node {
        Node::Map(members) => Ok(members.as_slice()),
        Node::List(_) => Err(ShapeFault::here(alloc)),
        Node::Scalar(_) => Err(ShapeFault::here(alloc)),
    }
}

/// The items of a list.
pub(crate) fn items(alloc: Global, node: &Node) -> Result<&[Node], ShapeFault>
    ensures ok { IfOk result (λ ns. items_in (tree node.now) ≡ Ok (tree_items ns.now)) }
    ensures fault { IfErr result (λ e. Fails e (items_in (tree node.now))) }
{
    match node {
        Node::List(items) => Ok(items.as_slice()),
        Node::Map(_) => Err(ShapeFault::here(alloc)),
        Node::Scalar(_) => Err(ShapeFault::here(alloc)),
    }
}

/// A scalar's text.
pub(crate) fn text(alloc: Global, node: &Node) -> Result<&Text, ShapeFault>
    ensures ok { IfOk result (λ t. text_in (tree node.now) ≡ Ok t.now) }
    ensures fault { IfErr result (λ e. Fails e (text_in (tree node.now))) }
{
    match node {
        Node::Scalar(scalar) => Ok(&scalar.text),
        Node::List(_) => Err(ShapeFault::here(alloc)),
        Node::Map(_) => Err(ShapeFault::here(alloc)),
    }
}

/// `true` or `false`, plain.
pub(crate) fn truth(alloc: Global, node: &Node) -> Result<bool, ShapeFault>
    ensures { Reads result (truth_in (tree node.now)) }
{
    match node {
        Node::Scalar(scalar) => truth_of(alloc, scalar),
        Node::List(_) => Err(ShapeFault::here(alloc)),
        Node::Map(_) => Err(ShapeFault::here(alloc)),
    }
}

fn truth_of(alloc: Global, scalar: &Scalar) -> Result<bool, ShapeFault>
    ensures { Reads result (truth_of scalar.now.text scalar.now.plain) }
{
    if !scalar.plain {
        return Err(ShapeFault::here(alloc));
    }
    match scalar.text.as_str() {
        "true" => Ok(true),
        "false" => Ok(false),
        _ => Err(ShapeFault::here(alloc)),
    }
}

/// The value of a key.
pub(crate) fn field<'a>(members: &'a [(Text, Node)], key: &str) -> Option<&'a Node>
    ensures { option_map (λ n. tree n.now) result ≡ get key.now (tree_members members.now) }
{
    for (name, node) in members {
        if name.as_str() == key {
            return Some(node);
        }
    }
    None
}

/// A text that has to be there.
pub(crate) fn required_text(
    alloc: Global,
    members: &[(Text, Node)],
    key: &str,
) -> Result<Text, ShapeFault>
    ensures { Reads result (required key.now text_in (tree_members members.now)) }
{
    let Some(node) = field(members, key) else {
        return Err(ShapeFault::here(alloc).within(alloc, key));
    };
    match text(alloc, node) {
        Ok(text) => Ok(text.copy(alloc)?),
        Err(fault) => Err(fault.within(alloc, key)),
    }
}

/// A truth value, or another one where it isn't there.
pub(crate) fn optional_truth(
    alloc: Global,
    members: &[(Text, Node)],
    key: &str,
    other: bool,
) -> Result<bool, ShapeFault>
    ensures { Reads result (optional key.now truth_in other (tree_members members.now)) }
{
    let Some(node) = field(members, key) else {
        return Ok(other);
    };
    match truth(alloc, node) {
        Ok(value) => Ok(value),
        Err(fault) => Err(fault.within(alloc, key)),
    }
}
