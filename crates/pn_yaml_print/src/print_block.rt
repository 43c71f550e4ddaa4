// Data as a text of blocks.
ghost use Rattle.std.specs.Prelude.{false, ◌≡◌, ◌+◌, ◌*◌, ◌≤◌, ◌++◌, IfOk, OnOk};
ghost use Rattle.std.specs.Str.{is_utf8};
ghost use Rattle.pn_yaml.specs.Blocks.{says};
ghost use Rattle.pn_yaml.specs.Data.{depth, map, members_depth};
ghost use Rattle.pn_yaml_print.specs.Laws.{IsPrintable};
ghost use Rattle.pn_yaml_print.specs.Levels.{level_of, list_lines};
ghost use Rattle.pn_yaml_print.specs.Printing.{below, gap, is_flow_key, item_text, items_lines, key_text, marked, members_lines, printed, value_lines};
ghost use Rattle.pn_yaml.specs.View.{view, items_view, members_view};

use crate::level::{Level, below, is_flow_key, spaces};
use crate::print_flow::{push_flow_list, push_flow_map, push_key};
use crate::word::push_word;
use pn_text::{Memory, Text};
use pn_yaml::Node;
use std::alloc::Global;

// An item of a block list behind its `-`.
fn push_item(out: &mut Vec<u8>, node: &Node) -> Result<(), Memory>
    ensures text { OnOk result (out.new.items ≡ out.old.items ++ item_text (view node.now)) }
    ensures utf8 { OnOk result (is_utf8 out.new.items ≡ is_utf8 out.old.items) }
{
    match node {
        Node::Scalar(scalar) => push_word(out, false, scalar.text.as_str(), scalar.plain),
        Node::List(items) => push_flow_list(out, items.as_slice()),
        Node::Map(members) => push_flow_map(out, members.as_slice()),
    }
}

// The lines of a block list.
#[tactic(auto, using(crate::proofs::PrintedUtf8::utf8_ascii, crate::proofs::PrintedUtf8::utf8_spaces))]
fn push_items(out: &mut Vec<u8>, indent: usize, items: &[Node]) -> Result<(), Memory>
    requires { indent ≤ 128 }
    ensures text { OnOk result (out.new.items ≡ out.old.items
        ++ items_lines indent (items_view items.now)) }
    ensures utf8 { OnOk result (is_utf8 out.new.items ≡ is_utf8 out.old.items) }
{
    for item in items {
        out.extend_from_slice(spaces(indent))?;
        out.extend_from_slice(b"- ")?;
        push_item(out, item)?;
        out.push(b'\n')?;
    }
    Ok(())
}

// What stands behind a key's colon, with the lines below, of a list.
#[tactic(auto, using(crate::proofs::PrintedUtf8::utf8_ascii))]
fn push_list(out: &mut Vec<u8>, indent: usize, items: &[Node]) -> Result<(), Memory>
    requires { 2 + indent ≤ 128 }
    ensures text { OnOk result (out.new.items ≡ out.old.items
        ++ list_lines indent (items_view items.now)) }
    ensures utf8 { OnOk result (is_utf8 out.new.items ≡ is_utf8 out.old.items) }
{
    if items.is_empty() {
        out.extend_from_slice(b" []\n")?;
        return Ok(());
    }
    out.push(b'\n')?;
    push_items(out, 2 + indent, items)
}

// An empty line, where one stands before a member.
#[tactic(auto, using(crate::proofs::PrintedUtf8::utf8_ascii))]
fn push_gap(out: &mut Vec<u8>, level: Level) -> Result<(), Memory>
    ensures text { OnOk result (out.new.items ≡ out.old.items ++ gap (level_of level)) }
    ensures utf8 { OnOk result (is_utf8 out.new.items ≡ is_utf8 out.old.items) }
{
    if level != Level::Dense {
        out.push(b'\n')?;
    }
    Ok(())
}

// What stands behind a key's colon, with the lines below.
#[tactic(auto, using(crate::proofs::PrintedUtf8::utf8_ascii))]
#[cycle(lines)]
fn push_value(
    out: &mut Vec<u8>,
    level: Level,
    flow: bool,
    indent: usize,
    node: &Node,
) -> Result<(), Memory>
    requires { indent + 2 * depth (view node.now) ≤ 128 }
    ensures text { OnOk result (out.new.items ≡ out.old.items
        ++ value_lines (level_of level) flow indent (view node.now)) }
    ensures utf8 { OnOk result (is_utf8 out.new.items ≡ is_utf8 out.old.items) }
{
    match node {
        Node::Scalar(scalar) => {
            out.push(b' ')?;
            push_word(out, false, scalar.text.as_str(), scalar.plain)?;
            out.push(b'\n')?;
            Ok(())
        }
        Node::List(items) => push_list(out, indent, items.as_slice()),
        Node::Map(members) => push_map(out, level, flow, indent, members.as_slice()),
    }
}

// The same of a map, in braces on the line where that is asked for.
#[tactic(auto, using(crate::proofs::PrintedUtf8::utf8_ascii))]
#[cycle(lines)]
fn push_map(
    out: &mut Vec<u8>,
    level: Level,
    flow: bool,
    indent: usize,
    members: &[(Text, Node)],
) -> Result<(), Memory>
    requires { 2 + indent + 2 * members_depth (members_view members.now) ≤ 128 }
    ensures text { OnOk result (out.new.items ≡ out.old.items
        ++ value_lines (level_of level) flow indent (map (members_view members.now))) }
    ensures utf8 { OnOk result (is_utf8 out.new.items ≡ is_utf8 out.old.items) }
{
    if flow || members.is_empty() {
        out.push(b' ')?;
        push_flow_map(out, members)?;
        out.push(b'\n')?;
        return Ok(());
    }
    out.push(b'\n')?;
    push_members(out, level, 2 + indent, members)
}

// The lines of the members of a block map.
#[tactic(auto, using(crate::proofs::PrintedUtf8::utf8_ascii, crate::proofs::PrintedUtf8::utf8_spaces))]
#[cycle(lines)]
fn push_members(
    out: &mut Vec<u8>,
    level: Level,
    indent: usize,
    members: &[(Text, Node)],
) -> Result<(), Memory>
    requires { indent + 2 * members_depth (members_view members.now) ≤ 128 }
    ensures text { OnOk result (out.new.items ≡ out.old.items
        ++ members_lines (level_of level) indent (members_view members.now)) }
    ensures utf8 { OnOk result (is_utf8 out.new.items ≡ is_utf8 out.old.items) }
{
    for (key, node) in members {
        push_gap(out, level)?;
        out.extend_from_slice(spaces(indent))?;
        push_member(out, level, indent, key, node)?;
    }
    Ok(())
}

// A member of a block map from its key on.
#[cycle(lines)]
fn push_member(
    out: &mut Vec<u8>,
    level: Level,
    indent: usize,
    key: &Text,
    node: &Node,
) -> Result<(), Memory>
    requires { indent + 2 * depth (view node.now) ≤ 128 }
    ensures text { OnOk result (out.new.items ≡ out.old.items
        ++ (key_text false key.now
        ++ value_lines (below (level_of level) key.now) (is_flow_key key.now) indent
        (view node.now))) }
    ensures utf8 { OnOk result (is_utf8 out.new.items ≡ is_utf8 out.old.items) }
{
    push_key(out, false, key)?;
    let name = key.as_str().as_bytes();
    push_value(out, below(level, name), is_flow_key(name), indent, node)
}

/// The text of a map in which no map has a key twice, nested at most 64 deep. It is read as the same map, each scalar
/// plain where it was printed plain.
pub fn print(alloc: Global, node: &Node) -> Result<Vec<u8>, Memory>
    requires { IsPrintable (view node.now) }
    ensures text { IfOk result (λ v. v.items ≡ printed (view node.now)) }
    ensures reads { IfOk result (λ v. says v.items ≡ Ok (marked (view node.now))) }
{
    let mut out = Vec::new(alloc);
    if let Node::Map(members) = node {
        if let Some(((key, first), rest)) = members.as_slice().split_first() {
            push_member(&mut out, Level::Root, 0, key, first)?;
            push_members(&mut out, Level::Root, 0, rest)?;
        }
    }
    Ok(out)
}
