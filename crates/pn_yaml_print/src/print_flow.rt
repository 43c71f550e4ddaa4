// Data as a flow value, on one line.
ghost use Rattle.std.specs.Prelude.{true, ◌≡◌, ◌∷◌, ◌++◌, OnOk};
ghost use Rattle.std.specs.Str.{is_utf8};
ghost use Rattle.pn_yaml.specs.Bytes.{space};
ghost use Rattle.pn_yaml.specs.Data.{list, map};
ghost use Rattle.pn_yaml_print.specs.Printing.{flow_text, key_text};
ghost use Rattle.pn_yaml.specs.View.{view, items_view, members_view};

use crate::word::push_word;
use pn_text::{Memory, Text};
use pn_yaml::Node;

/// A key and its colon, in a flow or outside.
#[tactic(auto, using(crate::proofs::PrintedUtf8::utf8_ascii))]
pub(crate) fn push_key(out: &mut Vec<u8>, flow: bool, key: &Text) -> Result<(), Memory>
    ensures text { OnOk result (out.new.items ≡ out.old.items ++ key_text flow key.now) }
    ensures utf8 { OnOk result (is_utf8 out.new.items ≡ is_utf8 out.old.items) }
{
    push_word(out, flow, key.as_str(), false)?;
    out.push(b':')?;
    Ok(())
}

/// A value on one line.
#[cycle(flow)]
pub(crate) fn push_flow(out: &mut Vec<u8>, node: &Node) -> Result<(), Memory>
    ensures text { OnOk result (out.new.items ≡ out.old.items ++ flow_text (view node.now)) }
    ensures utf8 { OnOk result (is_utf8 out.new.items ≡ is_utf8 out.old.items) }
{
    match node {
        Node::Scalar(scalar) => push_word(out, true, scalar.text.as_str(), scalar.plain),
        Node::List(items) => push_flow_list(out, items.as_slice()),
        Node::Map(members) => push_flow_map(out, members.as_slice()),
    }
}

/// A list in brackets.
#[tactic(auto, using(crate::proofs::PrintedUtf8::utf8_ascii))]
#[cycle(flow)]
pub(crate) fn push_flow_list(out: &mut Vec<u8>, items: &[Node]) -> Result<(), Memory>
    ensures text { OnOk result (out.new.items ≡ out.old.items
        ++ flow_text (list (items_view items.now))) }
    ensures utf8 { OnOk result (is_utf8 out.new.items ≡ is_utf8 out.old.items) }
{
    out.push(b'[')?;
    for (i, item) in items.iter().enumerate() {
        if i > 0 {
            out.extend_from_slice(b", ")?;
        }
        push_flow(out, item)?;
    }
    out.push(b']')?;
    Ok(())
}

/// A map in braces.
#[tactic(auto, using(crate::proofs::PrintedUtf8::utf8_ascii))]
#[cycle(flow)]
pub(crate) fn push_flow_map(out: &mut Vec<u8>, members: &[(Text, Node)]) -> Result<(), Memory>
    ensures text { OnOk result (out.new.items ≡ out.old.items
        ++ flow_text (map (members_view members.now))) }
    ensures utf8 { OnOk result (is_utf8 out.new.items ≡ is_utf8 out.old.items) }
{
    out.push(b'{')?;
    for (i, (key, node)) in members.iter().enumerate() {
        if i > 0 {
            out.extend_from_slice(b", ")?;
        }
        push_flow_member(out, key, node)?;
    }
    out.push(b'}')?;
    Ok(())
}

#[tactic(auto, using(crate::proofs::PrintedUtf8::utf8_ascii))]
#[cycle(flow)]
fn push_flow_member(out: &mut Vec<u8>, key: &Text, node: &Node) -> Result<(), Memory>
    ensures text { OnOk result (out.new.items ≡ out.old.items
        ++ (key_text true key.now ++ space ∷ flow_text (view node.now))) }
    ensures utf8 { OnOk result (is_utf8 out.new.items ≡ is_utf8 out.old.items) }
{
    push_key(out, true, key)?;
    out.push(b' ')?;
    push_flow(out, node)
}
