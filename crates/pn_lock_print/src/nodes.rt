// The nodes that are printed.
ghost use Rattle.std.specs.Prelude.{◌≡◌, IfOk, OnOk};
ghost use Rattle.pn_yaml.specs.Data.{no_members, member};
ghost use Rattle.pn_yaml.specs.View.{view, members_view};
ghost use Rattle.pn_lock_print.specs.Members.{joined};
ghost use Rattle.pn_lock_print.specs.LockData.{pair_data, text, truth};

use pn_text::{Memory, Text};
use pn_yaml::{Node, Scalar};
use sqlite_items::Items;
use std::alloc::Global;

/// A text, plain where that is unambiguous.
pub(crate) fn text_node(alloc: Global, word: &str) -> Result<Node, Memory>
    ensures { IfOk result (λ n. view n ≡ text word.now) }
{
    let text = Text::of(alloc, word)?;
    Ok(Node::Scalar(Scalar { text, plain: false }))
}

/// `true` or `false`.
pub(crate) fn truth_node(alloc: Global, value: bool) -> Result<Node, Memory>
    ensures { IfOk result (λ n. view n ≡ truth value) }
{
    let text = Text::of(alloc, if value { "true" } else { "false" })?;
    Ok(Node::Scalar(Scalar { text, plain: true }))
}

/// A specifier and a version.
pub(crate) fn pair_node(alloc: Global, specifier: &str, version: &str) -> Result<Node, Memory>
    ensures { IfOk result (λ n. view n ≡ pair_data specifier.now version.now) }
{
    let mut members = Items::new(alloc);
    push_member(
        alloc,
        &mut members,
        "specifier",
        text_node(alloc, specifier)?,
    )?;
    push_member(alloc, &mut members, "version", text_node(alloc, version)?)?;
    Ok(Node::Map(members))
}

/// One more entry of a map.
#[tactic(auto, using(crate::proofs::MemberLemmas::view_push))]
pub(crate) fn push_member(
    alloc: Global,
    members: &mut Items<(Text, Node)>,
    key: &str,
    node: Node,
) -> Result<(), Memory>
    ensures { OnOk result (members_view members.new ≡ joined (members_view members.old) (member key.now (view node) no_members)) }
{
    let key = Text::of(alloc, key)?;
    members.push((key, node))?;
    Ok(())
}
