// Blocks: maps and lists of lines with one indentation.
ghost use Rattle.std.specs.Prelude.{◌≡◌, ◌∷◌, true, false, IfOk, MatchOption};
ghost use Rattle.pn_yaml.specs.BlockSteps.{block_key, is_item_at, items_from, members_from};
ghost use Rattle.pn_yaml.specs.Blocks.{block_at, is_below, is_item, key_at, list_in, map_in, root_at, unwritten, value_on};
ghost use Rattle.pn_yaml.specs.Bytes.{tail_of};
ghost use Rattle.pn_yaml.specs.Cursor.{node_ahead, row_of, rows_left};
ghost use Rattle.pn_yaml.specs.Rows.{content, row_indentation};
ghost use Rattle.pn_yaml.specs.KeySets.{AreKeys, seen_of};
ghost use Rattle.pn_yaml.specs.Outcome.{Gives};

use crate::fault::{Why, YamlFault};
use crate::flow::is_flow;
use crate::keys::Keys;
use crate::line::{Front, Line};
use crate::literal::{scalar_block, style_of};
use crate::node::Node;
use crate::plain::behind_colon;
use crate::rows::ahead;
use crate::scalar::{Place, word_at};
use crate::spaces::content;
use crate::split::{behind, starts};
use crate::value::{empty_scalar, flow_on, scalar_on};
use pn_text::Text;
use sqlite_items::Items;
use std::alloc::Global;

// How deep a text may be nested.
const LEVELS: u32 = 64;

// What is behind the `-` of an item.
fn behind_dash(text: &str) -> Option<&str>
    ensures { MatchOption result (is_item text.now ≡ false)
        (λ rest. (is_item text.now ≡ true) × (rest.now ≡ tail_of text.now)) }
{
    let rest = behind(b'-', text)?;
    if rest.is_empty() || starts(b' ', rest) {
        Some(rest)
    } else {
        None
    }
}

// The key at the front of a text, and what is behind its colon.
fn key_at(alloc: Global, number: u32, text: &str) -> Result<(Text, &str), YamlFault>
    ensures { Gives (λ r. (r.0, r.1.now)) result (key_at number text.now) }
{
    let (word, rest) = word_at(alloc, Place::Key, number, text)?;
    match behind_colon(rest) {
        Some(rest) => Ok((word.text, rest)),
        None => Err(YamlFault::Line(number, Why::Key)),
    }
}

// A key that the members don't have, and what is behind its colon.
fn new_key<'a>(
    alloc: Global,
    keys: &mut Keys,
    members: &[(Text, Node)],
    line: Line<'a>,
) -> Result<(Text, &'a str), YamlFault>
    requires { AreKeys keys.old (seen_of members.now) }
    ensures gives { Gives (λ r. (r.0, r.1.now)) result
        (block_key (seen_of members.now) (row_of line.entry)) }
    ensures kept { IfOk result (λ r. AreKeys keys.new (r.0 ∷ seen_of members.now)) }
{
    if behind_dash(line.content).is_some() {
        return Err(YamlFault::Line(line.number, Why::Key));
    }
    let (key, rest) = key_at(alloc, line.number, line.content)?;
    if !keys.add(alloc, members, &key)? {
        return Err(YamlFault::Line(line.number, Why::Twice));
    }
    Ok((key, rest))
}

// Whether the block that begins with a line belongs to a key of this indentation.
fn is_below(indent: usize, line: Line<'_>) -> bool
    ensures { result ≡ is_below indent (row_of line.entry) }
{
    indent < line.indent || indent == line.indent && behind_dash(line.content).is_some()
}

// An empty value: that of a key may be the block below.
#[cycle(block)]
fn unwritten<'a>(
    alloc: Global,
    levels: u32,
    keyed: bool,
    front: Front<'a>,
) -> Result<(Node, Option<Front<'a>>), YamlFault>
    ensures { Gives node_ahead result
        (unwritten (value_on levels) keyed (row_indentation (row_of front.entry.line)) (rows_left front.entry.below)) }
{
    let next = ahead(front.below)?;
    if keyed
        && let Some(below) = next
        && is_below(front.line.indent, below.line)
    {
        return block_at(alloc, levels, below);
    }
    Ok((empty_scalar(alloc)?, next))
}

/// A value that begins on a line, where so many levels are left, and the lines ahead behind it.
#[cycle(block)]
fn value_on<'a>(
    alloc: Global,
    levels: u32,
    keyed: bool,
    text: &str,
    front: Front<'a>,
) -> Result<(Node, Option<Front<'a>>), YamlFault>
    ensures { Gives node_ahead result
        (value_on levels keyed text.now (row_of front.entry.line) (rows_left front.entry.below)) }
{
    if levels == 0 {
        return Err(YamlFault::TooDeep);
    }
    let Some(text) = content(text) else {
        return unwritten(alloc, levels - 1, keyed, front);
    };
    if is_flow(text) {
        return flow_on(alloc, levels, text, front);
    }
    match style_of(text) {
        Some(style) => scalar_block(alloc, style, front.line.indent, front.below),
        None => scalar_on(alloc, text, front),
    }
}

// What is behind the `-` of an item of a list of this indentation.
fn item_at(indent: usize, line: Line<'_>) -> Option<&str>
    ensures { MatchOption result (is_item_at indent (row_of line.entry) ≡ false)
        (λ text. (is_item_at indent (row_of line.entry) ≡ true)
        × (text.now ≡ tail_of (content (row_of line.entry)))) }
{
    if line.indent == indent {
        behind_dash(line.content)
    } else {
        None
    }
}

// The items of a block list, which begins with this line.
#[cycle(block)]
fn list_at<'a>(
    alloc: Global,
    levels: u32,
    front: Front<'a>,
) -> Result<(Node, Option<Front<'a>>), YamlFault>
    ensures { Gives node_ahead result
        (list_in (items_from levels (row_of front.entry.line) (rows_left front.entry.below))) }
{
    let indent = front.line.indent;
    let mut items = Items::new(alloc);
    let mut next = Some(front);
    'items: while let Some(front) = next {
        let Some(text) = item_at(indent, front.line) else {
            return Ok((Node::List(items), Some(front)));
        };
        let (item, after) = value_on(alloc, levels, false, text, front)?;
        items.push(item)?;
        next = after;
    }
    Ok((Node::List(items), None))
}

// The members of a block map, which begins with this line.
#[cycle(block)]
fn map_at<'a>(
    alloc: Global,
    levels: u32,
    front: Front<'a>,
) -> Result<(Node, Option<Front<'a>>), YamlFault>
    ensures { Gives node_ahead result
        (map_in (members_from levels (row_of front.entry.line) (rows_left front.entry.below))) }
{
    let indent = front.line.indent;
    let mut keys = Keys::new(alloc);
    let mut members = Items::new(alloc);
    let mut next = Some(front);
    'members: while let Some(front) = next {
        if front.line.indent < indent {
            return Ok((Node::Map(members), Some(front)));
        }
        if front.line.indent > indent {
            return Err(YamlFault::Line(front.line.number, Why::Indent));
        }
        let (key, text) = new_key(alloc, &mut keys, members.as_slice(), front.line)?;
        let (value, after) = value_on(alloc, levels, true, text, front)?;
        members.push((key, value))?;
        next = after;
    }
    Ok((Node::Map(members), None))
}

/// The block that begins with this line, where so many levels are left below it.
#[cycle(block)]
#[tactic(auto, unfolding(crate::specs::BlockSteps::items_from, crate::specs::BlockSteps::members_from))]
fn block_at<'a>(
    alloc: Global,
    levels: u32,
    front: Front<'a>,
) -> Result<(Node, Option<Front<'a>>), YamlFault>
    ensures { Gives node_ahead result
        (block_at (value_on levels) (row_of front.entry.line) (rows_left front.entry.below)) }
{
    if behind_dash(front.line.content).is_some() {
        list_at(alloc, levels, front)
    } else {
        map_at(alloc, levels, front)
    }
}

/// The root, which begins with this line, and the lines ahead behind it.
pub fn root_at<'a>(alloc: Global, front: Front<'a>) -> Result<(Node, Option<Front<'a>>), YamlFault>
    ensures { Gives node_ahead result
        (root_at (row_of front.entry.line) (rows_left front.entry.below)) }
{
    if front.line.indent > 0 {
        return Err(YamlFault::Line(front.line.number, Why::Indent));
    }
    if is_flow(front.line.text) {
        return flow_on(alloc, LEVELS, front.line.text, front);
    }
    block_at(alloc, LEVELS - 1, front)
}
