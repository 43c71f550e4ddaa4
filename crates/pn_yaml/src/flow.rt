// Flow values: lists in brackets and maps in braces, on one line.
ghost use Rattle.std.specs.Prelude.{◌≡◌, ◌<◌, ◌∷◌, suc, length, [], IfOk};
ghost use Rattle.pn_yaml.specs.Outcome.{Gives};
ghost use Rattle.pn_yaml.specs.Flow.{flow_at, flow_items, flow_key, flow_members, flow_value, is_flow, list_in, map_in};
ghost use Rattle.pn_yaml.specs.FlowSteps.{step_of, behind_step, before_step, flow_scalar};
ghost use Rattle.pn_yaml.specs.KeySets.{AreKeys, seen_of};
ghost use Rattle.pn_yaml.specs.View.{view};

use crate::fault::{Why, YamlFault};
use crate::keys::Keys;
use crate::node::Node;
use crate::plain::behind_colon;
use crate::scalar::{Place, word_at};
use crate::spaces::{content, unindented};
use crate::split::{behind, starts};
use pn_text::Text;
use sqlite_items::Items;
use std::alloc::Global;

/// What comes next in a flow.
enum Step<'a> {
    /// It is closed, before this text.
    Closed(&'a str),
    /// It goes on with this text.
    Open(&'a str),
}

// Where an item or a key must come, or the byte that closes the flow.
fn before_value(line: u32, close: u8, text: &str) -> Result<Step<'_>, YamlFault>
    requires { close < 128 }
    ensures { Gives step_of result (before_step line close text.now) }
{
    let Some(text) = content(text) else {
        return Err(YamlFault::Line(line, Why::Flow));
    };
    match behind(close, text) {
        Some(rest) => Ok(Step::Closed(rest)),
        None => Ok(Step::Open(text)),
    }
}

// Behind an item or a value: a comma, or the byte that closes the flow.
fn behind_value(line: u32, close: u8, text: &str) -> Result<Step<'_>, YamlFault>
    requires { close < 128 }
    ensures { Gives step_of result (behind_step line close text.now) }
{
    let text = unindented(text);
    if let Some(rest) = behind(b',', text) {
        return Ok(Step::Open(rest));
    }
    match behind(close, text) {
        Some(rest) => Ok(Step::Closed(rest)),
        None => Err(YamlFault::Line(line, Why::Flow)),
    }
}

/// Whether a text begins a flow.
pub(crate) fn is_flow(text: &str) -> bool
    ensures { result ≡ is_flow text.now }
{
    starts(b'[', text) || starts(b'{', text)
}

// A key that the members don't have, and what is behind its colon. No flow is a key.
fn key_at<'a>(
    alloc: Global,
    line: u32,
    keys: &mut Keys,
    members: &[(Text, Node)],
    text: &'a str,
) -> Result<(Text, &'a str), YamlFault>
    requires { AreKeys keys.old (seen_of members.now) }
    ensures gives { Gives (λ r. (r.0, r.1.now)) result (flow_key line (seen_of members.now) text.now) }
    ensures kept { IfOk result (λ r. AreKeys keys.new (r.0 ∷ seen_of members.now)) }
{
    if is_flow(text) {
        return Err(YamlFault::Line(line, Why::Flow));
    }
    let (word, rest) = word_at(alloc, Place::Flow, line, text)?;
    let Some(rest) = behind_colon(rest) else {
        return Err(YamlFault::Line(line, Why::Flow));
    };
    let key = word.text;
    if !keys.add(alloc, members, &key)? {
        return Err(YamlFault::Line(line, Why::Twice));
    }
    Ok((key, rest))
}

fn scalar_at(alloc: Global, line: u32, text: &str) -> Result<(Node, &str), YamlFault>
    ensures { Gives (λ r. (view r.0, r.1.now)) result (flow_scalar line text.now) }
{
    let (word, rest) = word_at(alloc, Place::Flow, line, text)?;
    Ok((Node::Scalar(word), rest))
}

// The value behind a key's colon.
#[cycle(flow)]
fn value_at(alloc: Global, levels: u32, line: u32, text: &str) -> Result<(Node, &str), YamlFault>
    ensures { Gives (λ r. (view r.0, r.1.now)) result (flow_value (flow_at levels line) line text.now) }
{
    match content(text) {
        Some(text) => flow_at(alloc, levels, line, text),
        None => Err(YamlFault::Line(line, Why::Flow)),
    }
}

// The items of a list behind its bracket, and what is behind the list.
#[cycle(flow)]
fn list_at(alloc: Global, levels: u32, line: u32, text: &str) -> Result<(Node, &str), YamlFault>
    ensures { Gives (λ r. (view r.0, r.1.now)) result (list_in (flow_items (flow_at levels line) line (suc (length text.now)) text.now)) }
{
    let mut items = Items::new(alloc);
    let mut rest = text;
    'items: loop {
        let front = match before_value(line, b']', rest)? {
            Step::Open(front) => front,
            Step::Closed(after) => return Ok((Node::List(items), after)),
        };
        let (item, after) = flow_at(alloc, levels, line, front)?;
        items.push(item)?;
        rest = match behind_value(line, b']', after)? {
            Step::Open(more) => more,
            Step::Closed(after) => return Ok((Node::List(items), after)),
        };
    }
}

// The members of a map behind its brace, and what is behind the map.
#[cycle(flow)]
fn map_at(alloc: Global, levels: u32, line: u32, text: &str) -> Result<(Node, &str), YamlFault>
    ensures { Gives (λ r. (view r.0, r.1.now)) result (map_in (flow_members (flow_at levels line) line (suc (length text.now)) [] text.now)) }
{
    let mut members = Items::new(alloc);
    let mut keys = Keys::new(alloc);
    let mut rest = text;
    'members: loop {
        let front = match before_value(line, b'}', rest)? {
            Step::Open(front) => front,
            Step::Closed(after) => return Ok((Node::Map(members), after)),
        };
        let (key, after) = key_at(alloc, line, &mut keys, members.as_slice(), front)?;
        let (value, after) = value_at(alloc, levels, line, after)?;
        members.push((key, value))?;
        rest = match behind_value(line, b'}', after)? {
            Step::Open(more) => more,
            Step::Closed(after) => return Ok((Node::Map(members), after)),
        };
    }
}

/// A value in a flow, or a flow, at the front of a text, where so many levels are left; and what is behind it.
#[cycle(flow)]
pub(crate) fn flow_at(
    alloc: Global,
    levels: u32,
    line: u32,
    text: &str,
) -> Result<(Node, &str), YamlFault>
    ensures { Gives (λ r. (view r.0, r.1.now)) result (flow_at levels line text.now) }
{
    if levels == 0 {
        return Err(YamlFault::TooDeep);
    }
    if let Some(inner) = behind(b'[', text) {
        return list_at(alloc, levels - 1, line, inner);
    }
    if let Some(inner) = behind(b'{', text) {
        return map_at(alloc, levels - 1, line, inner);
    }
    scalar_at(alloc, line, text)
}
