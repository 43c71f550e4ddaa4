// Values that end on their line.
ghost use Rattle.std.specs.Prelude.{◌≡◌, [], true, IfErr, IfOk};
ghost use Rattle.pn_yaml.specs.BlockSteps.{flow_on, line_end};
ghost use Rattle.pn_yaml.specs.Blocks.{scalar_on};
ghost use Rattle.pn_yaml.specs.Cursor.{node_ahead, row_of, rows_ahead, rows_left};
ghost use Rattle.pn_yaml.specs.Data.{scalar};
ghost use Rattle.pn_yaml.specs.Outcome.{Gives};
ghost use Rattle.pn_yaml.specs.View.{view};

use crate::fault::{Why, YamlFault};
use crate::flow::flow_at;
use crate::line::{Front, Rows};
use crate::node::{Node, Scalar};
use crate::rows::ahead;
use crate::scalar::{Place, word_at};
use crate::spaces::is_bare;
use pn_text::Text;
use std::alloc::Global;

/// The lines ahead behind a value on its line, where nothing but a comment may stand behind it.
fn line_end<'a>(
    why: Why,
    number: u32,
    rest: &str,
    rows: Rows<'a>,
) -> Result<Option<Front<'a>>, YamlFault>
    ensures { Gives rows_ahead result (line_end why number rest.now (rows_left rows.entry)) }
{
    if is_bare(rest) {
        ahead(rows)
    } else {
        Err(YamlFault::Line(number, why))
    }
}

/// A flow on its line, where so many levels are left, and the lines ahead behind it.
pub fn flow_on<'a>(
    alloc: Global,
    levels: u32,
    text: &str,
    front: Front<'a>,
) -> Result<(Node, Option<Front<'a>>), YamlFault>
    ensures { Gives node_ahead result
        (flow_on levels text.now (row_of front.entry.line) (rows_left front.entry.below)) }
{
    let number = front.line.number;
    let (node, rest) = flow_at(alloc, levels, number, text)?;
    let next = line_end(Why::Flow, number, rest, front.below)?;
    Ok((node, next))
}

/// A scalar on its line, and the lines ahead behind it.
pub fn scalar_on<'a>(
    alloc: Global,
    text: &str,
    front: Front<'a>,
) -> Result<(Node, Option<Front<'a>>), YamlFault>
    ensures { Gives node_ahead result
        (scalar_on text.now (row_of front.entry.line) (rows_left front.entry.below)) }
{
    let number = front.line.number;
    let (word, rest) = word_at(alloc, Place::Value, number, text)?;
    let next = line_end(Why::Quote, number, rest, front.below)?;
    Ok((Node::Scalar(word), next))
}

/// The plain empty scalar.
pub fn empty_scalar(alloc: Global) -> Result<Node, YamlFault>
    ensures node { IfOk result (λ n. view n ≡ scalar [] true) }
    ensures memory { IfErr result (λ e. e ≡ YamlFault.Memory) }
{
    let text = Text::of(alloc, "")?;
    Ok(Node::Scalar(Scalar { text, plain: true }))
}
