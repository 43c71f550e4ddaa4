// Scalars of several lines.
ghost use Rattle.std.specs.Prelude.{◌≡◌, ◌<◌, ℕ, ◌∷◌, MatchOption, option_map, string_bytes, true, false, if◌then◌else◌};
ghost use Rattle.pn_yaml.specs.declared.scalar.Place.TheVariants as place;
ghost use Rattle.pn_yaml.specs.Blocks.{scalar_block, scalar_lines, style_of, width_of};
ghost use Rattle.pn_yaml.specs.Bytes.{is_blank, starts, trimmed};
ghost use Rattle.pn_yaml.specs.Cursor.{node_ahead, row_of, rows_ahead, rows_left};
ghost use Rattle.pn_yaml.specs.Literals.{added, chomp_of, filled, joined_in, shallow, style_is};
ghost use Rattle.pn_yaml.specs.Outcome.{Gives};
ghost use Rattle.pn_yaml.specs.Scalars.{plain_front};

use crate::fault::{Why, YamlFault};
use crate::line::{Front, Line, Rows};
use crate::node::{Node, Scalar};
use crate::rows::{ahead_from, next_row};
use crate::spaces::{behind_spaces, is_bare};
use crate::split::{behind, starts};
use pn_text::Text;
use std::alloc::Global;

/// How a scalar of several lines is read.
#[derive(Clone, Copy)]
pub struct Style {
    /// Its lines are joined by spaces.
    pub folded: bool,
    /// It ends with a line feed.
    pub ended: bool,
}

// Whether lines are joined by spaces, and what is behind the byte that says so.
fn fold_of(text: &str) -> Option<(bool, &str)>
    ensures { MatchOption result ((starts 124 text.now ≡ false) × (starts 62 text.now ≡ false))
        (λ r. text.now ≡ (if r.0 then 62 else 124) ∷ r.1.now) }
{
    if let Some(rest) = behind(b'|', text) {
        return Some((false, rest));
    }
    let rest = behind(b'>', text)?;
    Some((true, rest))
}

// Whether a scalar ends with a line feed, and what is behind the byte that says so.
fn chomp_of(text: &str) -> (bool, &str)
    ensures ended { result.0 ≡ (chomp_of text.now).0 }
    ensures rest { result.1.now ≡ (chomp_of text.now).1 }
{
    if let Some(rest) = behind(b'-', text) {
        return (false, rest);
    }
    match behind(b'+', text) {
        Some(rest) => (true, rest),
        None => (true, text),
    }
}

/// What opens a scalar of several lines, where a value is nothing else.
pub fn style_of(text: &str) -> Option<Style>
    ensures { option_map style_is result
        ≡ style_of (trimmed (plain_front place.Value text.now)) }
{
    let (folded, rest) = fold_of(text)?;
    let (ended, rest) = chomp_of(rest);
    if is_bare(rest) {
        Some(Style { folded, ended })
    } else {
        None
    }
}

fn is_blank(line: Line<'_>) -> bool
    ensures { result ≡ is_blank line.entry.text.now }
{
    line.content.is_empty()
}

// The lines from the next one on that isn't of spaces alone.
fn filled(rows: Rows<'_>) -> Option<Front<'_>>
    ensures { rows_ahead result ≡ filled (rows_left rows.entry) }
{
    let mut rows = rows;
    'lines: while let Some(front) = next_row(rows) {
        if !is_blank(front.line) {
            return Some(front);
        }
        rows = front.below;
    }
    None
}

// The fault of a line that is less deep than the first one, but deeper than the key.
fn shallow(line: Line<'_>) -> YamlFault
    ensures { result ≡ shallow (row_of line.entry) }
{
    let why = if starts(b'\t', line.content) {
        Why::Tab
    } else {
        Why::Indent
    };
    YamlFault::Line(line.number, why)
}

// Adds the lines of a scalar behind a line of the indentation `indent`, without the first `width` spaces of each.
fn add_lines<'a>(
    text: &mut String,
    between: char,
    indent: usize,
    width: usize,
    rows: Rows<'a>,
) -> Result<Option<Front<'a>>, YamlFault>
    requires { between < 128 }
    ensures { Gives (λ next. (string_bytes text.new, rows_ahead next)) result
        (added between (string_bytes text.old) (scalar_lines indent width (rows_left rows.entry))) }
{
    let mut rows = rows;
    'lines: while let Some(front) = filled(rows) {
        let line = front.line;
        if line.indent <= indent {
            return Ok(Some(front));
        }
        if line.indent < width {
            return Err(shallow(line));
        }
        text.push(between)?;
        text.push_str(behind_spaces(line.text, width))?;
        rows = front.below;
    }
    Ok(None)
}

// The lines of a scalar, joined.
fn joined(
    alloc: Global,
    between: char,
    indent: usize,
    rows: Rows<'_>,
) -> Result<(String, Option<Front<'_>>), YamlFault>
    requires { between < 128 }
    ensures { Gives (λ r. (string_bytes r.0, rows_ahead r.1)) result
        (joined_in between (scalar_lines indent (width_of (rows_left rows.entry)) (rows_left rows.entry))) }
{
    let mut text = String::new(alloc);
    let Some(front) = filled(rows) else {
        return Ok((text, None));
    };
    let line = front.line;
    if line.indent <= indent {
        return Ok((text, Some(front)));
    }
    text.push_str(line.content)?;
    let next = add_lines(&mut text, between, indent, line.indent, front.below)?;
    Ok((text, next))
}

/// A scalar of the lines below a line of this indentation, and the lines ahead behind it.
pub fn scalar_block(
    alloc: Global,
    style: Style,
    indent: usize,
    rows: Rows<'_>,
) -> Result<(Node, Option<Front<'_>>), YamlFault>
    ensures { Gives node_ahead result
        (scalar_block (style_is style) indent (rows_left rows.entry)) }
{
    let between = if style.folded { ' ' } else { '\n' };
    let (mut text, next) = joined(alloc, between, indent, rows)?;
    if style.ended {
        text.push('\n')?;
    }
    let next = ahead_from(next)?;
    let text = Text::of(alloc, text.as_str())?;
    Ok((Node::Scalar(Scalar { text, plain: false }), next))
}
