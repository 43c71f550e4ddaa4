// The lines of a text, one after the other.
ghost use Rattle.std.specs.Prelude.{◌≡◌, ◌<◌, ◌≤◌, ◌^◌, ◌∷◌, drop, length, slice_index};
ghost use Rattle.pn_yaml.specs.Bytes.{starts};
ghost use Rattle.pn_yaml.specs.Cursor.{without_return, rows_ahead, rows_left, row_of};
ghost use Rattle.pn_yaml.specs.Outcome.{Gives};
ghost use Rattle.pn_yaml.specs.Rows.{ahead, first_ahead, is_marker, is_passed_over, is_three, lines_of, met, passed, rows_of, unmarked, unreturned};

use crate::fault::{Why, YamlFault};
use crate::line::{Front, Line, Rows};
use crate::spaces::{behind_spaces, indentation, is_bare};
use crate::split::starts;

/// The lines of a text.
pub fn rows_of(text: &str) -> Rows<'_>
    requires { length text.now < 2 ^ 32 }
    ensures { rows_left result ≡ rows_of text.now }
{
    Rows {
        text: unmarked(text),
        number: 1,
    }
}

// A text without the byte order mark that it begins with.
fn unmarked(text: &str) -> &str
    ensures text { result.now ≡ unmarked text.now }
    ensures short { length result.now ≤ length text.now }
{
    match text.strip_prefix('\u{feff}') {
        None => text,
        Some(rest) => rest,
    }
}

fn line(number: u32, text: &str) -> Line<'_>
    ensures number { result.number ≡ number }
    ensures text { result.text.now ≡ text.now }
{
    let indent = indentation(text);
    Line {
        number,
        text,
        indent,
        content: behind_spaces(text, indent),
    }
}

// The first line of a text without its end, and what is behind that.
fn first_line(text: &str) -> (&str, &str)
    requires { 0 < length text.now }
    ensures lines { lines_of (unreturned text.now)
        ≡ result.0.now ∷ lines_of (unreturned result.1.now) }
    ensures shorter { length result.1.now < length text.now }
{
    match text.split_once('\n') {
        None => (text, ""),
        Some((line, rest)) => (unreturned(line), rest),
    }
}

// A line without the carriage return at its end.
fn unreturned(line: &str) -> &str
    ensures { result.now ≡ without_return line.now }
{
    match line.strip_suffix('\r') {
        None => line,
        Some(rest) => rest,
    }
}

/// The next line, and those below it.
pub fn next_row(rows: Rows<'_>) -> Option<Front<'_>>
    ensures { rows_left rows.entry ≡ rows_ahead result }
{
    if rows.text.is_empty() {
        return None;
    }
    let (text, rest) = first_line(rows.text);
    Some(Front {
        line: line(rows.number as u32, text),
        below: Rows {
            text: rest,
            number: rows.number + 1,
        },
    })
}

fn is_passed_over(line: Line<'_>) -> bool
    ensures { result ≡ is_passed_over (row_of line.entry) }
{
    line.content.is_empty() || starts(b'#', line.content)
}

// The lines from the next one on that isn't of spaces or a comment.
fn passed(rows: Rows<'_>) -> Option<Front<'_>>
    ensures { rows_ahead result ≡ passed (rows_left rows.entry) }
{
    let mut rows = rows;
    'lines: while let Some(front) = next_row(rows) {
        if !is_passed_over(front.line) {
            return Some(front);
        }
        rows = front.below;
    }
    None
}

// What is behind the first three bytes, of which the third is below 128.
fn behind_three(text: &str) -> &str
    requires long { 3 ≤ length text.now }
    requires ascii { slice_index text.now 2 < 128 }
    ensures { result.now ≡ drop 3 text.now }
{
    text.split_at(3).1
}

// Whether a line is of three bytes `c` and a comment.
fn is_three(c: u8, text: &str) -> bool
    requires { c < 128 }
    ensures { result ≡ is_three c text.now }
{
    match text.as_bytes() {
        [x, y, z, ..] => *x == c && *y == c && *z == c && is_bare(behind_three(text)),
        _ => false,
    }
}

fn is_marker(line: Line<'_>) -> bool
    ensures { result ≡ is_marker (row_of line.entry) }
{
    is_three(b'-', line.text) || is_three(b'.', line.text)
}

// The same lines, where the first is none that is refused.
fn met(front: Option<Front<'_>>) -> Result<Option<Front<'_>>, YamlFault>
    ensures { Gives rows_ahead result (met (rows_ahead front.entry)) }
{
    let Some(Front { line, below }) = front else {
        return Ok(None);
    };
    if starts(b'\t', line.content) {
        return Err(YamlFault::Line(line.number, Why::Tab));
    }
    if is_marker(line) {
        return Err(YamlFault::Line(line.number, Why::LeftOut));
    }
    Ok(Some(Front { line, below }))
}

/// The lines from the next one on that says something.
pub fn ahead(rows: Rows<'_>) -> Result<Option<Front<'_>>, YamlFault>
    ensures { Gives rows_ahead result (ahead (rows_left rows.entry)) }
{
    met(passed(rows))
}

/// The same from a line on that is met already.
pub fn ahead_from(front: Option<Front<'_>>) -> Result<Option<Front<'_>>, YamlFault>
    ensures { Gives rows_ahead result (ahead (rows_ahead front.entry)) }
{
    match front {
        None => Ok(None),
        Some(front) => {
            if is_passed_over(front.line) {
                ahead(front.below)
            } else {
                met(Some(front))
            }
        }
    }
}

/// The same at the start, where `---` may stand.
pub fn first_ahead(rows: Rows<'_>) -> Result<Option<Front<'_>>, YamlFault>
    ensures { Gives rows_ahead result (first_ahead (rows_left rows.entry)) }
{
    match passed(rows) {
        None => Ok(None),
        Some(front) => {
            if is_three(b'-', front.line.text) {
                ahead(front.below)
            } else {
                met(Some(front))
            }
        }
    }
}
