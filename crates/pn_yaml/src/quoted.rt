// Scalars in quotes.
ghost use Rattle.std.specs.Prelude.{◌≡◌, ◌<◌, ◌++◌, ℕ, List, IfOk, false};
ghost use Rattle.pn_yaml.specs.Outcome.{Gives};
ghost use Rattle.pn_yaml.specs.Reading.{EndsAt, word_of};
ghost use Rattle.pn_yaml.specs.Scalars.{single, double, quoted_at};

use crate::escape::escape_at;
use crate::fault::{Why, YamlFault};
use crate::node::Scalar;
use crate::split::{behind, next, split_before, starts};
use pn_text::{Memory, Text};
use std::alloc::Global;

fn quoted(alloc: Global, text: &str) -> Result<Scalar, Memory>
    ensures { IfOk result (λ s. word_of s ≡ record { text = text.now; plain = false }) }
{
    let text = Text::of(alloc, text)?;
    Ok(Scalar { text, plain: false })
}

// The bytes from the first one of two on.
fn end_at(a: u8, b: u8, text: &[u8]) -> &[u8]
    requires a { a < 128 }
    requires b { b < 128 }
    ensures { (front : List ℕ) × EndsAt a b text.now front result.now }
{
    let mut rest = text;
    'bytes: while let Some((c, behind)) = next(rest) {
        if c == a || c == b {
            break;
        }
        rest = behind;
    }
    rest
}

// The text before the first one of two ASCII bytes, and from there on.
fn parted(a: u8, b: u8, text: &str) -> (&str, &str)
    requires a { a < 128 }
    requires b { b < 128 }
    ensures { EndsAt a b text.now result.0.now result.1.now }
{
    split_before(text, end_at(a, b, text.as_bytes()))
}

/// A scalar behind its single quote, and what is behind it.
pub(crate) fn single_at(alloc: Global, line: u32, text: &str) -> Result<(Scalar, &str), YamlFault>
    ensures { Gives (λ r. (word_of r.0, r.1.now)) result (quoted_at line single text.now) }
{
    let (front, closing) = parted(b'\'', b'\'', text);
    let Some(after) = behind(b'\'', closing) else {
        return Err(YamlFault::Line(line, Why::Quote));
    };
    if starts(b'\'', after) {
        return doubled_at(alloc, line, text);
    }
    Ok((quoted(alloc, front)?, after))
}

// The same where two quotes stand for one.
fn doubled_at(alloc: Global, line: u32, text: &str) -> Result<(Scalar, &str), YamlFault>
    ensures { Gives (λ r. (word_of r.0, r.1.now)) result (quoted_at line single text.now) }
{
    let mut read = String::new(alloc);
    let mut rest = text;
    'quotes: loop {
        let (front, closing) = parted(b'\'', b'\'', rest);
        read.push_str(front)?;
        let Some(after) = behind(b'\'', closing) else {
            return Err(YamlFault::Line(line, Why::Quote));
        };
        let Some(more) = behind(b'\'', after) else {
            return Ok((quoted(alloc, read.as_str())?, after));
        };
        read.push_str("'")?;
        rest = more;
    }
}

/// A scalar behind its double quote, and what is behind it.
pub(crate) fn double_at(alloc: Global, line: u32, text: &str) -> Result<(Scalar, &str), YamlFault>
    ensures { Gives (λ r. (word_of r.0, r.1.now)) result (quoted_at line double text.now) }
{
    let (front, closing) = parted(b'"', b'\\', text);
    match behind(b'"', closing) {
        Some(after) => Ok((quoted(alloc, front)?, after)),
        None => escaped_at(alloc, line, text),
    }
}

// The same where escapes may stand.
fn escaped_at(alloc: Global, line: u32, text: &str) -> Result<(Scalar, &str), YamlFault>
    ensures { Gives (λ r. (word_of r.0, r.1.now)) result (quoted_at line double text.now) }
{
    let mut read = String::new(alloc);
    let mut rest = text;
    'escapes: loop {
        let (front, closing) = parted(b'"', b'\\', rest);
        read.push_str(front)?;
        if let Some(after) = behind(b'"', closing) {
            return Ok((quoted(alloc, read.as_str())?, after));
        }
        let Some(after) = behind(b'\\', closing) else {
            return Err(YamlFault::Line(line, Why::Quote));
        };
        let (c, more) = escape_at(line, after)?;
        read.push(c)?;
        rest = more;
    }
}
