// Escapes in double quotes.
ghost use Rattle.std.specs.Prelude.{◌≡◌, ◌<◌, ◌+◌, ◌*◌, IfOk, IfSome};
ghost use Rattle.pn_yaml.specs.Outcome.{Gives};
ghost use Rattle.pn_yaml.specs.Scalars.{digit_of, escape_of};
ghost use Rattle.pn_yaml.specs.Escapes.{character, code_at, digit_at, escape_at, two_at};

use crate::fault::{Why, YamlFault};
use crate::split::first;

// What a byte behind a backslash stands for.
fn escape_of(b: u8) -> Option<char>
    ensures { result ≡ escape_of b }
{
    match b {
        b'\\' => Some('\\'),
        b'"' => Some('"'),
        b'/' => Some('/'),
        b'n' => Some('\n'),
        b't' => Some('\t'),
        b'r' => Some('\r'),
        b'0' => Some('\0'),
        _ => None,
    }
}

fn digit_of(b: u8) -> Option<u32>
    ensures value { result ≡ digit_of b }
    ensures small { IfSome result (λ d. d < 16) }
{
    match b {
        b'0'..=b'9' => Some((b - b'0') as u32),
        b'a'..=b'f' => Some((b - b'a') as u32 + 10),
        b'A'..=b'F' => Some((b - b'A') as u32 + 10),
        _ => None,
    }
}

fn digit_at(line: u32, text: &str) -> Result<(u32, &str), YamlFault>
    ensures gives { Gives (λ r. (r.0, r.1.now)) result (digit_at line text.now) }
    ensures small { IfOk result (λ r. r.0 < 16) }
{
    let Some((b, rest)) = first(text) else {
        return Err(YamlFault::Line(line, Why::Escape));
    };
    match digit_of(b) {
        Some(digit) => Ok((digit, rest)),
        None => Err(YamlFault::Line(line, Why::Escape)),
    }
}

// The number with two more digits.
#[tactic(auto, unfolding(crate::specs::Escapes::two_at))]
fn two_at(line: u32, value: u32, text: &str) -> Result<(u32, &str), YamlFault>
    requires { value < 256 }
    ensures gives { Gives (λ r. (r.0, r.1.now)) result (two_at line value text.now) }
    ensures small { IfOk result (λ r. r.0 < 256 * (value + 1)) }
{
    let (high, rest) = digit_at(line, text)?;
    let (low, rest) = digit_at(line, rest)?;
    Ok(((value * 16 + high) * 16 + low, rest))
}

fn character(line: u32, code: u32, rest: &str) -> Result<(char, &str), YamlFault>
    requires { code < 65536 }
    ensures { Gives (λ r. (r.0, r.1.now)) result (character line code rest.now) }
{
    match char::from_u32(code) {
        Some(c) => Ok((c, rest)),
        None => Err(YamlFault::Line(line, Why::Escape)),
    }
}

// A character by its code, of two digits behind `x` and four behind `u`.
#[tactic(auto, unfolding(crate::specs::Escapes::code_at))]
fn code_at(line: u32, b: u8, text: &str) -> Result<(char, &str), YamlFault>
    ensures { Gives (λ r. (r.0, r.1.now)) result (code_at line b text.now) }
{
    if b == b'x' {
        let (code, rest) = two_at(line, 0, text)?;
        return character(line, code, rest);
    }
    if b == b'u' {
        let (high, rest) = two_at(line, 0, text)?;
        let (code, rest) = two_at(line, high, rest)?;
        return character(line, code, rest);
    }
    Err(YamlFault::Line(line, Why::Escape))
}

/// A character by what is behind its backslash, and what is behind that.
#[tactic(auto, unfolding(crate::specs::Escapes::escape_at))]
pub(crate) fn escape_at(line: u32, text: &str) -> Result<(char, &str), YamlFault>
    ensures { Gives (λ r. (r.0, r.1.now)) result (escape_at line text.now) }
{
    let Some((b, rest)) = first(text) else {
        return Err(YamlFault::Line(line, Why::Escape));
    };
    match escape_of(b) {
        Some(c) => Ok((c, rest)),
        None => code_at(line, b, rest),
    }
}
