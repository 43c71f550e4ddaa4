// Plain scalars.
ghost use Rattle.std.specs.Prelude.{◌≡◌, ◌∷◌, ℕ, List, MatchOption, true, false};
ghost use Rattle.pn_yaml.specs.Bytes.{ends_word, is_comment, tail_of};
ghost use Rattle.pn_yaml.specs.Outcome.{Gives};
ghost use Rattle.pn_yaml.specs.Reading.{EndsPlain, word_of};
ghost use Rattle.pn_yaml.specs.Scalars.{absent, ends_plain, is_colon, is_left_out, is_left_out_byte, is_mark, plain_at, plain_front, plain_rest, plain_word};

use crate::fault::{Why, YamlFault};
use crate::node::Scalar;
use crate::scalar::Place;
use crate::spaces::trimmed;
use crate::split::{behind, next, split_before};
use pn_text::Text;
use std::alloc::Global;

fn ends_word(bytes: &[u8]) -> bool
    ensures { result ≡ ends_word bytes.now }
{
    match bytes {
        [] => true,
        [b, ..] => *b == b' ',
    }
}

fn is_comment(b: u8, behind: &[u8]) -> bool
    ensures { result ≡ is_comment (b ∷ behind.now) }
{
    match behind {
        [] => false,
        [c, ..] => b == b' ' && *c == b'#',
    }
}

fn is_colon(b: u8, behind: &[u8]) -> bool
    ensures { result ≡ is_colon (b ∷ behind.now) }
{
    b == b':' && ends_word(behind)
}

/// What is behind the colon of a key, where the text begins with it.
pub(crate) fn behind_colon(text: &str) -> Option<&str>
    ensures { MatchOption result (is_colon text.now ≡ false) (λ rest. (is_colon text.now ≡ true) × (rest.now ≡ tail_of text.now)) }
{
    let rest = behind(b':', text)?;
    if ends_word(rest.as_bytes()) {
        Some(rest)
    } else {
        None
    }
}

fn is_mark(b: u8, behind: &[u8]) -> bool
    ensures { result ≡ is_mark (b ∷ behind.now) }
{
    b == b',' || b == b']' || b == b'}'
}

fn ends_plain(place: Place, b: u8, behind: &[u8]) -> bool
    ensures { result ≡ ends_plain place (b ∷ behind.now) }
{
    match place {
        Place::Value => is_comment(b, behind),
        Place::Key => is_comment(b, behind) || is_colon(b, behind),
        Place::Flow => is_comment(b, behind) || is_colon(b, behind) || is_mark(b, behind),
    }
}

// The bytes from where a plain scalar ends.
fn plain_end(place: Place, text: &[u8]) -> &[u8]
    ensures { EndsPlain place text.now result.now }
{
    let mut rest = text;
    'bytes: while let Some((b, behind)) = next(rest) {
        if ends_plain(place, b, behind) {
            break;
        }
        rest = behind;
    }
    rest
}

/// The text up to where a plain scalar ends, and from there on.
pub(crate) fn plain_parts(place: Place, text: &str) -> (&str, &str)
    ensures front { result.0.now ≡ plain_front place text.now }
    ensures rest { result.1.now ≡ plain_rest place text.now }
{
    split_before(text, plain_end(place, text.as_bytes()))
}

fn is_left_out_byte(b: u8) -> bool
    ensures { result ≡ is_left_out_byte b }
{
    b == b'&' || b == b'*' || b == b'!' || b == b'%' || b == b'@' || b == b'`'
}

fn is_left_out(bytes: &[u8]) -> bool
    ensures { result ≡ is_left_out bytes.now }
{
    match bytes {
        [] => false,
        [b, rest @ ..] => is_left_out_byte(*b) || *b == b'?' && ends_word(rest),
    }
}

fn absent(place: Place) -> Why
    ensures { result ≡ absent place }
{
    match place {
        Place::Value | Place::Key => Why::Key,
        Place::Flow => Why::Flow,
    }
}

fn plain_word<'a>(
    alloc: Global,
    place: Place,
    line: u32,
    word: &str,
    rest: &'a str,
) -> Result<(Scalar, &'a str), YamlFault>
    ensures { Gives (λ r. (word_of r.0, r.1.now)) result (plain_word place line word.now rest.now) }
{
    if is_left_out(word.as_bytes()) {
        return Err(YamlFault::Line(line, Why::LeftOut));
    }
    if word.is_empty() {
        return Err(YamlFault::Line(line, absent(place)));
    }
    let text = Text::of(alloc, word)?;
    Ok((Scalar { text, plain: true }, rest))
}

/// A plain scalar at the front of a text, and what is behind it.
pub(crate) fn plain_at<'a>(
    alloc: Global,
    place: Place,
    line: u32,
    text: &'a str,
) -> Result<(Scalar, &'a str), YamlFault>
    ensures { Gives (λ r. (word_of r.0, r.1.now)) result (plain_at place line text.now) }
{
    let (front, rest) = plain_parts(place, text);
    plain_word(alloc, place, line, trimmed(front), rest)
}
