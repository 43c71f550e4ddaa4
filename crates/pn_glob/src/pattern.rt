// One pattern of a list.
ghost use Rattle.std.specs.Prelude.{◌≡◌, ◌==◌, ◌++◌, ◌∷◌, ◌≤◌, [], length, map, MatchOption, IfOk, IfErr, false};
ghost use Rattle.pn_glob.specs.ReadLists.{IsBad};
ghost use Rattle.pn_glob.specs.Lists.{Reads, before_slash, behind_bang, behind_dot, is_negative};
ghost use Rattle.pn_glob.specs.Reading.{starts_with};

use crate::bytes::next;
use crate::choices::{behind_plain, single, texts_of};
use crate::fault::{Bad, Stop};
use crate::kind::Kind;
use std::alloc::Global;

// What is behind this byte, if the text begins with it.
fn strip(text: &[u8], byte: u8) -> Option<&[u8]>
    ensures { MatchOption result (starts_with (λ b. b == byte) text.now ≡ false) (λ r. text.now ≡ byte ∷ r.now) }
{
    let (b, rest) = next(text)?;
    if b == byte { Some(rest) } else { None }
}

// The last byte and what is before it.
fn last(text: &[u8]) -> Option<(u8, &[u8])>
    ensures { MatchOption result (text.now ≡ []) (λ r. text.now ≡ r.1.now ++ r.0 ∷ []) }
{
    match text.split_last() {
        Some((b, front)) => Some((*b, front)),
        None => None,
    }
}

/// Whether a pattern begins with `!`.
pub(crate) fn is_negative(text: &[u8]) -> bool
    ensures { result ≡ is_negative text.now }
{
    match next(text) {
        Some((b, _)) => b == b'!',
        None => false,
    }
}

fn behind_bang(text: &[u8]) -> &[u8]
    ensures tail { result.now ≡ behind_bang text.now }
    ensures shorter { length result.now ≤ length text.now }
{
    match strip(text, b'!') {
        Some(behind) => behind,
        None => text,
    }
}

fn behind_dot(text: &[u8]) -> &[u8]
    ensures tail { result.now ≡ behind_dot text.now }
    ensures shorter { length result.now ≤ length text.now }
{
    let Some(rest) = strip(text, b'.') else {
        return text;
    };
    match strip(rest, b'/') {
        Some(behind) => behind,
        None => text,
    }
}

fn before_slash(text: &[u8]) -> &[u8]
    ensures { result.now ≡ before_slash text.now }
{
    let Some((b, front)) = last(text) else {
        return text;
    };
    if b == b'/' { front } else { text }
}

fn path_texts(alloc: Global, text: &[u8]) -> Result<Vec<Vec<u8>>, Bad>
    ensures ok { IfOk result (λ v. Reads Kind.Paths text.now (map (λ v. v.items) v.items)) }
    ensures err { IfErr result (IsBad Kind.Paths text.now) }
{
    let tail = behind_dot(behind_bang(text));
    let body = before_slash(tail);
    match texts_of(alloc, body) {
        Ok(texts) => Ok(texts),
        Err(Stop::Byte(left)) => Err(Bad::At(text.len() - tail.len() + (body.len() - left))),
        Err(Stop::End) => Err(Bad::At(text.len())),
        Err(Stop::TooMany) => Err(Bad::TooMany),
        Err(Stop::Memory) => Err(Bad::Memory),
    }
}

fn name_texts(alloc: Global, text: &[u8]) -> Result<Vec<Vec<u8>>, Bad>
    ensures ok { IfOk result (λ v. Reads Kind.Names text.now (map (λ v. v.items) v.items)) }
    ensures err { IfErr result (IsBad Kind.Names text.now) }
{
    let body = behind_bang(text);
    let rest = behind_plain(body);
    if let Some(_) = next(rest) {
        return Err(Bad::At(text.len() - body.len() + (body.len() - rest.len())));
    }
    match single(alloc, body) {
        Ok(texts) => Ok(texts),
        Err(_) => Err(Bad::Memory),
    }
}

/// The texts without braces that a pattern stands for.
pub(crate) fn pattern_texts(alloc: Global, kind: Kind, text: &[u8]) -> Result<Vec<Vec<u8>>, Bad>
    ensures ok { IfOk result (λ v. Reads kind text.now (map (λ v. v.items) v.items)) }
    ensures err { IfErr result (IsBad kind text.now) }
{
    match kind {
        Kind::Paths => path_texts(alloc, text),
        Kind::Names => name_texts(alloc, text),
    }
}
