// Matching of bytes: `*` stands for any of them.
ghost use Rattle.std.specs.Prelude.{◌≡◌, ◌≤◌, [], ◌∷◌, length, MatchOption, IfSome, true, false};
ghost use Rattle.pn_glob.specs.Gaps.{any_later, any_rest, matches};
ghost use Rattle.pn_glob.specs.Matching.{byte_rules, stands_for};
ghost use Rattle.pn_glob.specs.WhatIsLeft.{at_gap};

use crate::kind::Kind;

/// The first byte and what is behind it.
pub(crate) fn next(text: &[u8]) -> Option<(u8, &[u8])>
    ensures { MatchOption result (text.now ≡ []) (λ r. text.now ≡ r.0 ∷ r.1.now) }
{
    match text.split_first() {
        Some((b, rest)) => Some((*b, rest)),
        None => None,
    }
}

fn stands_for(kind: Kind, c: u8, b: u8) -> bool
    ensures { result ≡ stands_for kind c b }
{
    match kind {
        Kind::Names => c == b,
        Kind::Paths => c == b'?' || c == b,
    }
}

// What is left of pattern and text at the pattern's first `*` or the end of both, if the bytes before fit.
fn prefix<'a>(kind: Kind, pattern: &'a [u8], text: &'a [u8]) -> Option<(&'a [u8], &'a [u8])>
    ensures value { MatchOption result (matches (byte_rules kind) pattern.now text.now ≡ false)
        (λ r. matches (byte_rules kind) pattern.now text.now ≡ matches (byte_rules kind) r.0.now r.1.now) }
    ensures first { IfSome result (λ r. any_later (λ b. true) (matches (byte_rules kind) pattern.now) text.now ≡ true
        → matches (byte_rules kind) r.0.now r.1.now ≡ true) }
    ensures gap { IfSome result (λ r. at_gap (byte_rules kind) r.0.now r.1.now ≡ true) }
    ensures shorter { IfSome result (λ r. length r.0.now ≤ length pattern.now) }
{
    let mut left = pattern;
    let mut rest = text;
    'bytes: while let Some((c, behind)) = next(left) {
        if c == b'*' {
            return Some((left, rest));
        }
        let (b, after) = next(rest)?;
        if !stands_for(kind, c, b) {
            return None;
        }
        left = behind;
        rest = after;
    }
    if rest.is_empty() {
        Some((left, rest))
    } else {
        None
    }
}

// The same at the first place of the text where the bytes before the next `*` fit.
fn search<'a>(kind: Kind, pattern: &'a [u8], text: &'a [u8]) -> Option<(&'a [u8], &'a [u8])>
    ensures value { MatchOption result (any_rest (λ b. true) (matches (byte_rules kind) pattern.now) text.now ≡ false)
        (λ r. any_rest (λ b. true) (matches (byte_rules kind) pattern.now) text.now ≡ matches (byte_rules kind) r.0.now r.1.now) }
    ensures gap { IfSome result (λ r. at_gap (byte_rules kind) r.0.now r.1.now ≡ true) }
    ensures shorter { IfSome result (λ r. length r.0.now ≤ length pattern.now) }
{
    let mut rest = text;
    'places: loop {
        if let Some(found) = prefix(kind, pattern, rest) {
            return Some(found);
        }
        let (_, after) = next(rest)?;
        rest = after;
    }
}

/// Whether a pattern matches a text, byte by byte. Between two `*` each place of the text is tried once, so it takes
/// steps in proportion to the pattern's length times the text's.
pub(crate) fn bytes_match(kind: Kind, pattern: &[u8], text: &[u8]) -> bool
    ensures { result ≡ matches (byte_rules kind) pattern.now text.now }
{
    let Some((mut left, mut rest)) = prefix(kind, pattern, text) else {
        return false;
    };
    'gaps: while let Some((_, behind)) = next(left) {
        let Some(found) = search(kind, behind, rest) else {
            return false;
        };
        left = found.0;
        rest = found.1;
    }
    true
}
