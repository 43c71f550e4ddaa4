// Matching of paths, part by part: `**` stands for any number of parts that aren't hidden.
ghost use Rattle.std.specs.Prelude.{◌≡◌, ◌≤◌, [], ◌∷◌, length, not, MatchOption, IfSome, true, false};
ghost use Rattle.std.specs.Str.{bytes_eq};
ghost use Rattle.pn_glob.specs.Bytes.{is_hidden, parts};
ghost use Rattle.pn_glob.specs.Gaps.{any_later, any_rest, matches};
ghost use Rattle.pn_glob.specs.Matching.{part_fits, part_rules};
ghost use Rattle.pn_glob.specs.WhatIsLeft.{at_gap, left_of};

use crate::bytes::{bytes_match, next};
use crate::kind::Kind;
use crate::parts::Parts;

fn is_hidden(part: &[u8]) -> bool
    ensures { result ≡ is_hidden part.now }
{
    match next(part) {
        Some((b, _)) => b == b'.',
        None => false,
    }
}

fn is_gap(part: &[u8]) -> bool
    ensures { result ≡ bytes_eq part.now (42 ∷ 42 ∷ []) }
{
    part == b"**".as_slice()
}

fn part_fits(piece: &[u8], part: &[u8]) -> bool
    ensures { result ≡ part_fits piece.now part.now }
{
    (is_hidden(piece) || !is_hidden(part)) && bytes_match(Kind::Paths, piece, part)
}

// What is left of pattern and path at the pattern's first `**` or the end of both, if the parts before fit.
fn prefix<'a>(pattern: Parts<'a>, path: Parts<'a>) -> Option<(Parts<'a>, Parts<'a>)>
    ensures value { MatchOption result (matches part_rules (left_of pattern.entry) (left_of path.entry) ≡ false)
        (λ r. matches part_rules (left_of pattern.entry) (left_of path.entry) ≡ matches part_rules (left_of r.0) (left_of r.1)) }
    ensures first { IfSome result (λ r. any_later (λ y. not (is_hidden y)) (matches part_rules (left_of pattern.entry)) (left_of path.entry) ≡ true
        → matches part_rules (left_of r.0) (left_of r.1) ≡ true) }
    ensures gap { IfSome result (λ r. at_gap part_rules (left_of r.0) (left_of r.1) ≡ true) }
    ensures shorter { IfSome result (λ r. length (left_of r.0) ≤ length (left_of pattern.entry)) }
{
    let mut left = pattern;
    let mut rest = path;
    'parts: while let Some((piece, behind)) = left.next() {
        if is_gap(piece) {
            return Some((left, rest));
        }
        let (part, after) = rest.next()?;
        if !part_fits(piece, part) {
            return None;
        }
        left = behind;
        rest = after;
    }
    match rest.next() {
        Some(_) => None,
        None => Some((left, rest)),
    }
}

// The same at the first place of the path where the parts before the next `**` fit, behind none that is hidden.
fn search<'a>(pattern: Parts<'a>, path: Parts<'a>) -> Option<(Parts<'a>, Parts<'a>)>
    ensures value { MatchOption result (any_rest (λ y. not (is_hidden y)) (matches part_rules (left_of pattern.entry)) (left_of path.entry) ≡ false)
        (λ r. any_rest (λ y. not (is_hidden y)) (matches part_rules (left_of pattern.entry)) (left_of path.entry) ≡ matches part_rules (left_of r.0) (left_of r.1)) }
    ensures gap { IfSome result (λ r. at_gap part_rules (left_of r.0) (left_of r.1) ≡ true) }
    ensures shorter { IfSome result (λ r. length (left_of r.0) ≤ length (left_of pattern.entry)) }
{
    let mut rest = path;
    'places: loop {
        if let Some(found) = prefix(pattern, rest) {
            return Some(found);
        }
        let (part, after) = rest.next()?;
        if is_hidden(part) {
            return None;
        }
        rest = after;
    }
}

/// Whether a pattern without braces matches a path. Between two `**` each place of the path is tried once, so it takes
/// steps in proportion to the pattern's length times the path's.
pub(crate) fn paths_match(pattern: &[u8], path: &[u8]) -> bool
    ensures { result ≡ matches part_rules (parts pattern.now) (parts path.now) }
{
    let Some((mut left, mut rest)) = prefix(Parts::of(pattern), Parts::of(path)) else {
        return false;
    };
    'gaps: while let Some((_, behind)) = left.next() {
        let Some(found) = search(behind, rest) else {
            return false;
        };
        left = found.0;
        rest = found.1;
    }
    true
}
