// Ranges: comparators or `A - B`.
ghost use Rattle.std.specs.Prelude.{◌≡◌, ◌==◌, ◌&&◌, ◌≤◌, ◌<◌, ◌+◌, ◌⊎◌, ℕ, List, [], ◌∷◌, ◌++◌, length, IfOk, IfErr, OnErr, OnOk, MatchOption, IsTrue, Some, None, true, false};
ghost use Rattle.pn_ranges.specs.Bytes.{behind, is_body, is_space, starts_with};
ghost use Rattle.pn_ranges.specs.Edges.{HasPre, IsRaised, left_at, named_by};
ghost use Rattle.pn_ranges.specs.Grammar.{IsEnd};
ghost use Rattle.pn_ranges.specs.Overs.{OverLater, OverRange, OverUpper};
ghost use Rattle.pn_ranges.specs.Places.{Turn, after, closed, dash, fault_after, fault_comparator, first_fault, gap, start, turn_of, upper};
ghost use Rattle.pn_ranges.specs.Reading.{Begins, ComparatorsAt, HyphenAt, LowerAt, RangeAt, SpacedAt, Stops, UpperAt};
ghost use Rattle.pn_ranges.specs.Table.{all_fit, limits, raised, upper_limits, upper_raised};
ghost use Rattle.pn_ranges.specs.Unread.{NeverTo, NoCompared, NoLater, NoRest, NoUpper, RangeTo, ends_range};

use crate::bound::{Bound, push_edges};
use crate::comparator::{Comparator, Sign, comparator_at};
use crate::fault::Stop;
use crate::part::{behind_spaces, next, starts_with_space, strip};
use crate::partial::{Partial, end};
use crate::table::{any_edges, edges, hyphen_edges};
use std::alloc::Global;

pub(crate) fn ends_range(text: &[u8]) -> bool
    ensures { result ≡ ends_range text.now }
{
    match next(text) {
        Some((b, _)) => b == b'|',
        None => true,
    }
}

// What is behind the spaces behind a version, which are missing only where its range ends.
fn behind_gap(text: &[u8]) -> Result<&[u8], Stop>
    ensures spaces { IfOk result (λ r. r.now ≡ behind is_space text.now) }
    ensures apart { IfOk result (λ r. starts_with is_space text.now ≡ false → ends_range r.now ≡ true) }
    ensures goes { IfOk result (λ r. (e : Turn) → fault_after e text.now ≡ first_fault (after e) r.now) }
    ensures stops { IfErr result (λ s. (e : Turn) → fault_after e text.now ≡ Some s) }
    ensures none { OnErr result (starts_with is_body text.now ≡ true) }
{
    if starts_with_space(text) {
        return Ok(behind_spaces(text));
    }
    if ends_range(text) {
        return Ok(text);
    }
    Err(Stop::Byte(text.len()))
}

// A comparator, and what is behind the spaces behind it.
fn spaced_at(text: &[u8]) -> Result<(Comparator<'_>, &[u8]), Stop>
    ensures read { IfOk result (λ r. SpacedAt text.now r.0.sign (named_by r.0.partial) r.1.now) }
    ensures lower { IfOk result (λ r. IsTrue r.0.plain → LowerAt text.now (named_by r.0.partial) r.1.now) }
    ensures pre { IfOk result (λ r. HasPre (named_by r.0.partial)) }
    ensures spaces { IfOk result (λ r. starts_with is_space r.1.now ≡ false) }
    ensures over { IfOk result (λ r. all_fit (limits r.0.sign (named_by r.0.partial)) ≡ false
        → OverLater text.now (left_at (raised r.0.sign (named_by r.0.partial)) r.0.partial)) }
    ensures shorter { IfOk result (λ r. length r.1.now < length text.now) }
    ensures goes { IfOk result (λ r. (e : Turn) → starts_with is_space text.now ≡ false
        → fault_comparator e text.now ≡ first_fault (after (turn_of r.0.plain e)) r.1.now) }
    ensures stops { IfErr result (λ s. (e : Turn) → starts_with is_space text.now ≡ false
        → fault_comparator e text.now ≡ Some s) }
    ensures none { OnErr result (NoCompared text.now) }
{
    let (comparator, behind) = comparator_at(text)?;
    let rest = behind_gap(behind)?;
    Ok((comparator, rest))
}

// The upper end behind the `-` of `A - B`, and what is behind the spaces behind it.
fn upper_at(text: &[u8]) -> Result<(Partial<'_>, &[u8]), Stop>
    ensures read { IfOk result (λ r. UpperAt text.now (named_by r.0) r.1.now) }
    ensures pre { IfOk result (λ r. HasPre (named_by r.0)) }
    ensures spaces { IfOk result (λ r. starts_with is_space r.1.now ≡ false) }
    ensures over { IfOk result (λ r. all_fit (upper_limits (named_by r.0)) ≡ false
        → OverUpper text.now (left_at (upper_raised (named_by r.0)) r.0)) }
    ensures goes { IfOk result (λ r. first_fault dash text.now ≡ first_fault closed r.1.now) }
    ensures stops { IfErr result (λ s. first_fault dash text.now ≡ Some s) }
    ensures none { OnErr result (NoUpper text.now) }
{
    if !starts_with_space(text) {
        return Err(Stop::Byte(text.len()));
    }
    let (high, behind) = end(behind_spaces(text))?;
    let rest = behind_gap(behind)?;
    Ok((high, rest))
}

fn push_comparator(
    alloc: Global,
    bounds: &mut Vec<Bound>,
    comparator: &Comparator<'_>,
) -> Result<(), Stop>
    requires { HasPre (named_by comparator.now.partial) }
    ensures ok { OnOk result (bounds.new.items ≡ bounds.old.items
        ++ limits comparator.now.sign (named_by comparator.now.partial)) }
    ensures fit { OnOk result (all_fit (limits comparator.now.sign (named_by comparator.now.partial)) ≡ true) }
    ensures err { IfErr result (λ s. (s ≡ Stop.Memory)
        ⊎ IsRaised (limits comparator.now.sign (named_by comparator.now.partial))
        (raised comparator.now.sign (named_by comparator.now.partial)) comparator.now.partial s) }
{
    let edges = edges(comparator.sign, &comparator.partial)?;
    push_edges(alloc, bounds, &edges)?;
    Ok(())
}

// The rest of `A - B` behind its `-`, and what is behind the spaces behind it.
fn hyphen_at<'a>(
    alloc: Global,
    low: &Partial<'_>,
    text: &'a [u8],
    bounds: &mut Vec<Bound>,
) -> Result<&'a [u8], Stop>
    requires pre { HasPre (named_by low.now) }
    requires none { bounds.old.items ≡ [] }
    ensures read { IfOk result (λ r. HyphenAt (named_by low.now) text.now bounds.new.items r.now) }
    ensures ends { IfOk result (λ r. ends_range r.now ≡ true) }
    ensures spaces { IfOk result (λ r. starts_with is_space r.now ≡ false) }
    ensures goes { IfOk result (λ r. first_fault dash text.now ≡ first_fault closed r.now) }
    ensures stops { IfErr result (Stops (OverUpper text.now) (NoRest text.now) (first_fault dash text.now)) }
{
    let (high, rest) = upper_at(text)?;
    let edges = hyphen_edges(low, &high)?;
    push_edges(alloc, bounds, &edges)?;
    if !ends_range(rest) {
        return Err(Stop::Byte(rest.len()));
    }
    Ok(rest)
}

// One more comparator, and what is behind the spaces behind it.
fn next_at<'a>(alloc: Global, text: &'a [u8], bounds: &mut Vec<Bound>) -> Result<&'a [u8], Stop>
    requires spaces { starts_with is_space text.now ≡ false }
    requires some { ends_range text.now ≡ false }
    ensures read { IfOk result (λ r. (whole : List ℕ) (k : ℕ) → ComparatorsAt whole k bounds.old.items text.now
        → ComparatorsAt whole (k + 1) bounds.new.items r.now) }
    ensures spaces { IfOk result (λ r. starts_with is_space r.now ≡ false) }
    ensures shorter { IfOk result (λ r. length r.now < length text.now) }
    ensures over { IfOk result (λ r. (left : ℕ) → OverLater r.now left → OverLater text.now left) }
    ensures none { IfOk result (λ r. NoLater r.now → NoLater text.now) }
    ensures goes { IfOk result (λ r. first_fault (gap false) text.now ≡ first_fault (gap false) r.now) }
    ensures stops { IfErr result (Stops (OverLater text.now) (NoLater text.now) (first_fault (gap false) text.now)) }
{
    let (comparator, rest) = spaced_at(text)?;
    push_comparator(alloc, bounds, &comparator)?;
    Ok(rest)
}

// The comparators behind a first one, how many they are, and what is behind the spaces behind them.
fn later_at<'a>(
    alloc: Global,
    text: &'a [u8],
    bounds: &mut Vec<Bound>,
) -> Result<(usize, &'a [u8]), Stop>
    requires { starts_with is_space text.now ≡ false }
    ensures read { IfOk result (λ r. (whole : List ℕ) (k : ℕ) → ComparatorsAt whole k bounds.old.items text.now
        → ComparatorsAt whole (k + r.0) bounds.new.items r.1.now) }
    ensures ends { IfOk result (λ r. ends_range r.1.now ≡ true) }
    ensures spaces { IfOk result (λ r. starts_with is_space r.1.now ≡ false) }
    ensures few { IfOk result (λ r. r.0 + length r.1.now ≤ length text.now) }
    ensures goes { IfOk result (λ r. first_fault (gap false) text.now ≡ first_fault closed r.1.now) }
    ensures stops { IfErr result (Stops (OverLater text.now) (NoLater text.now) (first_fault (gap false) text.now)) }
{
    let mut count = 0;
    let mut rest = text;
    'comparators: while !ends_range(rest) {
        rest = next_at(alloc, rest, bounds)?;
        count += 1;
    }
    Ok((count, rest))
}

// What is behind the `-` behind what may be a lower end.
fn behind_dash(plain: bool, text: &[u8]) -> Option<&[u8]>
    ensures { MatchOption result ((plain && starts_with (λ b. b == 45) text.now) ≡ false)
        (λ r. (plain ≡ true) × (text.now ≡ 45 ∷ r.now)) }
{
    if plain { strip(text, b'-') } else { None }
}

/// Adds the bounds of the range at the front. How many comparators it has, and what is behind the spaces behind it.
pub(crate) fn range_at<'a>(
    alloc: Global,
    text: &'a [u8],
    bounds: &mut Vec<Bound>,
) -> Result<(usize, &'a [u8]), Stop>
    requires spaces { starts_with is_space text.now ≡ false }
    requires none { bounds.old.items ≡ [] }
    ensures read { IfOk result (λ r. RangeAt text.now r.0 bounds.new.items r.1.now) }
    ensures ends { IfOk result (λ r. ends_range r.1.now ≡ true) }
    ensures few { IfOk result (λ r. r.0 + length r.1.now ≤ length text.now) }
    ensures goes { IfOk result (λ r. first_fault start text.now ≡ first_fault closed r.1.now) }
    ensures stops { IfErr result (Stops (OverRange text.now) (NeverTo RangeTo text.now) (first_fault start text.now)) }
{
    if ends_range(text) {
        push_edges(alloc, bounds, &any_edges(Sign::Exact))?;
        return Ok((0, text));
    }
    let (comparator, rest) = spaced_at(text)?;
    if let Some(upper) = behind_dash(comparator.plain, rest) {
        let rest = hyphen_at(alloc, &comparator.partial, upper, bounds)?;
        return Ok((2, rest));
    }
    push_comparator(alloc, bounds, &comparator)?;
    let (count, rest) = later_at(alloc, rest, bounds)?;
    Ok((count + 1, rest))
}
