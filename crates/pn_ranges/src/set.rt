// Range sets: ranges joined by `||`.
ghost use Rattle.std.specs.Prelude.{◌≡◌, ◌≢◌, ◌≤◌, ◌+◌, ℕ, List, [], ◌∷◌, ◌++◌, length, map, IfOk, IfErr, OnOk, None, true, false, codes};
ghost use Rattle.std.specs.List.{list_any};
ghost use Rattle.semver.specs.Identifiers.{parts_of};
ghost use Rattle.pn_ranges.specs.Grammar.{AreRanges, Spells};
ghost use Rattle.pn_ranges.specs.Limits.{Limit, meets_all, satisfies};
ghost use Rattle.pn_ranges.specs.Overs.{HasOver};
ghost use Rattle.pn_ranges.specs.Places.{closed, first_fault, start};
ghost use Rattle.pn_ranges.specs.Reading.{SpacedRange, Stops};
ghost use Rattle.pn_ranges.specs.Refusals.{IsLeftOf, NoOver, RangeRefused, refusal_of};
ghost use Rattle.pn_ranges.specs.Unread.{ends_range};

use crate::bound::{Bound, meets_all, push_edges};
use crate::comparator::Sign;
use crate::fault::{RangeFault, Stop};
use crate::part::{behind_spaces, strip};
use crate::range::range_at;
use crate::table::any_edges;
use semver::Version;
use std::alloc::{AllocError, Global};
use std::marker::Model;

/// A set of version ranges as npm writes them: lists of bounds, of which a version keeps to one.
#[derive(Drop)]
pub struct Range {
    ranges: Vec<Vec<Bound>>,
}

impl Model for Range {
    ghost use Rattle.std.specs.Prelude.{List, map};
    ghost use Rattle.pn_ranges.specs.Limits.{Limit};

    ghost Value = { List (List Limit) };

    ghost view = { λ a. map (λ v. v.items) a.ranges.items };
}

// Adds the range at the front. How many comparators it has, and what is behind the spaces behind it.
fn range_into<'a>(
    alloc: Global,
    text: &'a [u8],
    ranges: &mut Vec<Vec<Bound>>,
) -> Result<(usize, &'a [u8]), Stop>
    ensures read { IfOk result (λ r. (ls : List Limit) × SpacedRange text.now r.0 ls r.1.now
        × (map (λ v. v.items) ranges.new.items ≡ map (λ v. v.items) ranges.old.items ++ ls ∷ [])) }
    ensures ends { IfOk result (λ r. ends_range r.1.now ≡ true) }
    ensures few { IfOk result (λ r. r.0 + length r.1.now ≤ length text.now) }
    ensures goes { IfOk result (λ r. first_fault start text.now ≡ first_fault closed r.1.now) }
    ensures stops { IfErr result (Stops (HasOver text.now) (NoOver text.now) (first_fault start text.now)) }
{
    let mut bounds = Vec::new(alloc);
    let (count, rest) = range_at(alloc, behind_spaces(text), &mut bounds)?;
    ranges.push(bounds)?;
    Ok((count, rest))
}

// Adds the ranges of a text. How many comparators they have.
fn ranges_in(alloc: Global, text: &[u8], ranges: &mut Vec<Vec<Bound>>) -> Result<usize, Stop>
    requires { ranges.old.items ≡ [] }
    ensures read { IfOk result (λ k. AreRanges text.now k (map (λ v. v.items) ranges.new.items)) }
    ensures right { OnOk result (first_fault start text.now ≡ None) }
    ensures stops { IfErr result (Stops (HasOver text.now) (NoOver text.now) (first_fault start text.now)) }
{
    let mut count = 0;
    let mut rest = text;
    'each: loop {
        let (k, behind) = range_into(alloc, rest, ranges)?;
        count += k;
        let Some(after) = strip(behind, b'|') else {
            return Ok(count);
        };
        let Some(next) = strip(after, b'|') else {
            return Err(Stop::Byte(after.len()));
        };
        rest = next;
    }
}

fn refusal(len: usize, stop: Stop) -> RangeFault
    requires { IsLeftOf len stop }
    ensures { result ≡ refusal_of len stop }
{
    match stop {
        Stop::Byte(left) => RangeFault::BadByte(len - left),
        Stop::Number(left) => RangeFault::NumberTooLarge(len - left),
        Stop::Memory => RangeFault::Memory,
    }
}

fn some_meets(ranges: &[Vec<Bound>], version: &Version) -> bool
    ensures { result ≡ list_any (λ v. meets_all (parts_of version.now) v.items) ranges.now }
{
    ranges.iter().any(|bounds| meets_all(bounds, version))
}

impl Range {
    /// Reads a range set. Where several faults stand in a text the first place is named; `TooMany` is answered of
    /// texts without another fault alone.
    pub fn read(alloc: Global, text: &str) -> Result<Range, RangeFault>
        ensures spells { IfOk result (λ r. Spells text.now r) }
        ensures fault { IfErr result (RangeRefused text.now) }
        ensures none { IfErr result (λ e. e ≢ RangeFault.Memory → (r : List (List Limit)) → Spells text.now r
            → ⊥) }
    {
        let mut ranges = Vec::new(alloc);
        match ranges_in(alloc, text.as_bytes(), &mut ranges) {
            Ok(count) if count <= 1024 => Ok(Range { ranges }),
            Ok(_) => Err(RangeFault::TooMany),
            Err(stop) => Err(refusal(text.len(), stop)),
        }
    }

    /// The range `*`.
    pub fn any(alloc: Global) -> Result<Range, AllocError>
        ensures { IfOk result (Spells (codes "*")) }
    {
        let mut bounds = Vec::new(alloc);
        match push_edges(alloc, &mut bounds, &any_edges(Sign::Exact)) {
            Ok(()) => {}
            Err(_) => return Err(AllocError),
        }
        let mut ranges = Vec::new(alloc);
        ranges.push(bounds)?;
        Ok(Range { ranges })
    }

    /// Whether a version satisfies the range set. Build metadata counts for nothing.
    pub fn holds(&self, version: &Version) -> bool
        ensures { result ≡ satisfies (parts_of version.now) self.now }
    {
        some_meets(&self.ranges, version)
    }
}
