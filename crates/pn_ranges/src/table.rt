// What comparators and hyphen ranges mean.
ghost use Rattle.std.specs.Prelude.{◌≡◌, ◌+◌, ◌<◌, ◌≤◌, ◌^◌, ◌++◌, [], IfOk, IfErr, true, false};
ghost use Rattle.semver.specs.Grammar.{is_pre_release};
ghost use Rattle.pn_ranges.specs.Edges.{EdgeHasPre, EdgesHavePre, HasPre, all_limits_of, left_at, limit_of, limits_of, named_by};
ghost use Rattle.pn_ranges.specs.Table.{any, full, major as only_major, minor as only_minor, all_fit, between, caret_end, fits, limits, lower_limits, or_any, raised, upper_limits, upper_raised};

use crate::bound::Comparison;
use crate::comparator::Sign;
use crate::edge::{Edge, Edges, at_least, before};
use crate::fault::Stop;
use crate::partial::Partial;

// One more, if that is below 2^64.
fn above(n: u64, left: usize) -> Result<u64, Stop>
    ensures ok { IfOk result (λ m. m ≡ n + 1) }
    ensures err { IfErr result (λ s. (s ≡ Stop.Number left) × (2 ^ 64 ≤ n + 1)) }
{
    match n.checked_add(1) {
        Some(m) => Ok(m),
        None => Err(Stop::Number(left)),
    }
}

pub(crate) fn any_edges<'a>(sign: Sign) -> Edges<'a>
    ensures value { all_limits_of result ≡ limits sign any }
    ensures pre { EdgesHavePre result }
{
    let low = match sign {
        Sign::Less | Sign::Greater => before(0, 0, 0),
        _ => at_least(0, 0, 0),
    };
    Edges {
        low: Some(low),
        high: None,
    }
}

fn major_edges<'a>(sign: Sign, a: u64, left: usize) -> Result<Edges<'a>, Stop>
    ensures value { IfOk result (λ r. all_limits_of r ≡ limits sign (only_major a)) }
    ensures pre { IfOk result (λ r. EdgesHavePre r) }
    ensures large { IfErr result (λ s. (s ≡ Stop.Number left) × (all_fit (limits sign (only_major a))
        ≡ false)) }
{
    let (low, high) = match sign {
        Sign::Less => (Some(before(a, 0, 0)), None),
        Sign::AtLeast => (Some(at_least(a, 0, 0)), None),
        Sign::Greater => (Some(at_least(above(a, left)?, 0, 0)), None),
        Sign::AtMost => (Some(before(above(a, left)?, 0, 0)), None),
        Sign::Exact | Sign::Tilde | Sign::Caret => {
            (Some(at_least(a, 0, 0)), Some(before(above(a, left)?, 0, 0)))
        }
    };
    Ok(Edges { low, high })
}

fn minor_edges<'a>(sign: Sign, a: u64, b: u64, p: &Partial<'_>) -> Result<Edges<'a>, Stop>
    ensures value { IfOk result (λ r. all_limits_of r ≡ limits sign (only_minor a b)) }
    ensures pre { IfOk result (λ r. EdgesHavePre r) }
    ensures large { IfErr result (λ s. (s ≡ Stop.Number (left_at (raised sign (only_minor a b)) p.now))
        × (all_fit (limits sign (only_minor a b)) ≡ false)) }
{
    let (low, high) = match sign {
        Sign::Less => (Some(before(a, b, 0)), None),
        Sign::AtLeast => (Some(at_least(a, b, 0)), None),
        Sign::Greater => (Some(at_least(a, above(b, p.minor_left)?, 0)), None),
        Sign::AtMost => (Some(before(a, above(b, p.minor_left)?, 0)), None),
        Sign::Caret if a != 0 => {
            let end = before(above(a, p.major_left)?, 0, 0);
            (Some(at_least(a, b, 0)), Some(end))
        }
        Sign::Exact | Sign::Tilde | Sign::Caret => {
            let end = before(a, above(b, p.minor_left)?, 0);
            (Some(at_least(a, b, 0)), Some(end))
        }
    };
    Ok(Edges { low, high })
}

// Where a caret of a full version ends.
fn caret_end<'a>(a: u64, b: u64, c: u64, p: &Partial<'_>) -> Result<Edge<'a>, Stop>
    ensures value { IfOk result (λ r. limit_of r ≡ caret_end a b c) }
    ensures pre { IfOk result (λ r. is_pre_release r.pre.now ≡ true) }
    ensures large { IfErr result (λ s. (s ≡ Stop.Number (left_at (raised Sign.Caret (full a b c [])) p.now))
        × (fits (caret_end a b c) ≡ false)) }
{
    if a != 0 {
        return Ok(before(above(a, p.major_left)?, 0, 0));
    }
    if b != 0 {
        return Ok(before(a, above(b, p.minor_left)?, 0));
    }
    Ok(before(a, b, above(c, p.patch_left)?))
}

fn full_edges<'a>(sign: Sign, a: u64, b: u64, c: u64, p: &Partial<'a>) -> Result<Edges<'a>, Stop>
    requires { is_pre_release p.now.pre.now ≡ true }
    ensures value { IfOk result (λ r. all_limits_of r ≡ limits sign (full a b c p.now.pre.now)) }
    ensures pre { IfOk result (λ r. EdgesHavePre r) }
    ensures large { IfErr result (λ s. (s ≡ Stop.Number (left_at (raised sign (full a b c p.now.pre.now)) p.now))
        × (all_fit (limits sign (full a b c p.now.pre.now)) ≡ false)) }
{
    let (low, high) = match sign {
        Sign::Exact => (Some(Edge::with(Comparison::Exactly, a, b, c, p.pre)), None),
        Sign::Less => (Some(Edge::with(Comparison::Below, a, b, c, p.pre)), None),
        Sign::AtMost => (Some(Edge::with(Comparison::AtMost, a, b, c, p.pre)), None),
        Sign::Greater => (Some(Edge::with(Comparison::Above, a, b, c, p.pre)), None),
        Sign::AtLeast => (Some(Edge::with(Comparison::AtLeast, a, b, c, p.pre)), None),
        Sign::Tilde => {
            let end = before(a, above(b, p.minor_left)?, 0);
            (
                Some(Edge::with(Comparison::AtLeast, a, b, c, p.pre)),
                Some(end),
            )
        }
        Sign::Caret => {
            let end = caret_end(a, b, c, p)?;
            (
                Some(Edge::with(Comparison::AtLeast, a, b, c, p.pre)),
                Some(end),
            )
        }
    };
    Ok(Edges { low, high })
}

/// What a comparator means. The refusal is that of a number that would reach 2^64.
pub(crate) fn edges<'a>(sign: Sign, p: &Partial<'a>) -> Result<Edges<'a>, Stop>
    requires { HasPre (named_by p.now) }
    ensures value { IfOk result (λ r. all_limits_of r ≡ limits sign (named_by p.now)) }
    ensures pre { IfOk result (λ r. EdgesHavePre r) }
    ensures large { IfErr result (λ s. (s ≡ Stop.Number (left_at (raised sign (named_by p.now)) p.now))
        × (all_fit (limits sign (named_by p.now)) ≡ false)) }
{
    match (p.major, p.minor, p.patch) {
        (None, _, _) => Ok(any_edges(sign)),
        (Some(a), None, _) => major_edges(sign, a, p.major_left),
        (Some(a), Some(b), None) => minor_edges(sign, a, b, p),
        (Some(a), Some(b), Some(c)) => full_edges(sign, a, b, c, p),
    }
}

fn lower_edge<'a>(p: &Partial<'a>) -> Option<Edge<'a>>
    requires { HasPre (named_by p.now) }
    ensures value { limits_of result ≡ lower_limits (named_by p.now) }
    ensures pre { EdgeHasPre result }
{
    match (p.major, p.minor, p.patch) {
        (None, _, _) => None,
        (Some(a), None, _) => Some(at_least(a, 0, 0)),
        (Some(a), Some(b), None) => Some(at_least(a, b, 0)),
        (Some(a), Some(b), Some(c)) => Some(Edge::with(Comparison::AtLeast, a, b, c, p.pre)),
    }
}

fn upper_edge<'a>(p: &Partial<'a>) -> Result<Option<Edge<'a>>, Stop>
    requires { HasPre (named_by p.now) }
    ensures value { IfOk result (λ r. limits_of r ≡ upper_limits (named_by p.now)) }
    ensures pre { IfOk result (λ r. EdgeHasPre r) }
    ensures large { IfErr result (λ s. (s ≡ Stop.Number (left_at (upper_raised (named_by p.now)) p.now))
        × (all_fit (upper_limits (named_by p.now)) ≡ false)) }
{
    match (p.major, p.minor, p.patch) {
        (None, _, _) => Ok(None),
        (Some(a), None, _) => Ok(Some(before(above(a, p.major_left)?, 0, 0))),
        (Some(a), Some(b), None) => Ok(Some(before(a, above(b, p.minor_left)?, 0))),
        (Some(a), Some(b), Some(c)) => { Ok(Some(Edge::with(Comparison::AtMost, a, b, c, p.pre))) }
    }
}

// Where neither end has a limit each release is let by.
fn or_all<'a>(low: Option<Edge<'a>>, high: Option<Edge<'a>>) -> Edges<'a>
    requires low { EdgeHasPre low }
    requires high { EdgeHasPre high }
    ensures value { all_limits_of result ≡ or_any (limits_of low.entry ++ limits_of high.entry) }
    ensures pre { EdgesHavePre result }
{
    match (low, high) {
        (None, None) => any_edges(Sign::Exact),
        (low, high) => Edges { low, high },
    }
}

/// What `A - B` means. The refusal is that of a number that would reach 2^64.
pub(crate) fn hyphen_edges<'a>(low: &Partial<'a>, high: &Partial<'a>) -> Result<Edges<'a>, Stop>
    requires low { HasPre (named_by low.now) }
    requires high { HasPre (named_by high.now) }
    ensures value { IfOk result (λ r. all_limits_of r ≡ between (named_by low.now) (named_by high.now)) }
    ensures pre { IfOk result (λ r. EdgesHavePre r) }
    ensures large { IfErr result (λ s. (s ≡ Stop.Number (left_at (upper_raised (named_by high.now)) high.now))
        × (all_fit (upper_limits (named_by high.now)) ≡ false)) }
{
    let upper = upper_edge(high)?;
    Ok(or_all(lower_edge(low), upper))
}
