// Comparators: an operator and a partial version.
ghost use Rattle.std.specs.Prelude.{◌≡◌, ◌<◌, ◌==◌, ◌&&◌, not, ℕ, List, length, IfOk, IfErr, OnErr, IsTrue, Some, true, false};
ghost use Rattle.pn_ranges.specs.Bytes.{is_body, is_space, starts_with};
ghost use Rattle.pn_ranges.specs.Edges.{left_at, named_by};
ghost use Rattle.pn_ranges.specs.Grammar.{IsEnd, IsSign, may_join};
ghost use Rattle.pn_ranges.specs.Overs.{OverAt};
ghost use Rattle.pn_ranges.specs.Places.{Turn, fault_after, fault_comparator, fault_signed, is_exact, turn_of};
ghost use Rattle.pn_ranges.specs.Reading.{Begins, IsCompared, signed};
ghost use Rattle.pn_ranges.specs.Table.{all_fit, limits, named, raised};
ghost use Rattle.pn_ranges.specs.Unread.{NoCompared};

use crate::fault::Stop;
use crate::part::{behind_spaces, next, starts_with_space, strip};
use crate::partial::{Partial, end};

/// An operator. None at all counts as `=`.
#[derive(Clone, Copy, Debug, PartialEq, Eq)]
pub enum Sign {
    Exact,
    Less,
    AtMost,
    Greater,
    AtLeast,
    Tilde,
    Caret,
}

/// An operator and what it is applied to. It is plain where it may also be the lower end of `A - B`.
#[derive(Clone, Copy)]
pub struct Comparator<'a> {
    pub sign: Sign,
    pub partial: Partial<'a>,
    pub plain: bool,
}

// The longest operator at the front, and what is behind it.
fn sign_at(text: &[u8]) -> (Sign, &[u8])
    ensures read { Begins IsSign text.now result.0 result.1.now }
    ensures longest { (may_join result.0 && starts_with (λ b. b == 61) result.1.now) ≡ false }
    ensures behind { result.1.now ≡ (signed text.now).1 }
    ensures goes { (e : Turn) → starts_with is_space text.now ≡ false → fault_comparator e text.now
        ≡ fault_signed result.0 e result.1.now }
{
    let Some((b, rest)) = next(text) else {
        return (Sign::Exact, text);
    };
    match b {
        b'<' => match strip(rest, b'=') {
            Some(after) => (Sign::AtMost, after),
            None => (Sign::Less, rest),
        },
        b'>' => match strip(rest, b'=') {
            Some(after) => (Sign::AtLeast, after),
            None => (Sign::Greater, rest),
        },
        b'~' => match strip(rest, b'>') {
            Some(after) => (Sign::Tilde, after),
            None => (Sign::Tilde, rest),
        },
        b'^' => (Sign::Caret, rest),
        b'=' => (Sign::Exact, rest),
        _ => (Sign::Exact, text),
    }
}

// Whether what stands there may be the lower end of `A - B`: no operator but `=`, and no space behind that.
fn is_plain(sign: Sign, operand: &[u8]) -> bool
    ensures { result ≡ (is_exact sign && not (starts_with is_space operand.now)) }
{
    matches!(sign, Sign::Exact) && !starts_with_space(operand)
}

/// The comparator at the front, and what is behind it.
pub(crate) fn comparator_at(text: &[u8]) -> Result<(Comparator<'_>, &[u8]), Stop>
    ensures read { IfOk result (λ r. Begins IsCompared text.now (
      r.0.sign,
      named r.0.partial.major r.0.partial.minor r.0.partial.patch r.0.partial.pre.now,
    ) r.1.now) }
    ensures lower { IfOk result (λ r. IsTrue r.0.plain → Begins IsEnd text.now
        (named r.0.partial.major r.0.partial.minor r.0.partial.patch r.0.partial.pre.now) r.1.now) }
    ensures over { IfOk result (λ r. all_fit (limits r.0.sign (named_by r.0.partial)) ≡ false
        → starts_with is_body r.1.now ≡ false
        → OverAt text.now r.1.now (left_at (raised r.0.sign (named_by r.0.partial)) r.0.partial)) }
    ensures shorter { IfOk result (λ r. length r.1.now < length text.now) }
    ensures goes { IfOk result (λ r. (e : Turn) → starts_with is_space text.now ≡ false
        → fault_comparator e text.now ≡ fault_after (turn_of r.0.plain e) r.1.now) }
    ensures stops { IfErr result (λ s. (e : Turn) → starts_with is_space text.now ≡ false
        → fault_comparator e text.now ≡ Some s) }
    ensures whole { IfOk result (λ r. starts_with is_body r.1.now ≡ true → NoCompared text.now) }
    ensures none { OnErr result (NoCompared text.now) }
{
    let (sign, operand) = sign_at(text);
    let plain = is_plain(sign, operand);
    let (partial, rest) = end(behind_spaces(operand))?;
    Ok((
        Comparator {
            sign,
            partial,
            plain,
        },
        rest,
    ))
}
