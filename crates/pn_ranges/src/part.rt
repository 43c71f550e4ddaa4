// The parts of a version: numbers and wildcards.
ghost use Rattle.std.specs.Prelude.{◌≡◌, ◌==◌, ◌≤◌, ◌<◌, ◌^◌, ◌*◌, ◌+◌, ◌-◌, ℕ, suc, length, [], ◌∷◌, MatchOption, Some, IfOk, IfErr, IfSome, IfNone, true, false};
ghost use Rattle.pn_ranges.specs.Bytes.{behind, is_body, is_digit, is_lead, is_space, is_wild, number_at, starts_with};
ghost use Rattle.pn_ranges.specs.Grammar.{IsPart};
ghost use Rattle.pn_ranges.specs.Places.{Turn, dot, whole, first_fault};
ghost use Rattle.pn_ranges.specs.Reading.{Begins, left_of};

use crate::fault::Stop;

/// The first byte and what is behind it.
pub(crate) fn next(text: &[u8]) -> Option<(u8, &[u8])>
    ensures { MatchOption result (text.now ≡ []) (λ r. text.now ≡ r.0 ∷ r.1.now) }
{
    match text.split_first() {
        Some((b, rest)) => Some((*b, rest)),
        None => None,
    }
}

/// What is behind this byte, if the text begins with it.
pub(crate) fn strip(text: &[u8], byte: u8) -> Option<&[u8]>
    ensures { MatchOption result (starts_with (λ b. b == byte) text.now ≡ false) (λ r. text.now
        ≡ byte ∷ r.now) }
{
    let (b, rest) = next(text)?;
    if b == byte { Some(rest) } else { None }
}

fn is_space(b: u8) -> bool
    ensures { result ≡ is_space b }
{
    b == b' ' || b == b'\t'
}

fn is_lead(b: u8) -> bool
    ensures { result ≡ is_lead b }
{
    b == b'v' || b == b'='
}

fn is_wild(b: u8) -> bool
    ensures { result ≡ is_wild b }
{
    b == b'x' || b == b'X' || b == b'*'
}

pub(crate) fn is_digit(b: u8) -> bool
    ensures { result ≡ is_digit b }
{
    b'0' <= b && b <= b'9'
}

pub(crate) fn starts_with_space(text: &[u8]) -> bool
    ensures { result ≡ starts_with is_space text.now }
{
    match next(text) {
        Some((b, _)) => is_space(b),
        None => false,
    }
}

/// What is behind the spaces at the front.
pub(crate) fn behind_spaces(text: &[u8]) -> &[u8]
    ensures { result.now ≡ behind is_space text.now }
{
    let mut rest = text;
    'bytes: while let Some((b, behind)) = next(rest) {
        if !is_space(b) {
            break;
        }
        rest = behind;
    }
    rest
}

/// What is behind each `v` and `=` at the front.
pub(crate) fn behind_leads(text: &[u8]) -> &[u8]
    ensures { result.now ≡ behind is_lead text.now }
{
    let mut rest = text;
    'bytes: while let Some((b, behind)) = next(rest) {
        if !is_lead(b) {
            break;
        }
        rest = behind;
    }
    rest
}

// The number with one more digit, if that is below 2^64.
fn more(n: u64, digit: u8) -> Option<u64>
    requires { 48 ≤ digit }
    ensures none { IfNone result (2 ^ 64 ≤ n * 10 + (digit - 48)) }
    ensures some { IfSome result (λ m. (m ≡ n * 10 + (digit - 48)) × (m < 2 ^ 64)) }
{
    let tens = n.checked_mul(10)?;
    tens.checked_add(u64::from(digit - b'0'))
}

// The value of the digits at the front, if it is below 2^64, and what is behind them.
fn number(text: &[u8]) -> Option<(u64, &[u8])>
    ensures value { IfSome result (λ r. (r.0 ≡ number_at text.now) × (r.0 < 2 ^ 64)) }
    ensures rest { IfSome result (λ r. r.1.now ≡ behind is_digit text.now) }
    ensures large { IfNone result (2 ^ 64 ≤ number_at text.now) }
{
    let mut n = 0u64;
    let mut rest = text;
    'bytes: while let Some((b, behind)) = next(rest) {
        if !is_digit(b) {
            break;
        }
        n = more(n, b)?;
        rest = behind;
    }
    Some((n, rest))
}

/// The part at the front, None for a wildcard, and what is behind it.
pub(crate) fn part(text: &[u8]) -> Result<(Option<u64>, &[u8]), Stop>
    ensures read { IfOk result (λ r. Begins IsPart text.now r.0 r.1.now) }
    ensures shorter { IfOk result (λ r. length r.1.now < length text.now) }
    ensures goes { IfOk result (λ r. (e : Turn) (k : ℕ) → first_fault (dot e k) text.now
        ≡ first_fault (whole e (suc k)) r.1.now) }
    ensures stops { IfErr result (λ s. (e : Turn) (k : ℕ) → first_fault (dot e k) text.now
        ≡ Some s) }
    ensures inside { IfErr result (λ s. length (behind is_body text.now) ≤ left_of s) }
{
    let Some((b, rest)) = next(text) else {
        return Err(Stop::Byte(0));
    };
    if b == b'0' {
        return Ok((Some(0), rest));
    }
    if is_wild(b) {
        return Ok((None, rest));
    }
    if !is_digit(b) {
        return Err(Stop::Byte(text.len()));
    }
    match number(text) {
        Some((n, rest)) => Ok((Some(n), rest)),
        None => Err(Stop::Number(text.len())),
    }
}
