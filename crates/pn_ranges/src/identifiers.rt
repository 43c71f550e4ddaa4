// Pre-releases and builds: identifiers joined by dots.
ghost use Rattle.std.specs.Prelude.{◌≡◌, ◌≤◌, ◌==◌, ◌&&◌, ℕ, [], ◌∷◌, List, length, Some, IfOk, IfErr, true, false};
ghost use Rattle.semver.specs.Grammar.{is_build_identifier, is_identifier_byte, is_pre_identifier};
ghost use Rattle.pn_ranges.specs.Bytes.{behind, is_body, is_digit, is_word, starts_with};
ghost use Rattle.pn_ranges.specs.Grammar.{AreIdentifiers, IsTail};
ghost use Rattle.pn_ranges.specs.Places.{Turn, build, fault_after, first_fault, hyphen, plus, pre, whole};
ghost use Rattle.pn_ranges.specs.Reading.{Begins, Spanned, left_of};

use crate::fault::Stop;
use crate::part::{is_digit, next};

fn is_identifier_byte(b: u8) -> bool
    ensures { result ≡ is_identifier_byte b }
{
    is_digit(b) || b'A' <= b && b <= b'Z' || b'a' <= b && b <= b'z' || b == b'-'
}

fn starts_with_digit(text: &[u8]) -> bool
    ensures { result ≡ starts_with is_digit text.now }
{
    match next(text) {
        Some((b, _)) => is_digit(b),
        None => false,
    }
}

fn starts_with_identifier(text: &[u8]) -> bool
    ensures { result ≡ starts_with is_identifier_byte text.now }
{
    match next(text) {
        Some((b, _)) => is_identifier_byte(b),
        None => false,
    }
}

fn behind_digits(text: &[u8]) -> &[u8]
    ensures { result.now ≡ behind is_digit text.now }
{
    let mut rest = text;
    'bytes: while let Some((b, behind)) = next(rest) {
        if !is_digit(b) {
            break;
        }
        rest = behind;
    }
    rest
}

fn behind_identifier(text: &[u8]) -> &[u8]
    ensures { result.now ≡ behind is_identifier_byte text.now }
{
    let mut rest = text;
    'bytes: while let Some((b, behind)) = next(rest) {
        if !is_identifier_byte(b) {
            break;
        }
        rest = behind;
    }
    rest
}

// Whether a zero is followed by a digit.
fn is_zero_led(b: u8, rest: &[u8]) -> bool
    ensures { result ≡ ((b == 48) && starts_with is_digit rest.now) }
{
    b == b'0' && starts_with_digit(rest)
}

// What is behind the identifier of a pre-release. A number in it has no leading zero.
pub(crate) fn pre_identifier(text: &[u8]) -> Result<&[u8], Stop>
    ensures read { IfOk result (λ r. Spanned is_pre_identifier text.now r.now) }
    ensures ends { IfOk result (λ r. starts_with is_identifier_byte r.now ≡ false) }
    ensures goes { IfOk result (λ r. (e : Turn) → first_fault (hyphen e) text.now
        ≡ first_fault (pre e) r.now) }
    ensures stops { IfErr result (λ s. (e : Turn) → first_fault (hyphen e) text.now ≡ Some s) }
    ensures inside { IfErr result (λ s. length (behind is_body text.now) ≤ left_of s) }
{
    let Some((b, rest)) = next(text) else {
        return Err(Stop::Byte(0));
    };
    if !is_identifier_byte(b) {
        return Err(Stop::Byte(text.len()));
    }
    if is_zero_led(b, rest) {
        let word = behind_digits(rest);
        if !starts_with_identifier(word) {
            return Err(Stop::Byte(word.len()));
        }
        return Ok(behind_identifier(word));
    }
    Ok(behind_identifier(rest))
}

// What is behind the identifier of a build.
pub(crate) fn build_identifier(text: &[u8]) -> Result<&[u8], Stop>
    ensures read { IfOk result (λ r. Spanned is_build_identifier text.now r.now) }
    ensures ends { IfOk result (λ r. starts_with is_identifier_byte r.now ≡ false) }
    ensures goes { IfOk result (λ r. (e : Turn) → first_fault (plus e) text.now
        ≡ first_fault (build e) r.now) }
    ensures stops { IfErr result (λ s. (e : Turn) → first_fault (plus e) text.now ≡ Some s) }
    ensures inside { IfErr result (λ s. length (behind is_body text.now) ≤ left_of s) }
{
    let Some((b, rest)) = next(text) else {
        return Err(Stop::Byte(0));
    };
    if !is_identifier_byte(b) {
        return Err(Stop::Byte(text.len()));
    }
    Ok(behind_identifier(rest))
}
