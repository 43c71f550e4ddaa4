// What may stand behind three parts: a pre-release and a build.
ghost use Rattle.std.specs.Prelude.{◌≡◌, ◌≤◌, length, IfOk, IfErr, Some, false};
ghost use Rattle.semver.specs.Grammar.{is_build_identifier, is_pre_identifier};
ghost use Rattle.pn_ranges.specs.Bytes.{behind, is_body, is_word, starts_with};
ghost use Rattle.pn_ranges.specs.Grammar.{AreIdentifiers, IsBuild, IsTail};
ghost use Rattle.pn_ranges.specs.Places.{Turn, build, fault_after, fault_build, first_fault, hyphen, plus, pre, whole};
ghost use Rattle.pn_ranges.specs.Reading.{Begins, Fronted, left_of};

use crate::fault::Stop;
use crate::identifiers::{build_identifier, pre_identifier};
use crate::part::next;

// What is behind the identifiers of a pre-release.
fn behind_pre(text: &[u8]) -> Result<&[u8], Stop>
    ensures read { IfOk result (λ r. Fronted (AreIdentifiers is_pre_identifier) text.now r.now) }
    ensures ends { IfOk result (λ r. starts_with is_word r.now ≡ false) }
    ensures goes { IfOk result (λ r. (e : Turn) → first_fault (hyphen e) text.now
        ≡ first_fault (pre e) r.now) }
    ensures stops { IfErr result (λ s. (e : Turn) → first_fault (hyphen e) text.now ≡ Some s) }
    ensures inside { IfErr result (λ s. length (behind is_body text.now) ≤ left_of s) }
{
    let mut rest = pre_identifier(text)?;
    'dots: while let Some((b, behind)) = next(rest) {
        if b != b'.' {
            return Ok(rest);
        }
        rest = pre_identifier(behind)?;
    }
    Ok(rest)
}

// What is behind the identifiers of a build.
fn behind_identifiers(text: &[u8]) -> Result<&[u8], Stop>
    ensures read { IfOk result (λ r. Fronted (AreIdentifiers is_build_identifier) text.now r.now) }
    ensures ends { IfOk result (λ r. starts_with is_word r.now ≡ false) }
    ensures goes { IfOk result (λ r. (e : Turn) → first_fault (plus e) text.now
        ≡ first_fault (build e) r.now) }
    ensures stops { IfErr result (λ s. (e : Turn) → first_fault (plus e) text.now ≡ Some s) }
    ensures inside { IfErr result (λ s. length (behind is_body text.now) ≤ left_of s) }
{
    let mut rest = build_identifier(text)?;
    'dots: while let Some((b, behind)) = next(rest) {
        if b != b'.' {
            return Ok(rest);
        }
        rest = build_identifier(behind)?;
    }
    Ok(rest)
}

// What is behind a build, where one begins.
fn behind_build(text: &[u8]) -> Result<&[u8], Stop>
    ensures read { IfOk result (λ r. Fronted IsBuild text.now r.now) }
    ensures goes { IfOk result (λ r. (e : Turn) → fault_build e text.now ≡ fault_after e r.now) }
    ensures stops { IfErr result (λ s. (e : Turn) → fault_build e text.now ≡ Some s) }
    ensures inside { IfErr result (λ s. length (behind is_body text.now) ≤ left_of s) }
{
    let Some((b, behind)) = next(text) else {
        return Ok(text);
    };
    if b != b'+' {
        return Ok(text);
    }
    let rest = behind_identifiers(behind)?;
    Ok(rest)
}

/// The pre-release, empty where there is none, and what is behind it and a build.
pub(crate) fn tail(text: &[u8]) -> Result<(&[u8], &[u8]), Stop>
    ensures read { IfOk result (λ r. Begins IsTail text.now r.0.now r.1.now) }
    ensures rest { IfOk result (λ r. length r.1.now ≤ length text.now) }
    ensures goes { IfOk result (λ r. (e : Turn) → first_fault (whole e 3) text.now
        ≡ fault_after e r.1.now) }
    ensures stops { IfErr result (λ s. (e : Turn) → first_fault (whole e 3) text.now ≡ Some s) }
    ensures inside { IfErr result (λ s. length (behind is_body text.now) ≤ left_of s) }
{
    let Some((b, behind)) = next(text) else {
        return Ok((text, text));
    };
    if b != b'-' {
        let rest = behind_build(text)?;
        return Ok((text.split_at(0).0, rest));
    }
    let after = behind_pre(behind)?;
    let pre = behind.split_at(behind.len() - after.len()).0;
    let rest = behind_build(after)?;
    Ok((pre, rest))
}
