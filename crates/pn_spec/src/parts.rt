// The parts of a specifier.
ghost use Rattle.std.specs.Prelude.{◌≡◌, ◌++◌, ◌∷◌, [], ℕ, MatchOption, IfOk, IfErr, OnOk, true, false};
ghost use Rattle.pn_ranges.specs.Bytes.{behind, is_space};
ghost use Rattle.pn_text.specs.Name.{is_name};
ghost use Rattle.pn_spec.specs.SpecTexts.{HasNoPart, IsParted, trimmed, trim_end};
ghost use Rattle.pn_spec.specs.Refusals.{Refuses};

use crate::fault::SpecFault;
use pn_text::{NameFault, PkgName};
use std::alloc::Global;

/// The text without the spaces and tabs at both ends.
pub(crate) fn trimmed(text: &str) -> &str
    ensures { result.now ≡ trimmed text.now }
{
    trim_end(trim_start(text))
}

fn trim_start(text: &str) -> &str
    ensures { result.now ≡ behind is_space text.now }
{
    let mut rest = text;
    'bytes: while let Some(behind) = behind_space(rest) {
        rest = behind;
    }
    rest
}

fn trim_end(text: &str) -> &str
    ensures { result.now ≡ trim_end text.now }
{
    let mut rest = text;
    'bytes: while let Some(front) = before_space(rest) {
        rest = front;
    }
    rest
}

// What is behind a space or tab at the front.
fn behind_space(text: &str) -> Option<&str>
    ensures { MatchOption result (behind is_space text.now ≡ text.now) (λ r. (b : ℕ) × (is_space b ≡ true)
        × (text.now ≡ b ∷ r.now)) }
{
    if let Some(rest) = text.strip_prefix(' ') {
        return Some(rest);
    }
    text.strip_prefix('\t')
}

// What is before a space or tab at the end.
fn before_space(text: &str) -> Option<&str>
    ensures { MatchOption result (trim_end text.now ≡ text.now) (λ r. (b : ℕ) × (is_space b ≡ true)
        × (text.now ≡ r.now ++ b ∷ [])) }
{
    if let Some(rest) = text.strip_suffix(' ') {
        return Some(rest);
    }
    text.strip_suffix('\t')
}

/// What is before and behind the last `@` of a text that doesn't begin with it.
pub(crate) fn parted(text: &str) -> Option<(&str, &str)>
    ensures { MatchOption result (HasNoPart text.now) (λ r. IsParted text.now r.0.now r.1.now) }
{
    let (front, behind) = text.rsplit_once('@')?;
    if front.is_empty() {
        return None;
    }
    Some((front, behind))
}

/// The package name that a text is.
pub(crate) fn read_name(alloc: Global, text: &str) -> Result<PkgName, SpecFault>
    ensures ok { IfOk result (λ n. n ≡ text.now) }
    ensures accepted { OnOk result (is_name text.now ≡ true) }
    ensures fault { IfErr result (Refuses (is_name text.now ≡ false)) }
{
    match PkgName::read(alloc, text) {
        Ok(name) => Ok(name),
        Err(NameFault::Memory) => Err(SpecFault::Memory),
        Err(_) => Err(SpecFault::Unsupported),
    }
}
