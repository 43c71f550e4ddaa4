// Partial versions: one to three parts, of which each may be a wildcard.
ghost use Rattle.std.specs.Prelude.{◌≡◌, ◌<◌, ◌≤◌, length, IfOk, IfErr, OnErr, Some, true};
ghost use Rattle.pn_ranges.specs.Bytes.{behind, is_body, starts_with};
ghost use Rattle.pn_ranges.specs.Edges.{left_at, named_by};
ghost use Rattle.pn_ranges.specs.Grammar.{IsEnd, IsPartial};
ghost use Rattle.pn_ranges.specs.Overs.{PartsAt};
ghost use Rattle.pn_ranges.specs.Places.{Turn, dot, fault_after, first_fault, lead};
ghost use Rattle.pn_ranges.specs.Reading.{Begins, left_of};
ghost use Rattle.pn_ranges.specs.Table.{named};
ghost use Rattle.pn_ranges.specs.Unread.{NoEnd};

use crate::fault::Stop;
use crate::part::{behind_leads, part, strip};
use crate::tail::tail;

/// The parts as written, None for a wildcard or a missing one, the pre-release, and how many bytes were left
/// from each part on; for a missing one, from the first part on.
#[derive(Clone, Copy)]
pub struct Partial<'a> {
    pub major: Option<u64>,
    pub minor: Option<u64>,
    pub patch: Option<u64>,
    pub pre: &'a [u8],
    pub major_left: usize,
    pub minor_left: usize,
    pub patch_left: usize,
}

fn parts(text: &[u8]) -> Result<(Partial<'_>, &[u8]), Stop>
    ensures read { IfOk result (λ r. Begins IsPartial text.now
        (named r.0.major r.0.minor r.0.patch r.0.pre.now) r.1.now) }
    ensures places { IfOk result (λ r. PartsAt (named_by r.0) (λ k. left_at k r.0) text.now r.1.now) }
    ensures shorter { IfOk result (λ r. length r.1.now < length text.now) }
    ensures goes { IfOk result (λ r. (e : Turn) → first_fault (dot e 0) text.now
        ≡ fault_after e r.1.now) }
    ensures stops { IfErr result (λ s. (e : Turn) → first_fault (dot e 0) text.now ≡ Some s) }
    ensures inside { IfErr result (λ s. length (behind is_body text.now) ≤ left_of s) }
{
    let (major, after_major) = part(text)?;
    let mut read = Partial {
        major,
        minor: None,
        patch: None,
        pre: text.split_at(0).0,
        major_left: text.len(),
        minor_left: text.len(),
        patch_left: text.len(),
    };
    let Some(minor_text) = strip(after_major, b'.') else {
        return Ok((read, after_major));
    };
    let (minor, after_minor) = part(minor_text)?;
    read.minor = minor;
    read.minor_left = minor_text.len();
    let Some(patch_text) = strip(after_minor, b'.') else {
        return Ok((read, after_minor));
    };
    let (patch, after_patch) = part(patch_text)?;
    let (pre, rest) = tail(after_patch)?;
    read.patch = patch;
    read.patch_left = patch_text.len();
    read.pre = pre;
    Ok((read, rest))
}

/// A partial version behind any number of `v` and `=`, as an end of `A - B` is.
pub(crate) fn end(text: &[u8]) -> Result<(Partial<'_>, &[u8]), Stop>
    ensures read { IfOk result (λ r. Begins IsEnd text.now
        (named r.0.major r.0.minor r.0.patch r.0.pre.now) r.1.now) }
    ensures places { IfOk result (λ r. PartsAt (named_by r.0) (λ k. left_at k r.0) text.now r.1.now) }
    ensures shorter { IfOk result (λ r. length r.1.now < length text.now) }
    ensures goes { IfOk result (λ r. (e : Turn) → first_fault (lead e) text.now
        ≡ fault_after e r.1.now) }
    ensures stops { IfErr result (λ s. (e : Turn) → first_fault (lead e) text.now ≡ Some s) }
    ensures whole { IfOk result (λ r. starts_with is_body r.1.now ≡ true → NoEnd text.now) }
    ensures none { OnErr result (NoEnd text.now) }
{
    let after = behind_leads(text);
    let (read, rest) = parts(after)?;
    Ok((read, rest))
}
