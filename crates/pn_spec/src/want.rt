// What a dependency wants of a package: a range or a tag.
ghost use Rattle.std.specs.Prelude.{IfOk, IfErr, MatchOption};
ghost use Rattle.pn_ranges.specs.Grammar.{Spells};
ghost use Rattle.pn_spec.specs.Forms.{IsWant};
ghost use Rattle.pn_spec.specs.Ranges.{IsNoRange};
ghost use Rattle.pn_spec.specs.Refusals.{FitsNoWant, Refuses};

use crate::fault::SpecFault;
use crate::tag::is_tag;
use pn_ranges::{Range, RangeFault};
use pn_text::{Memory, Text};
use std::alloc::Global;

/// The versions of a package that are wanted: those in a range, or the one that bears a tag.
#[derive(Drop)]
pub enum Want {
    Range(Range),
    Tag(Text),
}

/// The range that a text is.
pub(crate) fn read_range(alloc: Global, text: &str) -> Result<Option<Range>, Memory>
    ensures { IfOk result (λ found. MatchOption found (IsNoRange text.now) (Spells text.now)) }
{
    match Range::read(alloc, text) {
        Ok(range) => Ok(Some(range)),
        Err(RangeFault::Memory) => Err(Memory),
        Err(RangeFault::BadByte(_)) => Ok(None),
        Err(RangeFault::NumberTooLarge(_)) => Ok(None),
        Err(RangeFault::TooMany) => Ok(None),
    }
}

/// Reads a range, or else a tag.
pub(crate) fn read_want(alloc: Global, text: &str) -> Result<Want, SpecFault>
    ensures ok { IfOk result (IsWant text.now) }
    ensures fault { IfErr result (Refuses (FitsNoWant text.now)) }
{
    if let Some(range) = read_range(alloc, text)? {
        return Ok(Want::Range(range));
    }
    if !is_tag(text.as_bytes()) {
        return Err(SpecFault::Unsupported);
    }
    let tag = Text::of(alloc, text)?;
    Ok(Want::Tag(tag))
}
