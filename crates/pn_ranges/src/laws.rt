// Laws of ranges in the subject's own words. The definitions by which `Range` reads and holds obey them.
ghost use Rattle.pn_ranges.specs.Laws.{CaretLaw, HyphenLaw, PreLaw, UnionLaw};
ghost use Rattle.pn_ranges.specs.PlaceLaw.{PlaceLaw};
ghost use Rattle.pn_ranges.specs.ReadingLaw.{ReadingLaw};
ghost use Rattle.pn_ranges.specs.RefusalLaw.{RefusalLaw};

/// A caret of a full version without pre-release holds exactly the releases that aren't below it and whose left-most
/// number that isn't zero is the same.
pub fn caret_law()
    ensures { CaretLaw }
{}

/// `A - B` is `>=A <=B` at full versions.
pub fn hyphen_law()
    ensures { HyphenLaw }
{}

/// A set holds a version if one of its ranges does.
pub fn union_law()
    ensures { UnionLaw }
{}

/// A pre-release is held only where a bound has a pre-release and the same three numbers.
pub fn pre_law()
    ensures { PreLaw }
{}

/// A wrong byte stands at the first place where no reading goes on: the bytes before it begin some text of the grammar
/// without regard to the limits of numbers and to the count of comparators, with that byte they begin none, and where the
/// place is the length the text ends too early. A number that is too large begins where a part may: the bytes before it
/// begin such a text with its first digit and with `*`, and no digit stands right before it.
pub fn place_law()
    ensures { PlaceLaw }
{}

/// Want of memory aside, a text is refused for at most one fault and place, and for none where it spells ranges. A bound
/// that would reach 2^64, where all before it is read whole, stands before a wrong byte or number.
pub fn refusal_law()
    ensures { RefusalLaw }
{}

/// A text spells at most one list of ranges, and has one count of comparators.
pub fn reading_law()
    ensures { ReadingLaw }
{}
