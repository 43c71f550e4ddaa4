// Laws of patterns in the subject's own words. The definitions by which lists are read and match obey them.
ghost use Rattle.pn_glob.specs.Laws.{LiteralLaw, MatchingLaw, NegativeLaw, SettledLaw, StarLaw};

/// Patterns match exactly what the relation of gaps and pieces says.
pub fn matching_law()
    ensures { MatchingLaw }
{}

/// A name pattern without `*` matches exactly its own text.
pub fn literal_law()
    ensures { LiteralLaw }
{}

/// `*` matches each name, and exactly the paths of one part that doesn't begin with `.`.
pub fn star_law()
    ensures { StarLaw }
{}

/// A negative pattern takes away what it matches and nothing else.
pub fn negative_law()
    ensures { NegativeLaw }
{}

/// Texts have one answer, memory aside: one list that they are read as, or one refusal, and never both.
pub fn settled_law()
    ensures { SettledLaw }
{}
