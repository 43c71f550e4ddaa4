// Laws of the settings in the subject's own words.
ghost use Rattle.pn_config.specs.Laws.{AnswerLaw, JoinLaw, PassedLaw, ResolvedLaw, SettledLaw};

/// A file has at most one answer, memory aside: one value or one bad key, and never both.
pub fn answer_law()
    ensures { AnswerLaw }
{}

/// A key that is passed over changes nothing, wherever it stands.
pub fn passed_law()
    ensures { PassedLaw }
{}

/// Each setting is what its key's value says, or the default where the file has no such key.
pub fn settled_law()
    ensures { SettledLaw }
{}

/// Of two texts for a selector the file's counts.
pub fn join_law()
    ensures { JoinLaw }
{}

/// Where the virtual store's text leads: each part leads on from where those before it lead, a slash in front to `/`.
pub fn resolved_law()
    ensures { ResolvedLaw }
{}
