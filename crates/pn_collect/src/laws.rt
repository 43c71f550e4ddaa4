// What a told registry settles of the packages of an install.
ghost use Rattle.pn_collect.specs.Laws.{PassedLaw, CauseLaw, SameLaw};

/// Where packages have their files, none of them is refused.
pub fn passed_law()
    ensures { PassedLaw }
{}

/// The first package that is refused, and what for, is settled by the tree.
pub fn cause_law()
    ensures { CauseLaw }
{}

/// The packages, their files and both orders are settled by the graph and the tree.
pub fn same_law()
    ensures { SameLaw }
{}
