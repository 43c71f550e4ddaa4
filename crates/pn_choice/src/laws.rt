// Laws of the plain graph of a registry.
ghost use Rattle.pn_fs.specs.Tree.{Tree};
ghost use Rattle.pn_choice.specs.Laws.{SettledLaw};
ghost use Rattle.pn_choice.specs.Words.{FoldersLaw, ShortLaw, WordsLaw};

/// A tree settles one graph of what projects ask for, or one refusal and never both.
pub fn settled_law()
    ensures { (t : Tree) → SettledLaw t }
{}

/// Each package that the projects reach is in the graph, and a dependency is there exactly where a wish leads to its package.
pub fn words_law()
    ensures { WordsLaw }
{}

/// Each package of the graph is a folder of the registry.
pub fn folders_law()
    ensures { FoldersLaw }
{}

/// No id of a package of the graph has more than 120 bytes.
pub fn short_law()
    ensures { ShortLaw }
{}
