// Laws of base texts and dep paths.
ghost use Rattle.pn_dep_paths.specs.BaseTexts.{TextLaw};
ghost use Rattle.pn_dep_paths.specs.PathsLaw.{PathsLaw};

use pn_deppath::ordinal_law;

/// Of some instances there is one list of base texts.
pub fn text_law()
    ensures { TextLaw }
{}

/// Base texts that are told apart by ordinals are dep paths of their packages' ids, and no two are the same.
pub fn paths_law()
    ensures { PathsLaw }
{
    ordinal_law();
}
