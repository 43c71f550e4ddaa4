// What a told registry settles.
ghost use Rattle.pn_registry.specs.FilesLaws.{FilesCauseLaw, FilesPassedLaw, FilesSameLaw};
ghost use Rattle.pn_registry.specs.ManifestLaws.{ManifestCauseLaw, ManifestPassedLaw, ManifestSameLaw};

/// A package has no manifest for one cause, which the tree settles.
pub fn manifest_cause_law()
    ensures { ManifestCauseLaw }
{}

/// Where a package has a manifest, there is no cause to refuse it.
pub fn manifest_passed_law()
    ensures { ManifestPassedLaw }
{}

/// What a package's manifest says is settled by the tree.
pub fn manifest_same_law()
    ensures { ManifestSameLaw }
{}

/// The files of a package are refused for one cause, which the tree settles.
pub fn files_cause_law()
    ensures { FilesCauseLaw }
{}

/// Where the files of a package are told, there is no cause to refuse them.
pub fn files_passed_law()
    ensures { FilesPassedLaw }
{}

/// The files of a package, their lengths and their order are settled by the tree.
pub fn files_same_law()
    ensures { FilesSameLaw }
{}
