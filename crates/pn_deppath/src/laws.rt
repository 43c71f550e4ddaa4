// Laws of dep paths and folder names.
ghost use Rattle.pn_deppath.specs.Folders.{FolderLaw};
ghost use Rattle.pn_deppath.specs.Ordinals.{OrdinalLaw};
ghost use Rattle.pn_deppath.specs.PathLaw.{PathLaw};

/// No two of some dep paths have one folder's name, whatever their digests are.
pub fn folder_law()
    ensures { FolderLaw }
{}

/// Each dep path is made of a name, a version and groups, and is ASCII. A name, a version and groups without a patch make
/// one.
pub fn path_law()
    ensures { PathLaw }
{}

/// Fewer than 2^32 texts without `~` are told apart by their ordinals, whatever the texts are.
pub fn ordinal_law()
    ensures { OrdinalLaw }
{}
