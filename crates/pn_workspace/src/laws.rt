// Laws of workspaces.
ghost use Rattle.pn_workspace.specs.Laws.{AnswerLaw, PlaceLaw, RootLaw};

/// A known tree gives a folder at most one workspace, at most one refusal, and never both.
pub fn answer_law()
    ensures { AnswerLaw }
{}

/// The root is the nearest folder with a workspace file, or the folder itself where neither it nor one above it has one.
pub fn root_law()
    ensures { RootLaw }
{}

/// The virtual store lies neither at a project's folder nor above one, in a project's `node_modules` only as the default
/// one, and not at the lockfile or what is written in its place. The default one of a root that is the only project may
/// lie there.
pub fn place_law()
    ensures { PlaceLaw }
{}
