// What is known of planned trees.
ghost use Rattle.pn_tree.specs.Laws.{SoundLaw, BuiltLaw, FindsLaw};

/// The build of a sound layout is one in which Node finds what each link leads to.
pub fn sound_law()
    ensures { SoundLaw }
{}

/// A tree that has the plan, and nothing else at and below the managed folders, has the build.
pub fn built_law()
    ensures { BuiltLaw }
{}

/// In a tree that has the build Node finds, from each folder of a package, the package itself, by each link what it leads
/// to, and any other name as from the virtual store; and from a project's folder what its links lead to.
pub fn finds_law()
    ensures { FindsLaw }
{}
