// What is known of the layout of an install.
ghost use Rattle.pn_layout.specs.Laws.{FindsLaw, HeldLaw, SameLaw, PassedLaw, CauseLaw};

/// In an installed tree Node finds, from each folder of a package, the package itself, by each alias the package that it
/// leads to, and any other name as from the virtual store; and from the project's folder what each of its aliases leads to.
pub fn finds_law()
    ensures { FindsLaw }
{}

/// In an installed tree each listed file stands below its package folder, with bytes of that SHA-512.
pub fn held_law()
    ensures { HeldLaw }
{}

/// Two lists of packages with the same contents have one layout.
pub fn same_law()
    ensures { SameLaw }
{}

/// Where no planned path is too long, no list of the same packages is refused, whatever the digests.
pub fn passed_law()
    ensures { PassedLaw }
{}

/// The length that a refusal tells is settled by the project's links and the packages.
pub fn cause_law()
    ensures { CauseLaw }
{}
