// Laws of a run, which follow from how it ends.
ghost use Rattle.pn_cmd.specs.Laws.{CauseLaw, PointLaw, LookupLaw, OrderLaw, SettledLaw};

/// Each answer of a run has its cause.
pub fn cause_law()
    ensures { CauseLaw }
{}

/// The cause of a refusal is at one of the points, after all that is found before it.
pub fn point_law()
    ensures { PointLaw }
{}

/// After an install each folder of a package finds, by Node's lookup, the package itself and each of its dependencies in
/// the version that it names; the project's folder finds the project's.
pub fn lookup_law()
    ensures { LookupLaw }
{}

/// Where a point of a run is passed, none of its causes is there; so the point that answers is the first that has one.
pub fn order_law()
    ensures { OrderLaw }
{}

/// Two runs of one start, of told trees, answer one status and leave one tree by the digests of its files, where neither ends
/// for want of memory, for a fault, or for what other installers did to the store: a clash of digests, another file at a
/// digest's address, or its numbers all taken.
pub fn settled_law()
    ensures { SettledLaw }
{}
