// Laws of outer pairs.
ghost use Rattle.pn_outer.specs.Outer.{OuterLaw};

/// The outer pairs are the least sets that have the provided peers and, past the aliases of each package, those of its
/// dependencies.
pub fn outer_law()
    ensures { OuterLaw }
{}
