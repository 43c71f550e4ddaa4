// Laws of the definitions.
ghost use Rattle.pn_graph.specs.FreeNames.{FreeLaw};
ghost use Rattle.pn_graph.specs.ReachLaw.{ReachLaw};

/// What is reached is the least set with the start that dependencies don't lead out of.
pub fn reach_law()
    ensures { ReachLaw }
{}

/// The free names are the least sets with their two rules.
pub fn free_law()
    ensures { FreeLaw }
{}
