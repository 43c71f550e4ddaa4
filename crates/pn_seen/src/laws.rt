// Laws of what a seen manifest asks for.
ghost use Rattle.pn_seen.specs.AskedLaws.{AskedLaw};

/// The aliases of what a seen manifest asks for rise, and none is the manifest's own name; its peers rise, and none has the
/// own name or is asked for.
pub fn asked_law()
    ensures { AskedLaw }
{}
