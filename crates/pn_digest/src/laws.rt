// What is written of digests and listings names them.
ghost use Rattle.pn_digest.specs.Digests.{IntegrityLaw};
ghost use Rattle.pn_digest.specs.Listing.{ListingLaw};

/// No two digests have the same integrity.
pub fn integrity_law()
    ensures { IntegrityLaw }
{}

/// No two listings have one text.
pub fn listing_law()
    ensures { ListingLaw }
{}
