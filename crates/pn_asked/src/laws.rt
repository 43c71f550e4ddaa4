// Laws of differences.
ghost use Rattle.pn_asked.specs.Fits.{FitsLaw};

/// No difference is found exactly where a lock fits what is asked of it.
pub fn fits_law()
    ensures { FitsLaw }
{}
