// Laws of reading.
ghost use Rattle.pn_lock_read.specs.ReadLaw.{ReadLaw};

/// What is printed of a lock is read as that lock, and a text spells one lock at most.
pub fn read_law()
    ensures { ReadLaw }
{}
