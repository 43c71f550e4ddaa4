// Laws of what is printed of locks.
ghost use Rattle.pn_lock_print.specs.Laws.{LockLaw};

/// The data of each lock may be printed: no map has a key twice, and few levels are nested.
pub fn lock_law()
    ensures { LockLaw }
{}
