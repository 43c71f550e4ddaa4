// Laws of what is read.
ghost use Rattle.pn_store.specs.Reads.{FoundLaw, WrongLaw};

use pn_storecore::was_law;

/// In a store that isn't damaged at entry, what was read at an address has it as digest, and is no file past the limit,
/// unless two different byte lists stood there at steps of the call.
pub fn wrong_law()
    ensures { WrongLaw }
{
    was_law();
}

/// In a store that is sound at entry, each file that a listing names which was read there stands at the end, unless two
/// different listings stood there at steps of the call.
pub fn found_law()
    ensures { FoundLaw }
{}
