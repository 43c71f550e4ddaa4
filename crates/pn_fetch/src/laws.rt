// What stays of what was fetched.
ghost use Rattle.pn_fetch.specs.Laws.{KeptLaw};

use pn_storecore::{grew_law, stands_law};

/// In a store that was sound before the fetch, each listing and each file that it names has its address as digest, and
/// keeps it whatever lawful steps come after.
pub fn kept_law()
    ensures { KeptLaw }
{
    grew_law();
    stands_law();
}
