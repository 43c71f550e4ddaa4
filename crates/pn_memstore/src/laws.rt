// What the journals of stores in memory are known by.
ghost use Rattle.pn_storecore.specs.World.{empty};
ghost use Rattle.pn_storecore.specs.Lawful.{AreLawfulOrDiscards};
ghost use Rattle.pn_storecore.specs.Held.{IsAddressedStore};
ghost use Rattle.pn_memstore.specs.Stores.{sure_journal, sure_seen, mem_journal, mem_seen};

use crate::mem::MemStore;
use crate::sure::SureStore;
use pn_storecore::sound_law;

/// Each step on the store was lawful at its place, or it discarded something. So what stands has its
/// address as its digest.
pub fn sure_law(store: &SureStore)
    ensures lawful { ∥ AreLawfulOrDiscards empty (sure_journal store.now) ∥₁ }
    ensures addressed { IsAddressedStore (sure_seen store.now) }
{
    sound_law();
}

/// The same where other installers use the store too.
pub fn mem_law(store: &MemStore)
    ensures lawful { ∥ AreLawfulOrDiscards empty (mem_journal store.now) ∥₁ }
    ensures addressed { IsAddressedStore (mem_seen store.now) }
{
    sound_law();
}
