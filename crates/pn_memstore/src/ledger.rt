// The steps on a store in memory, and the world that they made.
ghost use Rattle.std.specs.Prelude.{◌≡◌, ◌⊎◌, ◌++◌, ◌∷◌, [], OnOk, OnErr};
ghost use Rattle.pn_storecore.specs.World.{empty};
ghost use Rattle.pn_storecore.specs.Steps.{world_of};
ghost use Rattle.pn_storecore.specs.Lawful.{IsLawful, IsDiscard, AreLawfulOrDiscards};
ghost use Rattle.pn_memstore.specs.Kept.{world_in};
ghost use Rattle.pn_memstore.specs.Sets.{World-set};

use crate::world::StoreWorld;
use pn_storecore::StoreStep;
use pn_text::Memory;
use std::alloc::Global;

/// The steps, each with its installer, the first one first, and the world that they made.
#[derive(Drop)]
pub struct Ledger {
    pub journal: Vec<(u64, StoreStep)>,
    pub world: StoreWorld,
    pub ghost made: { world_of journal.items ≡ world_in world } by { World-set (world_of journal.items) (world_in world) },
    pub ghost lawful: { ∥ AreLawfulOrDiscards empty journal.items ∥₁ },
}

impl Ledger {
    /// No steps.
    pub fn new(alloc: Global) -> Ledger
        ensures { result.journal.items ≡ [] }
    {
        Ledger {
            journal: Vec::new(alloc),
            world: StoreWorld::new(alloc),
        }
    }

    /// Makes an installer's step.
    pub fn take(&mut self, who: u64, step: StoreStep) -> Result<(), Memory>
        requires { IsLawful who step (world_of self.old.journal.items) ⊎ IsDiscard step }
        ensures ok { OnOk result (self.new.journal.items ≡ self.old.journal.items ++ (who, step) ∷ []) }
        ensures err { OnErr result (self.new.journal.items ≡ self.old.journal.items) }
    {
        self.journal.reserve(1)?;
        self.world.take(who, &step)?;
        self.journal.push_reserved((who, step));
        Ok(())
    }
}
