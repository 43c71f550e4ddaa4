// Steps of other installers, by the calls that they come before.
ghost use Rattle.std.specs.Prelude.{◌≡◌, ◌≤◌, List, ◌∷◌, length, MatchOption};
ghost use Rattle.pn_memstore.specs.Sorting.{AreByCall};
ghost use Rattle.pn_memstore.specs.Script.{Scheduled, IsLater};

use crate::sorting::sort_by_call;
use pn_storecore::StoreStep;

/// Entries by their calls, each a call's number, an installer and its step, and how many had their turn.
#[derive(Drop)]
pub struct Schedule {
    entries: Vec<(u64, u64, StoreStep)>,
    gone: usize,
    ghost within: { gone ≤ length entries.items },
}

impl Schedule {
    ghost use Rattle.pn_memstore.specs.Schedule.{to_come};

    /// These entries by their calls, and those for one call in the order of the list.
    pub fn new(mut entries: Vec<(u64, u64, StoreStep)>) -> Schedule
        ensures { AreByCall entries.items (to_come result) }
    {
        sort_by_call(&mut entries);
        Schedule { entries, gone: 0 }
    }

    /// The next entry, if it isn't for a later call.
    pub fn next(&self, call: u64) -> Option<&(u64, u64, StoreStep)>
        ensures { MatchOption result (IsLater call (to_come self.now)) (λ e. (e.now.0 ≤ call) × ((rest : List Scheduled) × (to_come self.now ≡ e.now ∷ rest))) }
    {
        match self.entries.as_slice().get(self.gone) {
            Some(entry) if entry.0 <= call => Some(entry),
            _ => None,
        }
    }

    /// The next entry had its turn.
    pub fn pass(&mut self)
        requires { (e : Scheduled) × ((rest : List Scheduled) × (to_come self.old ≡ e ∷ rest)) }
        ensures { (e : Scheduled) (rest : List Scheduled) → to_come self.old ≡ e ∷ rest → to_come self.new ≡ rest }
    {
        self.gone += 1;
    }
}
