// Places as they are met.
ghost use Rattle.std.specs.Prelude.{◌≡◌, ◌<◌, ℕ, [], IfOk, OnOk, length};
ghost use Rattle.std.specs.List.{Contains};
ghost use Rattle.pn_lock_prod.specs.Walks.{AddsAll, IsMarked};

use pn_text::Memory;
use std::alloc::Global;

/// Places in the order in which they are met, each once, with a mark at each.
#[derive(Drop)]
pub(crate) struct Found {
    pub seen: Vec<bool>,
    pub order: Vec<u32>,
}

impl Found {
    /// None of that many places.
    pub(crate) fn new(alloc: Global, count: usize) -> Result<Found, Memory>
        ensures marked { IfOk result (λ f. IsMarked f.seen.items f.order.items) }
        ensures none { IfOk result (λ f. f.order.items ≡ []) }
        ensures count { IfOk result (λ f. length f.seen.items ≡ count) }
    {
        let seen = vec![in alloc; false; count]?;
        Ok(Found {
            seen,
            order: Vec::new(alloc),
        })
    }

    /// Meets a place.
    pub(crate) fn meet(&mut self, at: u32) -> Result<(), Memory>
        requires marked { IsMarked self.old.seen.items self.old.order.items }
        requires within { at < length self.old.seen.items }
        ensures marked { OnOk result (IsMarked self.new.seen.items self.new.order.items) }
        ensures added { OnOk result (AddsAll (λ k. k ≡ at) self.old.order.items self.new.order.items) }
        ensures count { length self.new.seen.items ≡ length self.old.seen.items }
    {
        let i = at as usize;
        if self.seen[i] {
            return Ok(());
        }
        self.order.push(at)?;
        self.seen[i] = true;
        Ok(())
    }

    /// Meets these places.
    pub(crate) fn meet_all(&mut self, row: &[u32]) -> Result<(), Memory>
        requires marked { IsMarked self.old.seen.items self.old.order.items }
        requires within { (k : ℕ) → Contains row.now k → k < length self.old.seen.items }
        ensures marked { OnOk result (IsMarked self.new.seen.items self.new.order.items) }
        ensures added { OnOk result (AddsAll (Contains row.now) self.old.order.items self.new.order.items) }
        ensures count { length self.new.seen.items ≡ length self.old.seen.items }
    {
        for at in row {
            self.meet(*at)?;
        }
        Ok(())
    }
}
