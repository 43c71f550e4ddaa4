// Instances as they are met.
ghost use Rattle.std.specs.Prelude.{◌≡◌, ◌<◌, ◌∷◌, ℕ, [], IfOk, OnOk, length, get_or, false};
ghost use Rattle.std.specs.List.{Contains};
ghost use Rattle.pn_outer.specs.Founds.{AddsAll, IsMarked, IsOpen};

use crate::instance::{Instance, has_alias};
use pn_text::{Memory, PkgName};
use std::alloc::Global;

/// Instances in the order in which they are met, each once, with a mark at the place of each.
#[derive(Drop)]
pub(crate) struct Found {
    pub seen: Vec<bool>,
    pub order: Vec<u32>,
}

impl Found {
    /// None of that many instances.
    pub(crate) fn new(alloc: Global, count: usize) -> Result<Found, Memory>
        ensures marked { IfOk result (λ f. IsMarked f.seen.items f.order.items) }
        ensures none { IfOk result (λ f. f.order.items ≡ []) }
        ensures count { IfOk result (λ f. length f.seen.items ≡ count) }
    {
        let seen = vec![in alloc; false; count]?;
        Ok(Found {
            seen,
            order: Vec::new(alloc),
        })
    }

    /// Meets an instance.
    pub(crate) fn meet(&mut self, at: u32) -> Result<(), Memory>
        requires marked { IsMarked self.old.seen.items self.old.order.items }
        requires within { at < length self.old.seen.items }
        ensures marked { OnOk result (IsMarked self.new.seen.items self.new.order.items) }
        ensures added { OnOk result (AddsAll (λ k. k ≡ at) self.old.order.items self.new.order.items) }
        ensures count { length self.new.seen.items ≡ length self.old.seen.items }
    {
        let i = at as usize;
        if self.seen[i] {
            return Ok(());
        }
        self.order.push(at)?;
        self.seen[i] = true;
        Ok(())
    }

    /// Meets these instances.
    pub(crate) fn meet_all(&mut self, row: &[u32]) -> Result<(), Memory>
        requires marked { IsMarked self.old.seen.items self.old.order.items }
        requires within { (k : ℕ) → Contains row.now k → k < length self.old.seen.items }
        ensures marked { OnOk result (IsMarked self.new.seen.items self.new.order.items) }
        ensures added { OnOk result (AddsAll (Contains row.now) self.old.order.items self.new.order.items) }
        ensures count { length self.new.seen.items ≡ length self.old.seen.items }
    {
        for at in row {
            self.meet(*at)?;
        }
        Ok(())
    }

    /// Meets those of these instances whose packages have no such alias.
    pub(crate) fn meet_open(
        &mut self,
        instances: &[Instance],
        row: &[u32],
        name: &PkgName,
    ) -> Result<(), Memory>
        requires marked { IsMarked self.old.seen.items self.old.order.items }
        requires count { length self.old.seen.items ≡ length instances.now }
        requires within { (k : ℕ) → Contains row.now k → k < length instances.now }
        ensures marked { OnOk result (IsMarked self.new.seen.items self.new.order.items) }
        ensures added { OnOk result (AddsAll (IsOpen instances.now name.now row.now) self.old.order.items self.new.order.items) }
        ensures count { length self.new.seen.items ≡ length self.old.seen.items }
    {
        for at in row {
            self.meet_one(instances, *at, name)?;
        }
        Ok(())
    }

    // Meets an instance, where its package has no such alias.
    fn meet_one(&mut self, instances: &[Instance], at: u32, name: &PkgName) -> Result<(), Memory>
        requires marked { IsMarked self.old.seen.items self.old.order.items }
        requires count { length self.old.seen.items ≡ length instances.now }
        requires within { at < length instances.now }
        ensures marked { OnOk result (IsMarked self.new.seen.items self.new.order.items) }
        ensures added { OnOk result (AddsAll (IsOpen instances.now name.now (at ∷ [])) self.old.order.items self.new.order.items) }
        ensures count { length self.new.seen.items ≡ length self.old.seen.items }
    {
        if has_alias(instances[at as usize].deps.as_slice(), name) {
            return Ok(());
        }
        self.meet(at)
    }

    /// Meets none.
    pub(crate) fn clear(&mut self)
        requires marked { IsMarked self.old.seen.items self.old.order.items }
        ensures marked { IsMarked self.new.seen.items self.new.order.items }
        ensures none { self.new.order.items ≡ [] }
        ensures count { length self.new.seen.items ≡ length self.old.seen.items }
    {
        unmark(&mut self.seen, &self.order);
        self.order.clear();
    }
}

// Takes away the marks of these places.
fn unmark(seen: &mut Vec<bool>, order: &[u32])
    requires { (k : ℕ) → Contains order.now k → k < length seen.old.items }
    ensures none { (k : ℕ) → Contains order.now k → get_or seen.new.items k false ≡ false }
    ensures kept { (k : ℕ) → get_or seen.old.items k false ≡ false → get_or seen.new.items k false ≡ false }
    ensures count { length seen.new.items ≡ length seen.old.items }
{
    for at in order {
        seen[*at as usize] = false;
    }
}
