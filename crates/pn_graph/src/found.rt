// Packages as they are met.
ghost use Rattle.std.specs.Prelude.{◌≡◌, ◌<◌, ◌≤◌, ◌^◌, ℕ, [], IfOk, OnOk, length, get_or, slice_get, false, Some};
ghost use Rattle.std.specs.List.{Contains};
ghost use Rattle.pn_graph.specs.Founds.{AddsAll, AreWithin, IsMarked, places_from};
ghost use Rattle.pn_graph.specs.Graphs.{to_package};
ghost use Rattle.pn_graph.specs.Reaches.{LeadsTo};

use crate::links::{At, Dep};
use pn_text::{Memory, PkgIx};
use std::alloc::Global;

/// Packages in the order in which they are met, each once, with a mark at the place of each.
#[derive(Drop)]
pub(crate) struct Found {
    pub seen: Vec<bool>,
    pub order: Vec<u32>,
}

impl Found {
    /// None of that many packages.
    pub(crate) fn new(alloc: Global, count: usize) -> Result<Found, Memory>
        ensures marked { IfOk result (λ f. IsMarked f.seen.items f.order.items) }
        ensures none { IfOk result (λ f. f.order.items ≡ []) }
        ensures count { IfOk result (λ f. length f.seen.items ≡ count) }
    {
        let seen = vec![in alloc; false; count]?;
        Ok(Found {
            seen,
            order: Vec::new(alloc),
        })
    }

    /// Meets a package.
    pub(crate) fn meet(&mut self, at: u32) -> Result<(), Memory>
        requires marked { IsMarked self.old.seen.items self.old.order.items }
        requires within { at < length self.old.seen.items }
        ensures marked { OnOk result (IsMarked self.new.seen.items self.new.order.items) }
        ensures added { OnOk result (AddsAll (λ k. k ≡ at) self.old.order.items self.new.order.items) }
        ensures count { length self.new.seen.items ≡ length self.old.seen.items }
    {
        let i = at as usize;
        if self.seen[i] {
            return Ok(());
        }
        self.order.push(at)?;
        self.seen[i] = true;
        Ok(())
    }

    /// Meets the package that a dependency leads to.
    pub(crate) fn meet_dep(&mut self, dep: &Dep) -> Result<(), Memory>
        requires marked { IsMarked self.old.seen.items self.old.order.items }
        requires within { (k : ℕ) → dep.now.to ≡ to_package (record { 0 = k }) → k < length self.old.seen.items }
        ensures marked { OnOk result (IsMarked self.new.seen.items self.new.order.items) }
        ensures added { OnOk result (AddsAll (λ k. dep.now.to ≡ to_package (record { 0 = k })) self.old.order.items self.new.order.items) }
        ensures count { length self.new.seen.items ≡ length self.old.seen.items }
    {
        match dep.to {
            At::Package(package) => self.meet(package.0),
            At::Project(_) => Ok(()),
        }
    }

    /// Meets the packages that these dependencies lead to.
    pub(crate) fn meet_deps(&mut self, deps: &[Dep]) -> Result<(), Memory>
        requires marked { IsMarked self.old.seen.items self.old.order.items }
        requires within { AreWithin (length self.old.seen.items) deps.now }
        ensures marked { OnOk result (IsMarked self.new.seen.items self.new.order.items) }
        ensures added { OnOk result (AddsAll (LeadsTo deps.now) self.old.order.items self.new.order.items) }
        ensures count { length self.new.seen.items ≡ length self.old.seen.items }
    {
        for dep in deps {
            self.meet_dep(dep)?;
        }
        Ok(())
    }
}

/// The places with a mark.
pub(crate) fn places(alloc: Global, seen: &[bool]) -> Result<Vec<PkgIx>, Memory>
    requires { length seen.now < 2 ^ 32 }
    ensures { IfOk result (λ ks. ks.items ≡ places_from 0 seen.now) }
{
    let mut found = Vec::new(alloc);
    for (i, mark) in seen.iter().enumerate() {
        if *mark {
            found.push(PkgIx(i as u32))?;
        }
    }
    Ok(found)
}
