// The peers that are provided, and to which instances.
ghost use Rattle.std.specs.Prelude.{◌≡◌, ◌<◌, ◌++◌, ◌∷◌, [], ◌^◌, ℕ, IfOk, OnOk, IfSome, length, slice_get, slice_set, get_or, Some, true};
ghost use Rattle.pn_components.specs.Rows.{rows_of};
ghost use Rattle.pn_outer.specs.Provisions.{AddsHolder, AddsHolders, AreProvided};

use crate::instance::{Goal, Instance, Link};
use pn_text::Memory;
use std::alloc::Global;
use std::collections::BTreeMap;

/// Pairs, and for each the instances that it is provided to.
#[derive(Drop)]
pub(crate) struct Provisions {
    pub pairs: Vec<Link>,
    pub holders: Vec<Vec<u32>>,
    // where to look for a pair: the last one with its target, and from each the one before it
    last: BTreeMap<u64, usize>,
    prior: Vec<usize>,
}

/// The provided peers of these instances.
pub(crate) fn provided_peers(alloc: Global, instances: &[Instance]) -> Result<Provisions, Memory>
    requires { length instances.now < 2 ^ 32 }
    ensures count { IfOk result (λ p. length p.holders.items ≡ length p.pairs.items) }
    ensures provided { IfOk result (λ p. AreProvided instances.now p.pairs.items (rows_of p.holders.items)) }
{
    let mut provided = Provisions {
        pairs: Vec::new(alloc),
        holders: Vec::new(alloc),
        last: BTreeMap::new(alloc),
        prior: Vec::new(alloc),
    };
    for (i, instance) in instances.iter().enumerate() {
        provided.add_all(alloc, i as u32, instance.peers.as_slice())?;
    }
    Ok(provided)
}

impl Provisions {
    // These pairs are provided to an instance.
    fn add_all(&mut self, alloc: Global, to: u32, links: &[Link]) -> Result<(), Memory>
        requires { length self.old.holders.items ≡ length self.old.pairs.items }
        ensures count { OnOk result (length self.new.holders.items ≡ length self.new.pairs.items) }
        ensures adds { OnOk result (AddsHolders to links.now self.old.pairs.items (rows_of self.old.holders.items) self.new.pairs.items (rows_of self.new.holders.items)) }
    {
        for link in links {
            self.add(alloc, to, link)?;
        }
        Ok(())
    }

    // A pair is provided to an instance.
    fn add(&mut self, alloc: Global, to: u32, link: &Link) -> Result<(), Memory>
        requires { length self.old.holders.items ≡ length self.old.pairs.items }
        ensures count { OnOk result (length self.new.holders.items ≡ length self.new.pairs.items) }
        ensures adds { OnOk result (AddsHolder to link.now self.old.pairs.items (rows_of self.old.holders.items) self.new.pairs.items (rows_of self.new.holders.items)) }
    {
        match self.place(link) {
            Some(place) => {
                self.hold(place, to)?;
                Ok(())
            }
            None => {
                self.push(alloc, to, link)?;
                Ok(())
            }
        }
    }

    // One more instance with a pair.
    fn hold(&mut self, place: usize, to: u32) -> Result<(), Memory>
        requires { place < length self.old.holders.items }
        ensures pairs { self.new.pairs.items ≡ self.old.pairs.items }
        ensures holders { OnOk result (rows_of self.new.holders.items ≡ slice_set (rows_of self.old.holders.items) place (get_or (rows_of self.old.holders.items) place [] ++ to ∷ [])) }
    {
        self.holders[place].push(to)?;
        Ok(())
    }

    // A pair that wasn't there.
    fn push(&mut self, alloc: Global, to: u32, link: &Link) -> Result<(), Memory>
        ensures pairs { OnOk result (self.new.pairs.items ≡ self.old.pairs.items ++ link.now ∷ []) }
        ensures holders { OnOk result (rows_of self.new.holders.items ≡ rows_of self.old.holders.items ++ (to ∷ []) ∷ []) }
    {
        let place = self.pairs.len();
        let key = key(link.to);
        let before = self.last_of(key, place);
        self.last.insert(key, place)?;
        self.prior.push(before)?;
        let mut first = Vec::new(alloc);
        first.push(to)?;
        let name = link.name.copy(alloc)?;
        self.pairs.push(Link { name, to: link.to })?;
        self.holders.push(first)?;
        Ok(())
    }

    // The last pair with a target, or another place.
    fn last_of(&self, key: u64, other: usize) -> usize {
        match self.last.get(&key) {
            Some(place) => *place,
            None => other,
        }
    }

    // Where a pair is.
    fn place(&self, link: &Link) -> Option<usize>
        ensures { IfSome result (λ p. slice_get self.now.pairs.items p ≡ Some link.now) }
    {
        let mut at = self.last_of(key(link.to), self.pairs.len());
        'places: while at < self.pairs.len() {
            if is_same(&self.pairs[at], link) {
                return Some(at);
            }
            let before = self.before(at);
            if before >= at {
                return None;
            }
            at = before;
        }
        None
    }

    // The pair before one with its target, or that one.
    fn before(&self, at: usize) -> usize {
        match self.prior.get(at) {
            Some(place) => *place,
            None => at,
        }
    }
}

fn is_same(a: &Link, b: &Link) -> bool
    ensures { result ≡ true → a.now ≡ b.now }
{
    if a.to != b.to {
        return false;
    }
    a.name.as_str() == b.name.as_str()
}

// A number for each target.
fn key(goal: Goal) -> u64 {
    match goal {
        Goal::Project(q) => u64::from(q.0) * 2,
        Goal::Inst(i) => u64::from(i.0) * 2 + 1,
    }
}
