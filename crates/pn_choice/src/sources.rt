// What a plain graph is made from.
ghost use Rattle.std.specs.Prelude.{◌≡◌, ℕ, List, [], ◌∷◌, IfOk, OnOk, OnErr, IfErr, IsSome, Option, option_map};
ghost use Rattle.std.specs.List.{Contains};
ghost use Rattle.pn_fs.specs.Tree.{Tree};
ghost use Rattle.std.specs.BTreeMap.{get_by_text};
ghost use Rattle.pn_spec.specs.declared.want.Want.{Want as TheWant};
ghost use Rattle.pn_plain.specs.Readings.{of_package};
ghost use Rattle.pn_choice.specs.Cached.{AreShown, KeepsShelves, AsksOnce};
ghost use Rattle.pn_choice.specs.Calls.{knows, IsSought, ReadsThese, Learns};
ghost use Rattle.pn_choice.specs.Ways.{Goes, IsUnlisted, Broke, IsVersionIn, LeadsBy, IsLost, Loses, ReadsAs};

use crate::asked::{NamedWant, asked};
use crate::shelf::{keep, shelf};
use crate::version::chosen;
use crate::way::WayFault;
use pn_fs::ReadFs;
use pn_published::Published;
use pn_text::{PkgId, PkgName};
use pn_walk::{Aim, Wish};
use std::alloc::Global;
use std::collections::BTreeMap;

/// No shelves: nothing was asked for yet.
pub fn no_shelves(alloc: Global) -> BTreeMap<String, Published>
    ensures { (r : Option Tree) → AreShown r result }
{
    BTreeMap::new(alloc)
}

/// The registry, the packages that the old lockfile holds, and what the registry publishes under the names that were asked
/// for: the folder of each is listed once.
#[derive(Drop)]
pub struct Sources<'a, 'b, 'c, R> {
    pub registry: &'a mut R,
    pub held: &'b [PkgId],
    pub shelves: &'c mut BTreeMap<String, Published>,
}

impl<'a, 'b, 'c, R: ReadFs> Sources<'a, 'b, 'c, R> {
    /// Sources whose shelves are what the registry publishes.
    pub fn new(
        registry: &'a mut R,
        held: &'b [PkgId],
        shelves: &'c mut BTreeMap<String, Published>,
    ) -> Sources<'a, 'b, 'c, R>
        requires shown { AreShown (R.seen registry.old).tree shelves.old }
        ensures same_reference { result.registry.ghost_name ≡ registry.entry.ghost_name }
        ensures registry { result.registry.now ≡ registry.old }
        ensures held { result.held.now ≡ held.now }
        ensures shelves { result.shelves.now ≡ shelves.old }
        ensures good { AreShown (R.seen result.registry.now).tree result.shelves.now }
    {
        Sources {
            registry,
            held,
            shelves,
        }
    }

    /// What a wish leads to by its specifier.
    pub(crate) fn seek(&mut self, alloc: Global, wish: &Wish) -> Result<Option<Aim>, WayFault>
        requires good { AreShown (R.seen self.old.registry.now).tree self.old.shelves.now }
        requires asks { wish.now.chosen ≡ None }
        ensures leads { IfOk result (LeadsBy (R.seen self.old.registry.now).tree self.old.held.now wish.now) }
        ensures lost { IfErr result (Loses (R.seen self.old.registry.now).tree self.old.held.now wish.now) }
        ensures goes { Goes (R.seen self.old.registry.now) (R.seen self.new.registry.now) self.old.held.now self.new.held.now }
        ensures same_reference { self.new.registry.ghost_name ≡ self.old.registry.ghost_name }
        ensures good { AreShown (R.seen self.new.registry.now).tree self.new.shelves.now }
        ensures known { KeepsShelves self.old.shelves.now self.new.shelves.now }
        ensures once { (n : List ℕ) (v : TheWant) → ReadsAs wish.now (of_package n v) → AsksOnce self.old.shelves.now n (R.seen self.old.registry.now) (R.seen self.new.registry.now) }
        ensures learns { OnOk result (Learns (knows self.old.shelves.now) (knows self.new.shelves.now) (R.seen self.old.registry.now) (IsSought (Contains (wish.now ∷ []))) [] (R.seen self.new.registry.now)) }
        ensures reads { OnErr result (ReadsThese (knows self.old.shelves.now) (knows self.new.shelves.now) (R.seen self.old.registry.now) (IsSought (Contains (wish.now ∷ []))) [] (R.seen self.new.registry.now)) }
        ensures broke { IfErr result (Broke (R.seen self.old.registry.now) (R.seen self.new.registry.now)) }
    {
        let asked = asked(alloc, wish)?;
        match self.version(alloc, asked)? {
            Some(id) => Ok(Some(Aim::Package(id))),
            None if wish.optional => Ok(None),
            None => Err(WayFault::NoVersion),
        }
    }

    // The package of the version that is asked for.
    fn version(&mut self, alloc: Global, asked: NamedWant) -> Result<Option<PkgId>, WayFault>
        requires good { AreShown (R.seen self.old.registry.now).tree self.old.shelves.now }
        ensures version { IfOk result (IsVersionIn (R.seen self.old.registry.now).tree self.old.held.now asked.name asked.want) }
        ensures unlisted { IfErr result (IsUnlisted (R.seen self.old.registry.now).tree asked.name) }
        ensures goes { Goes (R.seen self.old.registry.now) (R.seen self.new.registry.now) self.old.held.now self.new.held.now }
        ensures same_reference { self.new.registry.ghost_name ≡ self.old.registry.ghost_name }
        ensures good { AreShown (R.seen self.new.registry.now).tree self.new.shelves.now }
        ensures known { KeepsShelves self.old.shelves.now self.new.shelves.now }
        ensures once { AsksOnce self.old.shelves.now asked.name (R.seen self.old.registry.now) (R.seen self.new.registry.now) }
        ensures learns { OnOk result (Learns (knows self.old.shelves.now) (knows self.new.shelves.now) (R.seen self.old.registry.now) (λ n. n ≡ asked.name) [] (R.seen self.new.registry.now)) }
        ensures reads { OnErr result (ReadsThese (knows self.old.shelves.now) (knows self.new.shelves.now) (R.seen self.old.registry.now) (λ n. n ≡ asked.name) [] (R.seen self.new.registry.now)) }
        ensures broke { IfErr result (Broke (R.seen self.old.registry.now) (R.seen self.new.registry.now)) }
    {
        self.list(alloc, &asked.name)?;
        match self.shelves.get(asked.name.as_str()) {
            Some(list) => Ok(chosen(alloc, list, self.held, asked)?),
            None => unreachable!(),
        }
    }

    // Asks what is published under a name, once.
    fn list(&mut self, alloc: Global, name: &PkgName) -> Result<(), WayFault>
        requires good { AreShown (R.seen self.old.registry.now).tree self.old.shelves.now }
        ensures listed { OnOk result (IsSome (get_by_text self.new.shelves.now name.now)) }
        ensures unlisted { IfErr result (IsUnlisted (R.seen self.old.registry.now).tree name.now) }
        ensures goes { Goes (R.seen self.old.registry.now) (R.seen self.new.registry.now) self.old.held.now self.new.held.now }
        ensures same_reference { self.new.registry.ghost_name ≡ self.old.registry.ghost_name }
        ensures good { AreShown (R.seen self.new.registry.now).tree self.new.shelves.now }
        ensures known { KeepsShelves self.old.shelves.now self.new.shelves.now }
        ensures once { AsksOnce self.old.shelves.now name.now (R.seen self.old.registry.now) (R.seen self.new.registry.now) }
        ensures learns { OnOk result (Learns (knows self.old.shelves.now) (knows self.new.shelves.now) (R.seen self.old.registry.now) (λ n. n ≡ name.now) [] (R.seen self.new.registry.now)) }
        ensures reads { OnErr result (ReadsThese (knows self.old.shelves.now) (knows self.new.shelves.now) (R.seen self.old.registry.now) (λ n. n ≡ name.now) [] (R.seen self.new.registry.now)) }
        ensures broke { IfErr result (Broke (R.seen self.old.registry.now) (R.seen self.new.registry.now)) }
    {
        if self.shelves.contains_key(name.as_str()) {
            return Ok(());
        }
        let list = shelf(alloc, self.registry, name)?;
        keep(alloc, self.shelves, name, list)?;
        Ok(())
    }
}
