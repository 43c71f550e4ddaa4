// The walk along edges.
ghost use Rattle.std.specs.Prelude.{◌≡◌, ◌<◌, ◌≤◌, ◌∷◌, ◌++◌, [], ◌^◌, OnOk, OnErr, IfOk, IfErr, ℕ, List, Some, None, length, map, get_or, vec_len};
ghost use Rattle.pn_text.specs.declared.limits.TheConstants.{PACKAGE_LIMIT};
ghost use Rattle.pn_walk.specs.Keeps.{Keeps};
ghost use Rattle.pn_walk.specs.Places.{IsTied, KeepsPlace};
ghost use Rattle.pn_walk.specs.Wants.{Node as TheNode, Place as ThePlace, to_package, at_package};
ghost use Rattle.pn_walk.specs.Walks.{Turn, turn_by, State, Walk, IsWalked, place_of, turns_of};
ghost use Rattle.pn_walk.specs.Edges.{AskedFrom};
ghost use Rattle.pn_walk.specs.Reads.{HasRead, ReadsFor, ReadsOnce};
ghost use Rattle.pn_walk.specs.declared.fault.WalkFault.TheVariants.{Memory as no_memory};
ghost use Rattle.pn_walk.specs.Calls.{at, link_of, OnWays, Stops, Met, Took, TookAll, StopsIn, IsTooMany, EdgeRefused};

use crate::fault::WalkFault;
use crate::node::{Asks, Node};
use crate::refused::refused;
use crate::state::{Queue, Taken};
use crate::ways::Ways;
use crate::wish::{Aim, Place, Wish};
use pn_text::{Memory, PACKAGE_LIMIT, PkgId, Text};
use std::alloc::Global;
use std::collections::BTreeMap;

impl Queue {
    /// Takes one edge.
    pub(crate) fn take<W: Ways>(
        &mut self,
        alloc: Global,
        ways: &mut W,
        who: Place,
        from: &str,
        wish: &Wish,
    ) -> Result<(), WalkFault<W::Fault>>
        requires good { W.good ways.old }
        requires tied { IsTied self.old }
        ensures took { OnOk result (Took (W.leads ways.old) (W.node ways.old) (turn_by who wish.now) self.old self.new) }
        ensures refused { IfErr result (λ f. AskedFrom from.now self.old.nodes.items who (λ folders. EdgeRefused (W.leads ways.old) (W.node ways.old) (W.lost ways.old) (W.unread ways.old) folders self.old.nodes.items (turn_by who wish.now) f)) }
        ensures kept { Keeps (W.leads ways.old) (W.leads ways.new) (W.node ways.old) (W.node ways.new) (W.lost ways.old) (W.lost ways.new) (W.unread ways.old) (W.unread ways.new) }
        ensures good { W.good ways.new }
        ensures tied { OnOk result (IsTied self.new) }
        ensures read { OnOk result (HasRead (λ ws ids. W.follows ways.old ws ids ways.new) (at [] self.old) (at [] self.new)) }
        ensures once { OnErr result (ReadsFor (W.leads ways.old) (λ ids. W.stops ways.old (wish.now ∷ []) ids ways.new) self.old.nodes.items wish.now) }
        ensures broke { IfErr result (OnWays (W.broke ways.old ways.new)) }
    {
        match ways.follow(alloc, wish) {
            Ok(None) => self.link(alloc, who, wish, None),
            Ok(Some(Aim::Project(project))) => self.link(
                alloc,
                who,
                wish,
                Some(Place::Project(project)),
            ),
            Ok(Some(Aim::Package(id))) => self.take_package(alloc, ways, who, from, wish, &id),
            Err(fault) => Err(refused(alloc, from, wish, fault)),
        }
    }

    /// Takes these edges, one after the other.
    pub(crate) fn take_all<W: Ways>(
        &mut self,
        alloc: Global,
        ways: &mut W,
        who: Place,
        from: &str,
        wishes: &[Wish],
    ) -> Result<(), WalkFault<W::Fault>>
        requires good { W.good ways.old }
        requires tied { IsTied self.old }
        ensures took { OnOk result (TookAll (W.leads ways.old) (W.node ways.old) (map (turn_by who) wishes.now) self.old self.new) }
        ensures refused { IfErr result (λ f. AskedFrom from.now self.old.nodes.items who (λ folders. StopsIn (W.leads ways.old) (W.node ways.old) (W.lost ways.old) (W.unread ways.old) folders (map (turn_by who) wishes.now) self.old f)) }
        ensures kept { Keeps (W.leads ways.old) (W.leads ways.new) (W.node ways.old) (W.node ways.new) (W.lost ways.old) (W.lost ways.new) (W.unread ways.old) (W.unread ways.new) }
        ensures good { W.good ways.new }
        ensures tied { OnOk result (IsTied self.new) }
        ensures read { OnOk result (HasRead (λ ws ids. W.follows ways.old ws ids ways.new) (at [] self.old) (at [] self.new)) }
        ensures once { OnErr result ((rest : List Turn) → ReadsOnce (W.leads ways.old) (W.node ways.old) (λ ws ids. W.stops ways.old ws ids ways.new) (at (map (turn_by who) wishes.now ++ rest) self.old)) }
        ensures broke { IfErr result (OnWays (W.broke ways.old ways.new)) }
    {
        for wish in wishes {
            if let Err(fault) = self.take(alloc, ways, who, from, wish) {
                return Err(fault);
            }
        }
        Ok(())
    }

    /// Takes the edges of each package, of those too that are met on the way.
    pub(crate) fn take_rest<W: Ways>(
        &mut self,
        alloc: Global,
        ways: &mut W,
    ) -> Result<(), WalkFault<W::Fault>>
        requires good { W.good ways.old }
        requires tied { IsTied self.old }
        ensures walked { OnOk result ((s : State) → Walk (W.leads ways.old) (W.node ways.old) (at (turns_of 0 self.old.nodes.items) self.old) s → IsWalked (W.leads ways.old) (W.node ways.old) s (at [] self.new)) }
        ensures refused { IfErr result (λ f. (folders : List (List ℕ)) (s : State) → Walk (W.leads ways.old) (W.node ways.old) (at (turns_of 0 self.old.nodes.items) self.old) s → Stops (W.leads ways.old) (W.node ways.old) (W.lost ways.old) (W.unread ways.old) folders s f) }
        ensures kept { Keeps (W.leads ways.old) (W.leads ways.new) (W.node ways.old) (W.node ways.new) (W.lost ways.old) (W.lost ways.new) (W.unread ways.old) (W.unread ways.new) }
        ensures good { W.good ways.new }
        ensures tied { OnOk result (IsTied self.new) }
        ensures read { OnOk result (HasRead (λ ws ids. W.follows ways.old ws ids ways.new) (at [] self.old) (at [] self.new)) }
        ensures once { OnErr result (ReadsOnce (W.leads ways.old) (W.node ways.old) (λ ws ids. W.stops ways.old ws ids ways.new) (at (turns_of 0 self.old.nodes.items) self.old)) }
        ensures broke { IfErr result (OnWays (W.broke ways.old ways.new)) }
    {
        for k in 0..PACKAGE_LIMIT {
            if k >= self.nodes.len() {
                return Ok(());
            }
            let Ok(package) = asks_at(alloc, self.nodes.as_slice(), k) else {
                return Err(WalkFault::Memory);
            };
            if let Err(fault) = self.take_all(
                alloc,
                ways,
                Place::Package(k as u32),
                package.from.as_str(),
                package.wishes.as_slice(),
            ) {
                return Err(fault);
            }
        }
        Ok(())
    }

    // Takes an edge to a package.
    fn take_package<W: Ways>(
        &mut self,
        alloc: Global,
        ways: &mut W,
        who: Place,
        from: &str,
        wish: &Wish,
        id: &PkgId,
    ) -> Result<(), WalkFault<W::Fault>>
        requires good { W.good ways.old }
        requires tied { IsTied self.old }
        requires leads { W.leads ways.old wish.now (Some (to_package id.now)) }
        ensures took { OnOk result (Took (W.leads ways.old) (W.node ways.old) (turn_by who wish.now) self.old self.new) }
        ensures refused { IfErr result (λ f. AskedFrom from.now self.old.nodes.items who (λ folders. EdgeRefused (W.leads ways.old) (W.node ways.old) (W.lost ways.old) (W.unread ways.old) folders self.old.nodes.items (turn_by who wish.now) f)) }
        ensures kept { Keeps (W.leads ways.old) (W.leads ways.new) (W.node ways.old) (W.node ways.new) (W.lost ways.old) (W.lost ways.new) (W.unread ways.old) (W.unread ways.new) }
        ensures good { W.good ways.new }
        ensures tied { OnOk result (IsTied self.new) }
        ensures read { OnOk result (HasRead (λ ws ids. (ws ≡ wish.now ∷ []) × W.follows ways.old [] ids ways.new) (at [] self.old) (at [] self.new)) }
        ensures once { OnErr result (ReadsFor (W.leads ways.old) (λ ids. W.stops ways.old [] ids ways.new) self.old.nodes.items wish.now) }
        ensures broke { IfErr result (OnWays (W.broke ways.old ways.new)) }
    {
        match self.meet(alloc, ways, from, wish, id) {
            Ok(place) => self.link(alloc, who, wish, Some(place)),
            Err(fault) => Err(fault),
        }
    }

    // The place of a package, which is read where it isn't met yet.
    fn meet<W: Ways>(
        &mut self,
        alloc: Global,
        ways: &mut W,
        from: &str,
        wish: &Wish,
        id: &PkgId,
    ) -> Result<Place, WalkFault<W::Fault>>
        requires good { W.good ways.old }
        requires tied { IsTied self.old }
        requires leads { W.leads ways.old wish.now (Some (to_package id.now)) }
        ensures met { IfOk result (λ to. Met (W.node ways.old) id.now to self.old self.new) }
        ensures refused { IfErr result (λ f. (who : ThePlace) → AskedFrom from.now self.old.nodes.items who (λ folders. EdgeRefused (W.leads ways.old) (W.node ways.old) (W.lost ways.old) (W.unread ways.old) folders self.old.nodes.items (turn_by who wish.now) f)) }
        ensures kept { Keeps (W.leads ways.old) (W.leads ways.new) (W.node ways.old) (W.node ways.new) (W.lost ways.old) (W.lost ways.new) (W.unread ways.old) (W.unread ways.new) }
        ensures good { W.good ways.new }
        ensures tied { OnOk result (IsTied self.new) }
        ensures read { OnOk result (HasRead (λ ws ids. W.follows ways.old [] ids ways.new) (at [] self.old) (at [] self.new)) }
        ensures once { OnErr result (ReadsFor (W.leads ways.old) (λ ids. W.stops ways.old [] ids ways.new) self.old.nodes.items wish.now) }
        ensures broke { IfErr result (OnWays (W.broke ways.old ways.new)) }
    {
        if let Some(at) = self.place(id) {
            return Ok(Place::Package(at));
        }
        match ways.read(alloc, id) {
            Ok(node) => self.add(alloc, node),
            Err(fault) => Err(refused(alloc, from, wish, fault)),
        }
    }

    // Adds a package.
    fn add<F>(&mut self, alloc: Global, node: Node) -> Result<Place, WalkFault<F>>
        ensures added { IfOk result (λ to. (to ≡ at_package (vec_len self.old.nodes)) × (self.new.nodes.items ≡ self.old.nodes.items ++ node ∷ []) × (self.new.links.items ≡ self.old.links.items) × (vec_len self.old.nodes < PACKAGE_LIMIT)) }
        ensures tied { OnOk result (IsTied self.old → place_of node.id self.old.nodes.items ≡ None → IsTied self.new) }
        ensures refused { IfErr result (IsTooMany self.old.nodes.items) }
    {
        let at = self.nodes.len();
        if at >= PACKAGE_LIMIT {
            return Err(WalkFault::Packages(PACKAGE_LIMIT as u64 + 1));
        }
        if keep(alloc, &mut self.places, &node.id, at as u32).is_err() {
            return Err(WalkFault::Memory);
        }
        if self.nodes.push(node).is_err() {
            return Err(WalkFault::Memory);
        }
        Ok(Place::Package(at as u32))
    }

    // The place of the package with an id.
    fn place(&self, id: &PkgId) -> Option<u32>
        requires { IsTied self.now }
        ensures { result ≡ place_of id.now self.now.nodes.items }
    {
        match self.places.get(id.as_str()) {
            Some(at) => Some(*at),
            None => None,
        }
    }

    // Keeps an edge with where it leads.
    fn link<F>(
        &mut self,
        alloc: Global,
        who: Place,
        wish: &Wish,
        to: Option<Place>,
    ) -> Result<(), WalkFault<F>>
        ensures linked { OnOk result ((self.new.nodes.items ≡ self.old.nodes.items) × (map link_of self.new.links.items ≡ map link_of self.old.links.items ++ record { turn = turn_by who wish.now; to = to } ∷ [])) }
        ensures places { self.new.places ≡ self.old.places }
        ensures refused { IfErr result (λ e. e ≡ no_memory) }
    {
        let Ok(wish) = wish.copy(alloc) else {
            return Err(WalkFault::Memory);
        };
        if self.links.push(Taken { who, wish, to }).is_err() {
            return Err(WalkFault::Memory);
        }
        Ok(())
    }
}

// What the package at a place asks for.
fn asks_at(alloc: Global, nodes: &[Node], at: usize) -> Result<Asks, Memory>
    requires { at < length nodes.now }
    ensures { IfOk result (λ a. (n : TheNode) × (n ≡ get_or nodes.now at n) × (a.from ≡ n.id) × (a.wishes ≡ n.wishes)) }
{
    let node = &nodes[at];
    let from = Text::of(alloc, node.id.as_str())?;
    let wishes = node.wishes.copy(alloc)?;
    Ok(Asks { from, wishes })
}

// Keeps the place of a package under its id's text.
fn keep(
    alloc: Global,
    places: &mut BTreeMap<String, u32>,
    id: &PkgId,
    at: u32,
) -> Result<(), Memory>
    ensures { OnOk result (KeepsPlace places.old places.new id.now at) }
{
    let key = String::from_str(alloc, id.as_str())?;
    places.insert(key, at)?;
    Ok(())
}
