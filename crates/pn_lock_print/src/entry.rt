// Maps of entries.
ghost use Rattle.std.specs.Prelude.{◌≡◌, ℕ, List, IfOk, OnOk};
ghost use Rattle.pn_yaml.specs.Data.{Data, map, no_members};
ghost use Rattle.pn_yaml.specs.View.{members_view, view};
ghost use Rattle.pn_lock.specs.Locks.{Locked};
ghost use Rattle.pn_lock_print.specs.Members.{entries, filled, joined, put};

use crate::nodes::push_member;
use pn_lock::Lock;
use pn_text::{Memory, Text};
use pn_yaml::Node;
use sqlite_items::Items;
use std::alloc::Global;

/// What is printed as an entry of a map: under its key, as data that a lock and the folder from which links lead determine.
pub(crate) trait Entry {
    ghost key: { Self → List ℕ };

    ghost written: { Locked → List ℕ → Self → Data };

    fn key(&self) -> &str
        ensures { result.now ≡ key self.now };

    fn node(&self, alloc: Global, lock: &Lock, base: &str) -> Result<Node, Memory>
        ensures { IfOk result (λ n. view n ≡ written lock.now base.now self.now) };
}

/// The map of these entries.
pub(crate) fn map_node<E: Entry>(
    alloc: Global,
    lock: &Lock,
    base: &str,
    items: &[E],
) -> Result<Node, Memory>
    ensures { IfOk result (λ n. view n ≡ map (entries E.key (E.written lock.now base.now) items.now)) }
{
    let mut members = Items::new(alloc);
    for item in items {
        let node = item.node(alloc, lock, base)?;
        push_member(alloc, &mut members, item.key(), node)?;
    }
    Ok(Node::Map(members))
}

/// One more field of a map: the map of these entries, where there are some.
#[tactic(auto, using(crate::proofs::MemberLemmas::joined_none))]
pub(crate) fn push_filled<E: Entry>(
    alloc: Global,
    members: &mut Items<(Text, Node)>,
    key: &str,
    lock: &Lock,
    base: &str,
    items: &[E],
) -> Result<(), Memory>
    ensures { OnOk result (members_view members.new ≡ joined (members_view members.old)
        (put key.now (filled E.key (E.written lock.now base.now) items.now) no_members)) }
{
    if items.is_empty() {
        return Ok(());
    }
    let node = map_node(alloc, lock, base, items)?;
    push_member(alloc, members, key, node)
}
