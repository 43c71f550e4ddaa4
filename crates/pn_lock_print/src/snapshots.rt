// Snapshots, as they are printed.
ghost use Rattle.std.specs.Prelude.{◌≡◌, IfOk, OnOk, codes, map};
ghost use Rattle.pn_yaml.specs.Data.{list, no_members};
ghost use Rattle.pn_yaml.specs.View.{members_view, view};
ghost use Rattle.pn_lock_print.specs.Members.{joined, put};
ghost use Rattle.pn_lock_print.specs.LockData.{goal_text, names_data, snapshot_data, text, text_items};

use crate::entry::{Entry, push_filled};
use crate::nodes::{push_member, text_node};
use crate::target::goal_text;
use pn_lock::{Lock, LockLink, LockSnapshot};
use pn_text::{Memory, PkgName, Text};
use pn_yaml::Node;
use sqlite_items::Items;
use std::alloc::Global;

// Its target's text leads from the folder that is given.
impl Entry for LockLink {
    ghost key = { λ k. k.alias };

    ghost written = { λ l base k. text (goal_text l base k.alias k.to) };

    fn key(&self) -> &str {
        self.alias.as_str()
    }

    fn node(&self, alloc: Global, lock: &Lock, base: &str) -> Result<Node, Memory> {
        let target = goal_text(alloc, lock, base, &self.alias, self.to)?;
        text_node(alloc, target.as_str())
    }
}

impl Entry for LockSnapshot {
    ghost key = { λ s. s.path };

    ghost written = { λ l base s. snapshot_data l s };

    fn key(&self) -> &str {
        self.path.as_str()
    }

    fn node(&self, alloc: Global, lock: &Lock, _base: &str) -> Result<Node, Memory> {
        let dependencies = self.dependencies.as_slice();
        let optional = self.optional.as_slice();
        let mut members = Items::new(alloc);
        push_filled(alloc, &mut members, "dependencies", lock, ".", dependencies)?;
        push_filled(
            alloc,
            &mut members,
            "optionalDependencies",
            lock,
            ".",
            optional,
        )?;
        push_transitive(alloc, &mut members, self.transitive.as_slice())?;
        Ok(Node::Map(members))
    }
}

// The field of the peers that are passed on, where there are any.
#[tactic(auto, using(crate::proofs::MemberLemmas::joined_none))]
fn push_transitive(
    alloc: Global,
    members: &mut Items<(Text, Node)>,
    names: &[PkgName],
) -> Result<(), Memory>
    ensures { OnOk result (members_view members.new ≡ joined (members_view members.old)
        (put (codes "transitivePeerDependencies") (names_data names.now) no_members)) }
{
    if names.is_empty() {
        return Ok(());
    }
    let node = names_node(alloc, names)?;
    push_member(alloc, members, "transitivePeerDependencies", node)
}

fn names_node(alloc: Global, names: &[PkgName]) -> Result<Node, Memory>
    ensures { IfOk result (λ n. view n ≡ list (text_items names.now)) }
{
    let items = name_items(alloc, names)?;
    Ok(Node::List(items))
}

fn name_items(alloc: Global, names: &[PkgName]) -> Result<Items<Node>, Memory>
    ensures { IfOk result (λ items. map view items ≡ map text names.now) }
{
    let mut items = Items::new(alloc);
    for name in names {
        items.push(text_node(alloc, name.as_str())?)?;
    }
    Ok(items)
}
