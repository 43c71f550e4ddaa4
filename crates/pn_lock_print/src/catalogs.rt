// Catalogs and overrides, as they are printed.
ghost use Rattle.std.specs.Prelude.{◌≡◌, ◌≤◌, IfOk, OnOk, codes, length};
ghost use Rattle.pn_yaml.specs.Data.{no_members};
ghost use Rattle.pn_yaml.specs.View.{members_view};
ghost use Rattle.pn_lock.specs.Locks.{groups_of};
ghost use Rattle.pn_lock_print.specs.LockData.{catalog_data, catalogs_data, groups_members, text};
ghost use Rattle.pn_lock_print.specs.Members.{joined, put};
ghost use Rattle.pn_lock_print.specs.Runs.{run_of};

use crate::entry::{Entry, map_node};
use crate::nodes::{pair_node, push_member, text_node};
use pn_lock::{Lock, LockCatalog, Override};
use pn_text::{Memory, Text};
use pn_yaml::Node;
use sqlite_items::Items;
use std::alloc::Global;

impl Entry for Override {
    ghost key = { λ o. o.selector };

    ghost written = { λ l base o. text o.value };

    fn key(&self) -> &str {
        self.selector.as_str()
    }

    fn node(&self, alloc: Global, _lock: &Lock, _base: &str) -> Result<Node, Memory> {
        text_node(alloc, self.value.as_str())
    }
}

impl Entry for LockCatalog {
    ghost key = { λ e. e.name };

    ghost written = { λ l base e. catalog_data e };

    fn key(&self) -> &str {
        self.name.as_str()
    }

    fn node(&self, alloc: Global, _lock: &Lock, _base: &str) -> Result<Node, Memory> {
        pair_node(alloc, self.specifier.as_str(), self.version.as_str())
    }
}

/// The field of the catalogs, where there are entries.
#[tactic(auto, using(crate::proofs::MemberLemmas::joined_none))]
pub(crate) fn push_catalogs(
    alloc: Global,
    members: &mut Items<(Text, Node)>,
    lock: &Lock,
) -> Result<(), Memory>
    ensures { OnOk result (members_view members.new ≡ joined (members_view members.old)
        (put (codes "catalogs") (catalogs_data lock.now.catalogs) no_members)) }
{
    if lock.catalogs().is_empty() {
        return Ok(());
    }
    let groups = groups(alloc, lock)?;
    push_member(alloc, members, "catalogs", Node::Map(groups))
}

// The catalogs, each with the entries of it, which stand together.
fn groups(alloc: Global, lock: &Lock) -> Result<Items<(Text, Node)>, Memory>
    ensures { IfOk result (λ ms. members_view ms ≡ groups_members (groups_of lock.now.catalogs)) }
{
    let mut members = Items::new(alloc);
    let mut rest = lock.catalogs();
    'catalogs: loop {
        let Some((first, _)) = rest.split_first() else {
            return Ok(members);
        };
        let catalog = first.catalog.as_str();
        let (group, more) = rest.split_at(run_of(rest, catalog));
        let node = map_node(alloc, lock, ".", group)?;
        push_member(alloc, &mut members, catalog, node)?;
        rest = more;
    }
}

// How many entries at the beginning are of a catalog.
fn run_of(entries: &[LockCatalog], catalog: &str) -> usize
    ensures within { result ≤ length entries.now }
    ensures run { result ≡ run_of catalog.now entries.now }
{
    for (i, entry) in entries.iter().enumerate() {
        if entry.catalog.as_str() != catalog {
            return i;
        }
    }
    entries.len()
}
