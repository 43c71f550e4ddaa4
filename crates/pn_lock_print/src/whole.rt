// The whole lockfile.
ghost use Rattle.std.specs.Prelude.{◌≡◌, IfOk, OnOk};
ghost use Rattle.pn_yaml.specs.Blocks.{says};
ghost use Rattle.pn_yaml.specs.Data.{Members};
ghost use Rattle.pn_yaml.specs.View.{members_view, view};
ghost use Rattle.pn_yaml_print.specs.Laws.{IsPrintable};
ghost use Rattle.pn_yaml_print.specs.Printing.{marked, printed};
ghost use Rattle.pn_lock.specs.Kept.{IsLock};
ghost use Rattle.pn_lock_print.specs.LockData.{lock_data, projects_members, settings_data, settings_then};
ghost use Rattle.pn_lock_print.specs.Members.{joined};

use crate::catalogs::push_catalogs;
use crate::entry::{map_node, push_filled};
use crate::nodes::{push_member, text_node, truth_node};
use pn_lock::Lock;
use pn_text::{Memory, Text};
use pn_yaml::Node;
use sqlite_items::Items;
use std::alloc::Global;

/// The text of a lock. It is read as the lock's data.
pub fn print(alloc: Global, lock: &Lock) -> Result<Vec<u8>, Memory>
    ensures text { IfOk result (λ v. v.items ≡ printed (lock_data lock.now)) }
    ensures reads { IfOk result (λ v. says v.items ≡ Ok (marked (lock_data lock.now))) }
{
    let node = lock_node(alloc, lock)?;
    pn_yaml_print::print(alloc, &node)
}

fn lock_node(alloc: Global, lock: &Lock) -> Result<Node, Memory>
    ensures shown { IfOk result (λ n. view n ≡ lock_data lock.now) }
    ensures printable { IfOk result (λ n. IsPrintable (view n)) }
{
    let mut members = Items::new(alloc);
    push_settings(alloc, &mut members, lock)?;
    push_projects(alloc, &mut members, lock)?;
    Ok(Node::Map(members))
}

// What the settings say.
fn push_settings(
    alloc: Global,
    members: &mut Items<(Text, Node)>,
    lock: &Lock,
) -> Result<(), Memory>
    ensures { OnOk result ((more : Members) → joined (members_view members.new) more ≡ joined (members_view members.old) (settings_then lock.now more)) }
{
    let version = text_node(alloc, "9.0")?;
    push_member(alloc, members, "lockfileVersion", version)?;
    let settings = settings_node(alloc, lock.auto_install_peers())?;
    push_member(alloc, members, "settings", settings)?;
    push_catalogs(alloc, members, lock)?;
    push_filled(alloc, members, "overrides", lock, ".", lock.overrides())
}

// The projects, and what they lead to.
fn push_projects(
    alloc: Global,
    members: &mut Items<(Text, Node)>,
    lock: &Lock,
) -> Result<(), Memory>
    ensures shown { OnOk result (members_view members.new ≡ joined (members_view members.old) (projects_members lock.now)) }
    ensures kept { IsLock lock.now }
{
    let importers = map_node(alloc, lock, ".", lock.importers())?;
    push_member(alloc, members, "importers", importers)?;
    push_filled(alloc, members, "packages", lock, ".", lock.packages())?;
    push_filled(alloc, members, "snapshots", lock, ".", lock.snapshots())
}

fn settings_node(alloc: Global, auto_install_peers: bool) -> Result<Node, Memory>
    ensures { IfOk result (λ n. view n ≡ settings_data auto_install_peers) }
{
    let auto = truth_node(alloc, auto_install_peers)?;
    let mut members = Items::new(alloc);
    push_member(alloc, &mut members, "autoInstallPeers", auto)?;
    let exclude = truth_node(alloc, false)?;
    push_member(alloc, &mut members, "excludeLinksFromLockfile", exclude)?;
    Ok(Node::Map(members))
}
