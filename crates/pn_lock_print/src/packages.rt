// Packages, as they are printed.
ghost use Rattle.std.specs.Prelude.{◌≡◌, IfOk};
ghost use Rattle.pn_digest.specs.Digests.{integrity_text};
ghost use Rattle.pn_yaml.specs.View.{view};
ghost use Rattle.pn_lock_print.specs.LockData.{optional_data, package_data, resolution_data, text};

use crate::entry::{Entry, push_filled};
use crate::nodes::{push_member, text_node, truth_node};
use pn_digest::Integrity;
use pn_lock::{Lock, LockPackage, LockPeer};
use pn_text::{Memory, PkgName};
use pn_yaml::Node;
use sqlite_items::Items;
use std::alloc::Global;

impl Entry for LockPeer {
    ghost key = { λ q. q.name };

    ghost written = { λ l base q. text q.range };

    fn key(&self) -> &str {
        self.name.as_str()
    }

    fn node(&self, alloc: Global, _lock: &Lock, _base: &str) -> Result<Node, Memory> {
        text_node(alloc, self.range.as_str())
    }
}

// The name of an optional peer.
impl Entry for PkgName {
    ghost key = { λ k. k };

    ghost written = { λ l base k. optional_data };

    fn key(&self) -> &str {
        self.as_str()
    }

    fn node(&self, alloc: Global, _lock: &Lock, _base: &str) -> Result<Node, Memory> {
        let mut members = Items::new(alloc);
        push_member(alloc, &mut members, "optional", truth_node(alloc, true)?)?;
        Ok(Node::Map(members))
    }
}

impl Entry for LockPackage {
    ghost key = { λ p. p.id };

    ghost written = { λ l base p. package_data p };

    fn key(&self) -> &str {
        self.id.as_str()
    }

    fn node(&self, alloc: Global, lock: &Lock, base: &str) -> Result<Node, Memory> {
        let peers = self.peers.as_slice();
        let optional = self.optional_peers.as_slice();
        let resolution = resolution_node(alloc, &self.integrity)?;
        let mut members = Items::new(alloc);
        push_member(alloc, &mut members, "resolution", resolution)?;
        push_filled(alloc, &mut members, "peerDependencies", lock, base, peers)?;
        push_filled(
            alloc,
            &mut members,
            "peerDependenciesMeta",
            lock,
            base,
            optional,
        )?;
        Ok(Node::Map(members))
    }
}

fn resolution_node(alloc: Global, integrity: &Integrity) -> Result<Node, Memory>
    ensures { IfOk result (λ n. view n ≡ resolution_data (integrity_text integrity.now)) }
{
    let text = integrity.print(alloc)?;
    let mut members = Items::new(alloc);
    push_member(
        alloc,
        &mut members,
        "integrity",
        text_node(alloc, text.as_str())?,
    )?;
    Ok(Node::Map(members))
}
