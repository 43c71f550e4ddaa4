// Lists of peers.
ghost use Rattle.std.specs.Prelude.{◌≡◌, IfOk, [], IsTrue, ◌↔◌};
ghost use Rattle.pn_manifest.specs.Said.{AreRising, peer_names};

use pn_text::{Memory, PkgName, Text};
use std::alloc::Global;
use std::marker::Model;

/// A peer: its name, its specifier's text, and whether it is optional.
#[derive(Drop)]
pub struct Peer {
    pub name: PkgName,
    pub text: Text,
    pub optional: bool,
}

impl Peer {
    /// An equal peer.
    pub fn copy(&self, alloc: Global) -> Result<Peer, Memory>
        ensures { IfOk result (λ p. p ≡ self.now) }
    {
        let name = self.name.copy(alloc)?;
        let text = self.text.copy(alloc)?;
        Ok(Peer {
            name,
            text,
            optional: self.optional,
        })
    }
}

/// Peers in byte order of names, no name twice.
#[derive(Drop)]
pub struct Peers {
    items: Vec<Peer>,
}

impl Model for Peers {
    ghost use Rattle.std.specs.Prelude.{List, map};
    ghost use Rattle.std.specs.Cmp.Lexicographic.{slice_cmp};
    ghost use Rattle.std.specs.List.Sorted.{IsStrictlySortedBy};
    ghost use Rattle.std.specs.Ordering.{nat_cmp};
    ghost use Rattle.pn_manifest.specs.declared.peers.Peer.{Peer};

    ghost Value = { List Peer };

    ghost view = { λ a. a.items.items };

    ghost invariant = { λ a. IsStrictlySortedBy (slice_cmp nat_cmp) (map (λ (p : Peer). p.name) a.items.items) };
}

impl Peers {
    /// Peers that rise.
    pub fn of(items: Vec<Peer>) -> Peers
        requires { AreRising (peer_names items.items) }
        ensures { result ≡ items.items }
    {
        Peers { items }
    }

    /// The peers.
    pub fn as_slice(&self) -> &[Peer]
        ensures peers { result.now ≡ self.now }
        ensures rising { AreRising (peer_names self.now) }
    {
        self.items.as_slice()
    }

    /// Whether there is none.
    pub fn is_empty(&self) -> bool
        ensures { IsTrue result ↔ (self.now ≡ []) }
    {
        self.items.is_empty()
    }

    /// Equal peers.
    pub fn copy(&self, alloc: Global) -> Result<Peers, Memory>
        ensures { IfOk result (λ p. p ≡ self.now) }
    {
        let items = copy_all(alloc, self.as_slice())?;
        Ok(Peers { items })
    }
}

fn copy_all(alloc: Global, items: &[Peer]) -> Result<Vec<Peer>, Memory>
    ensures { IfOk result (λ v. v.items ≡ items.now) }
{
    let mut all = Vec::new(alloc);
    for item in items {
        let copied = item.copy(alloc)?;
        all.push(copied)?;
    }
    Ok(all)
}
