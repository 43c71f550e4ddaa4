// The peers that a manifest declares, with those that it only says to be optional.
ghost use Rattle.std.specs.Prelude.{◌≡◌, ◌≤◌, IfOk, MatchOption, length, map};
ghost use Rattle.pn_manifest.specs.Listed.{pair_of};
ghost use Rattle.pn_manifest.specs.NextPeers.{IsNext};
ghost use Rattle.pn_manifest.specs.Pairs.{IsRising};
ghost use Rattle.pn_manifest.specs.PeerLists.{any_peer, marked, peers_of, required};
ghost use Rattle.pn_manifest.specs.Said.{AreRising};

use crate::dependencies::{Dependencies, Dependency};
use crate::peers::{Peer, Peers};
use crate::texts::Names;
use pn_text::{Memory, PkgName, Text};
use std::alloc::Global;
use std::cmp::Ordering;

/// Peers of declared names, and of names that are optional.
pub fn peers_of(alloc: Global, declared: &Dependencies, optional: &Names) -> Result<Peers, Memory>
    ensures { IfOk result (λ p. p ≡ peers_of declared.now optional.now) }
{
    let items = merged(alloc, declared.as_slice(), optional.as_slice())?;
    Ok(Peers::of(items))
}

fn merged(alloc: Global, declared: &[Dependency], optional: &[PkgName]) -> Result<Vec<Peer>, Memory>
    requires declared { IsRising (map pair_of declared.now) }
    requires optional { AreRising optional.now }
    ensures { IfOk result (λ v. v.items ≡ peers_of (map pair_of declared.now) optional.now) }
{
    let mut peers = Vec::new(alloc);
    let mut i = 0;
    let mut j = 0;
    'peers: while let Some(next) = next_peer(alloc, declared, i, optional, j)? {
        peers.push(next.peer)?;
        i += next.declared;
        j += next.optional;
    }
    Ok(peers)
}

// A peer, and how many of the declared names and of the optional ones it takes.
#[derive(Drop)]
struct Next {
    peer: Peer,
    declared: usize,
    optional: usize,
}

// The first peer of the declared names from `i` on and the optional ones from `j` on.
fn next_peer(
    alloc: Global,
    declared: &[Dependency],
    i: usize,
    optional: &[PkgName],
    j: usize,
) -> Result<Option<Next>, Memory>
    requires declared { IsRising (map pair_of declared.now) }
    requires optional { AreRising optional.now }
    requires of_declared { i ≤ length declared.now }
    requires of_optional { j ≤ length optional.now }
    ensures { IfOk result (λ o. MatchOption o ((length declared.now ≤ i) × (length optional.now ≤ j)) (IsNext declared.now i optional.now j)) }
{
    match (declared.get(i), optional.get(j)) {
        (Some(one), Some(name)) => match one.name.cmp(name) {
            Ordering::Less => Ok(Some(next_declared(alloc, one)?)),
            Ordering::Equal => Ok(Some(next_both(alloc, one)?)),
            Ordering::Greater => Ok(Some(next_optional(alloc, name)?)),
        },
        (Some(one), None) => Ok(Some(next_declared(alloc, one)?)),
        (None, Some(name)) => Ok(Some(next_optional(alloc, name)?)),
        (None, None) => Ok(None),
    }
}

fn next_declared(alloc: Global, one: &Dependency) -> Result<Next, Memory>
    ensures { IfOk result (λ n. n ≡ record { peer = required (pair_of one.now); declared = 1; optional = 0 }) }
{
    let name = one.name.copy(alloc)?;
    let text = one.specifier.copy(alloc)?;
    let peer = Peer {
        name,
        text,
        optional: false,
    };
    Ok(Next {
        peer,
        declared: 1,
        optional: 0,
    })
}

fn next_both(alloc: Global, one: &Dependency) -> Result<Next, Memory>
    ensures { IfOk result (λ n. n ≡ record { peer = marked (required (pair_of one.now)); declared = 1; optional = 1 }) }
{
    let name = one.name.copy(alloc)?;
    let text = one.specifier.copy(alloc)?;
    let peer = Peer {
        name,
        text,
        optional: true,
    };
    Ok(Next {
        peer,
        declared: 1,
        optional: 1,
    })
}

fn next_optional(alloc: Global, name: &PkgName) -> Result<Next, Memory>
    ensures { IfOk result (λ n. n ≡ record { peer = any_peer name.now; declared = 0; optional = 1 }) }
{
    let name = name.copy(alloc)?;
    let text = Text::of(alloc, "*")?;
    let peer = Peer {
        name,
        text,
        optional: true,
    };
    Ok(Next {
        peer,
        declared: 0,
        optional: 1,
    })
}
