// The peers of a package.
ghost use Rattle.std.specs.Prelude.{◌≡◌, IfOk};
ghost use Rattle.pn_graph.specs.PeerRanges.{IsAny, IsPeerRange};

use pn_ranges::{Range, RangeFault};
use pn_text::{Memory, PkgName, Text};
use std::alloc::Global;
use std::marker::Model;

/// A peer: its name, the versions that it takes, its specifier's text, and whether it is optional.
#[derive(Drop)]
pub struct Peer {
    pub name: PkgName,
    pub range: Range,
    pub text: Text,
    pub optional: bool,
}

impl Peer {
    /// The peer that a manifest names. A specifier that is no range takes any version.
    pub fn of(alloc: Global, name: PkgName, text: Text, optional: bool) -> Result<Peer, Memory>
        ensures name { IfOk result (λ p. p.name ≡ name) }
        ensures range { IfOk result (λ p. IsPeerRange text p.range) }
        ensures text { IfOk result (λ p. p.text ≡ text) }
        ensures optional { IfOk result (λ p. p.optional ≡ optional) }
    {
        let range = peer_range(alloc, text.as_str())?;
        Ok(Peer {
            name,
            range,
            text,
            optional,
        })
    }
}

fn peer_range(alloc: Global, text: &str) -> Result<Range, Memory>
    ensures { IfOk result (IsPeerRange text.now) }
{
    match Range::read(alloc, text) {
        Ok(range) => Ok(range),
        Err(RangeFault::BadByte(_)) => any(alloc),
        Err(RangeFault::NumberTooLarge(_)) => any(alloc),
        Err(RangeFault::TooMany) => any(alloc),
        Err(RangeFault::Memory) => Err(Memory),
    }
}

fn any(alloc: Global) -> Result<Range, Memory>
    ensures { IfOk result IsAny }
{
    Ok(Range::any(alloc)?)
}

/// Peers in byte order of names, each once.
#[derive(Drop)]
pub struct Peers {
    items: Vec<Peer>,
}

impl Model for Peers {
    ghost use Rattle.std.specs.Prelude.{List};
    ghost use Rattle.pn_graph.specs.declared.peer.Peer.{Peer};

    ghost Value = { List Peer };

    ghost view = { λ a. a.items.items };
}

impl Peers {
    pub fn of(items: Vec<Peer>) -> Peers
        ensures { result ≡ items.items }
    {
        Peers { items }
    }

    pub fn as_slice(&self) -> &[Peer]
        ensures { result.now ≡ self.now }
    {
        self.items.as_slice()
    }
}
