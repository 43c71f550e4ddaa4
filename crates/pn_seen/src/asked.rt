// What a seen manifest asks for.
ghost use Rattle.std.specs.Prelude.{◌≡◌, ◌++◌, [], false, IfOk, OnOk, filter, map};
ghost use Rattle.pn_manifest.specs.Listed.{pair_of};
ghost use Rattle.pn_manifest.specs.Says.{said_of};
ghost use Rattle.pn_plain.specs.Seen.{counted, is_wanted, pair_of as peer_pair, put_wishes, wish, wishes_of};

use crate::lookups::depends_on;
use pn_manifest::{Dependencies, Dependency, Manifest, Peer};
use pn_text::Memory;
use pn_walk::{Wish, Wishes};
use std::alloc::Global;

/// What a seen manifest asks for.
pub fn wishes(alloc: Global, manifest: &Manifest) -> Result<Wishes, Memory>
    ensures { IfOk result (λ w. w ≡ wishes_of (said_of manifest.now)) }
{
    project_wishes(alloc, false, manifest)
}

/// What a project's seen manifest asks for. Where peers are installed by themselves, it asks for its required peers too.
pub fn project_wishes(
    alloc: Global,
    auto_peers: bool,
    manifest: &Manifest,
) -> Result<Wishes, Memory>
    ensures { IfOk result (λ w. w ≡ wishes_of (counted auto_peers (said_of manifest.now))) }
{
    let mut items = Vec::new(alloc);
    put_all(alloc, &mut items, &manifest.dependencies, false)?;
    if auto_peers {
        put_wanted(alloc, &mut items, manifest)?;
    }
    put_all(alloc, &mut items, &manifest.dev, false)?;
    put_all(alloc, &mut items, &manifest.optional, true)?;
    in_order(items)
}

fn put_all(
    alloc: Global,
    items: &mut Vec<Wish>,
    dependencies: &Dependencies,
    optional: bool,
) -> Result<(), Memory>
    ensures { OnOk result (items.new.items ≡ items.old.items ++ map (wish optional) dependencies.now) }
{
    for dependency in dependencies.as_slice() {
        items.push(wish_for(alloc, dependency, optional)?)?;
    }
    Ok(())
}

fn put_wanted(alloc: Global, items: &mut Vec<Wish>, manifest: &Manifest) -> Result<(), Memory>
    ensures { OnOk result (items.new.items ≡ items.old.items ++ map (wish false) (map peer_pair (filter (is_wanted (said_of manifest.now)) manifest.now.peers))) }
{
    for peer in manifest.peers.as_slice() {
        if is_wanted(manifest, peer) {
            items.push(wish_for_peer(alloc, peer)?)?;
        }
    }
    Ok(())
}

fn is_wanted(manifest: &Manifest, peer: &Peer) -> bool
    ensures { result ≡ is_wanted (said_of manifest.now) peer.now }
{
    !peer.optional && !depends_on(manifest, &peer.name)
}

fn wish_for(alloc: Global, dependency: &Dependency, optional: bool) -> Result<Wish, Memory>
    ensures { IfOk result (λ w. w ≡ wish optional (pair_of dependency.now)) }
{
    let alias = dependency.name.copy(alloc)?;
    let specifier = dependency.specifier.copy(alloc)?;
    Ok(Wish {
        alias,
        specifier,
        optional,
        chosen: None,
    })
}

fn wish_for_peer(alloc: Global, peer: &Peer) -> Result<Wish, Memory>
    ensures { IfOk result (λ w. w ≡ wish false (peer_pair peer.now)) }
{
    let alias = peer.name.copy(alloc)?;
    let specifier = peer.text.copy(alloc)?;
    Ok(Wish {
        alias,
        specifier,
        optional: false,
        chosen: None,
    })
}

// Wishes in byte order of aliases. Of two under one alias the later one goes first.
fn in_order(mut items: Vec<Wish>) -> Result<Wishes, Memory>
    ensures { IfOk result (λ w. w ≡ put_wishes items.items []) }
{
    items.reverse();
    items.sort_by(|a, b| a.alias.cmp(&b.alias))?;
    Ok(Wishes::of(items))
}
