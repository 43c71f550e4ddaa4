// The peers that packages pass on.
ghost use Rattle.std.specs.Prelude.{◌≡◌, ◌<◌, IfOk, length, not, true};
ghost use Rattle.std.specs.List.{All, filter, list_any};
ghost use Rattle.pn_graph.specs.Graphs.{has_name, peer_names};
ghost use Rattle.pn_lock_make.specs.Names.{AreNames};
ghost use Rattle.pn_lock_make.specs.PassedOn.{AreAllPassed, ArePassed, has_peers};

use crate::packages::name_copy;
use pn_graph::{Package, Peer, Plain, free_names};
use pn_text::{Memory, PkgIx, PkgName};
use sqlite_items::Items;
use std::alloc::Global;

/// What each package passes on to those who depend on it. A graph without peers is gone through once.
pub(crate) fn all_passed(alloc: Global, plain: &Plain) -> Result<Vec<Items<PkgName>>, Memory>
    ensures passed { IfOk result (λ v. AreAllPassed plain.now.packages v.items) }
    ensures named { IfOk result (λ v. All AreNames v.items) }
{
    let packages = plain.packages.as_slice();
    let any = any_peers(packages);
    let mut all = Vec::new(alloc);
    for n in 0..packages.len() {
        let one = passed(alloc, plain, any, PkgIx(n as u32))?;
        all.push(one)?;
    }
    Ok(all)
}

fn any_peers(packages: &[Package]) -> bool
    ensures { result ≡ list_any has_peers packages.now }
{
    for package in packages {
        if !package.peers.as_slice().is_empty() {
            return true;
        }
    }
    false
}

// The names that are free in a package and aren't its own peers; `any` says whether a package has peers.
fn passed(alloc: Global, plain: &Plain, any: bool, of: PkgIx) -> Result<Items<PkgName>, Memory>
    requires any { any ≡ list_any has_peers plain.now.packages }
    requires within { of.0 < length plain.now.packages }
    ensures passed { IfOk result (ArePassed plain.now.packages of.0) }
    ensures named { IfOk result AreNames }
{
    if !any {
        return Ok(Items::new(alloc));
    }
    let names = free_names(alloc, plain, of)?;
    without(alloc, names.as_slice(), plain.peers(of))
}

fn without(alloc: Global, names: &[PkgName], peers: &[Peer]) -> Result<Items<PkgName>, Memory>
    ensures made { IfOk result (λ ns. ns ≡ filter (λ n. not (has_name n (peer_names peers.now))) names.now) }
    ensures named { IfOk result AreNames }
{
    let mut others = Items::new(alloc);
    for name in names {
        if !has_peer(peers, name) {
            others.push(name_copy(alloc, name)?)?;
        }
    }
    Ok(others)
}

fn has_peer(peers: &[Peer], name: &PkgName) -> bool
    ensures { result ≡ has_name name.now (peer_names peers.now) }
{
    for peer in peers {
        if name.as_str() == peer.name.as_str() {
            return true;
        }
    }
    false
}
