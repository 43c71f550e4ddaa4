// Look-ups in lists.
ghost use Rattle.std.specs.Prelude.{◌≡◌, true};
ghost use Rattle.std.specs.Cmp.Lexicographic.{slice_cmp};
ghost use Rattle.std.specs.Ordering.{nat_cmp};
ghost use Rattle.pn_graph.specs.Graphs.{aliases, has_name, peer_names, rises};
ghost use Rattle.pn_graph.specs.Lookups.{auto_at, dep_at};

use crate::links::{At, Auto, Dep};
use crate::peer::Peer;
use pn_text::{PkgIx, PkgName};
use std::cmp::Ordering;

/// Where an alias leads.
pub(crate) fn find(deps: &[Dep], alias: &PkgName) -> Option<At>
    requires { rises (aliases deps.now) ≡ true }
    ensures { result ≡ dep_at alias.now deps.now }
{
    match deps.binary_search_by(|dep| place(dep, alias)) {
        Ok(at) => Some(deps[at].to),
        Err(_) => None,
    }
}

// Where a dependency's alias stands to a name.
fn place(dep: &Dep, alias: &PkgName) -> Ordering
    ensures { result ≡ slice_cmp nat_cmp dep.now.alias alias.now }
{
    dep.alias.as_str().cmp(alias.as_str())
}

/// The package of an automatic peer.
pub(crate) fn find_auto(autos: &[Auto], name: &PkgName) -> Option<PkgIx>
    ensures { result ≡ auto_at name.now autos.now }
{
    for auto in autos {
        if auto.name.as_str() == name.as_str() {
            return Some(auto.to);
        }
    }
    None
}

/// Whether a dependency has that alias.
pub(crate) fn has_alias(deps: &[Dep], name: &PkgName) -> bool
    ensures { result ≡ has_name name.now (aliases deps.now) }
{
    for dep in deps {
        if name.as_str() == dep.alias.as_str() {
            return true;
        }
    }
    false
}

/// Whether a peer has that name.
pub(crate) fn has_peer(peers: &[Peer], name: &PkgName) -> bool
    ensures { result ≡ has_name name.now (peer_names peers.now) }
{
    for peer in peers {
        if name.as_str() == peer.name.as_str() {
            return true;
        }
    }
    false
}
