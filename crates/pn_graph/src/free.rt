// The names that those who depend on a package have to provide.
ghost use Rattle.std.specs.Prelude.{◌≡◌, ◌<◌, ◌++◌, ℕ, List, IfOk, OnOk, length, slice_get, true};
ghost use Rattle.std.specs.Bool.{Decides};
ghost use Rattle.std.specs.List.{AllPairs, Contains, list_any};
ghost use Rattle.std.specs.Cmp.Lexicographic.{slice_cmp};
ghost use Rattle.std.specs.Ordering.{nat_cmp, is_lt};
ghost use Rattle.pn_graph.specs.Founds.{AreWithin};
ghost use Rattle.pn_graph.specs.FreeNames.{AreFree, IsFree, Keeps, peers_at, is_peer_at};
ghost use Rattle.pn_graph.specs.Graphs.{peer_names};
ghost use Rattle.pn_graph.specs.Lookups.{package_deps, package_peers};

use crate::explored::explore;
use crate::find::has_peer;
use crate::links::Package;
use crate::peer::Peer;
use crate::plain::Plain;
use pn_text::{Memory, PkgIx, PkgName};
use std::alloc::Global;

/// The names that are free in a package, in byte order: its own peers, and names that are free in a dependency and no alias
/// of its own.
pub fn free_names(alloc: Global, p: &Plain, of: PkgIx) -> Result<Vec<PkgName>, Memory>
    requires { of.0 < length p.now.packages }
    ensures { IfOk result (λ names. AreFree p.now.packages of.0 names.items) }
{
    let packages = p.packages.as_slice();
    let reached = explore(alloc, packages, of.0, None)?;
    let names = rising(gather(alloc, packages, &reached.order)?)?;
    let mut free = Vec::new(alloc);
    for name in &names {
        keep(alloc, packages, of.0, name, &mut free)?;
    }
    Ok(free)
}

// Keeps the name if it is free.
fn keep(
    alloc: Global,
    packages: &[Package],
    of: u32,
    name: &PkgName,
    free: &mut Vec<PkgName>,
) -> Result<(), Memory>
    requires within { of < length packages.now }
    requires right { (i : ℕ) → AreWithin (length packages.now) (package_deps (slice_get packages.now i)) }
    ensures { OnOk result (Keeps packages.now of name.now free.old.items free.new.items) }
{
    if is_free(alloc, packages, of, name)? {
        let name = name.copy(alloc)?;
        free.push(name)?;
    }
    Ok(())
}

fn is_free(alloc: Global, packages: &[Package], of: u32, name: &PkgName) -> Result<bool, Memory>
    requires within { of < length packages.now }
    requires right { (i : ℕ) → AreWithin (length packages.now) (package_deps (slice_get packages.now i)) }
    ensures { IfOk result (λ b. Decides b (IsFree packages.now name.now of)) }
{
    let found = explore(alloc, packages, of, Some(name))?;
    Ok(some_has_peer(packages, &found.order, name))
}

fn peers_of(packages: &[Package], at: u32) -> &[Peer]
    requires { at < length packages.now }
    ensures { result.now ≡ package_peers (slice_get packages.now at) }
{
    packages[at as usize].peers.as_slice()
}

// Whether one of these packages has a peer of that name.
fn some_has_peer(packages: &[Package], order: &[u32], name: &PkgName) -> bool
    requires { (k : ℕ) → Contains order.now k → k < length packages.now }
    ensures { result ≡ list_any (is_peer_at packages.now name.now) order.now }
{
    for at in order {
        if has_peer(peers_of(packages, *at), name) {
            return true;
        }
    }
    false
}

// The names of the peers of these packages.
fn gather(alloc: Global, packages: &[Package], order: &[u32]) -> Result<Vec<PkgName>, Memory>
    requires { (k : ℕ) → Contains order.now k → k < length packages.now }
    ensures { IfOk result (λ names. (k : ℕ) (n : List ℕ) → Contains order.now k → Contains (peers_at packages.now k) n → Contains names.items n) }
{
    let mut names = Vec::new(alloc);
    for at in order {
        push_names(alloc, peers_of(packages, *at), &mut names)?;
    }
    Ok(names)
}

fn push_names(alloc: Global, peers: &[Peer], names: &mut Vec<PkgName>) -> Result<(), Memory>
    ensures { OnOk result (names.new.items ≡ names.old.items ++ peer_names peers.now) }
{
    for peer in peers {
        let name = peer.name.copy(alloc)?;
        names.push(name)?;
    }
    Ok(())
}

// The names in byte order, each once.
fn rising(mut names: Vec<PkgName>) -> Result<Vec<PkgName>, Memory>
    ensures rises { IfOk result (λ found. AllPairs (λ (a b : List ℕ). is_lt (slice_cmp nat_cmp a b) ≡ true) found.items) }
    ensures all { IfOk result (λ found. (n : List ℕ) → Contains names.items n → Contains found.items n) }
{
    names.sort()?;
    names.dedup();
    Ok(names)
}
