// Packages.
ghost use Rattle.std.specs.Prelude.{◌≡◌, IfOk, length, map, true};
ghost use Rattle.std.specs.Cmp.Lexicographic.{slice_cmp};
ghost use Rattle.std.specs.List.{All};
ghost use Rattle.std.specs.List.Sorted.{IsPermutation, IsSorted};
ghost use Rattle.std.specs.Ordering.{nat_cmp};
ghost use Rattle.pn_text.specs.Ids.{is_id};
ghost use Rattle.pn_text.specs.Name.{is_name};
ghost use Rattle.pn_digest.specs.Digests.{IsDigest};
ghost use Rattle.pn_lock.specs.Locks.{ids_of};
ghost use Rattle.pn_lock_make.specs.Names.{AreNames, IsNamedPackage};
ghost use Rattle.pn_lock_make.specs.Packages.{optional_names, package_of, packages_from, peer_of};

use pn_digest::Integrity;
use pn_graph::{Package, Peer};
use pn_lock::{LockPackage, LockPeer};
use pn_text::{Memory, PkgId, PkgName};
use sqlite_items::Items;
use std::alloc::Global;
use std::cmp::Ordering;

/// The packages in byte order of their ids.
pub(crate) fn packages(
    alloc: Global,
    packages: &[Package],
    integrities: &[Integrity],
) -> Result<Items<LockPackage>, Memory>
    requires { length integrities.now ≡ length packages.now }
    ensures made { IfOk result (λ ps. IsPermutation (packages_from integrities.now 0 packages.now) ps) }
    ensures sorted { IfOk result (λ ps. IsSorted (slice_cmp nat_cmp) (ids_of ps)) }
    ensures named { IfOk result (λ ps. All IsNamedPackage ps) }
{
    let all = as_met(alloc, packages, integrities)?;
    by_ids(all)
}

// The packages in the order of the graph.
fn as_met(
    alloc: Global,
    packages: &[Package],
    integrities: &[Integrity],
) -> Result<Vec<LockPackage>, Memory>
    requires { length integrities.now ≡ length packages.now }
    ensures made { IfOk result (λ v. v.items ≡ packages_from integrities.now 0 packages.now) }
    ensures named { IfOk result (λ v. All IsNamedPackage v.items) }
{
    let mut all = Vec::new(alloc);
    for (n, package) in packages.iter().enumerate() {
        let one = package_of(alloc, package, integrities[n])?;
        all.push(one)?;
    }
    Ok(all)
}

fn by_ids(mut all: Vec<LockPackage>) -> Result<Items<LockPackage>, Memory>
    ensures same { IfOk result (λ ps. IsPermutation all.items ps) }
    ensures sorted { IfOk result (λ ps. IsSorted (slice_cmp nat_cmp) (ids_of ps)) }
{
    all.sort_by(|a, b| by_id(a, b))?;
    Ok(Items::from_vec(all))
}

fn by_id(a: &LockPackage, b: &LockPackage) -> Ordering
    ensures { result ≡ slice_cmp nat_cmp a.now.id b.now.id }
{
    a.id.cmp(&b.id)
}

fn package_of(alloc: Global, node: &Package, integrity: Integrity) -> Result<LockPackage, Memory>
    ensures made { IfOk result (λ p. p ≡ package_of node.now integrity) }
    ensures named { IfOk result IsNamedPackage }
{
    let id = id_copy(alloc, &node.id)?;
    let peers = peers_of(alloc, node.peers.as_slice())?;
    let optional_peers = optional_names(alloc, node.peers.as_slice())?;
    Ok(LockPackage {
        id,
        integrity: checked(integrity),
        peers,
        optional_peers,
    })
}

fn id_copy(alloc: Global, id: &PkgId) -> Result<PkgId, Memory>
    ensures same { IfOk result (λ copy. copy ≡ id.now) }
    ensures id { IfOk result (λ copy. is_id copy ≡ true) }
{
    let _ = id.as_str(); // a name and a version
    id.copy(alloc)
}

fn checked(integrity: Integrity) -> Integrity
    ensures same { result ≡ integrity }
    ensures digest { IsDigest result }
{
    let digest = integrity.digest();
    let _ = digest.as_bytes(); // 64 of them
    Integrity::of(digest)
}

fn peers_of(alloc: Global, peers: &[Peer]) -> Result<Items<LockPeer>, Memory>
    ensures made { IfOk result (λ ps. ps ≡ map peer_of peers.now) }
    ensures named { IfOk result (λ ps. All (λ p. is_name p.name ≡ true) ps) }
{
    let mut all = Items::new(alloc);
    for peer in peers {
        let one = peer_of(alloc, peer)?;
        all.push(one)?;
    }
    Ok(all)
}

fn peer_of(alloc: Global, peer: &Peer) -> Result<LockPeer, Memory>
    ensures made { IfOk result (λ p. p ≡ peer_of peer.now) }
    ensures named { IfOk result (λ p. is_name p.name ≡ true) }
{
    let name = name_copy(alloc, &peer.name)?;
    let range = peer.text.copy(alloc)?;
    Ok(LockPeer { name, range })
}

fn optional_names(alloc: Global, peers: &[Peer]) -> Result<Items<PkgName>, Memory>
    ensures made { IfOk result (λ ns. ns ≡ optional_names peers.now) }
    ensures named { IfOk result AreNames }
{
    let mut names = Items::new(alloc);
    for peer in peers {
        if peer.optional {
            let name = name_copy(alloc, &peer.name)?;
            names.push(name)?;
        }
    }
    Ok(names)
}

/// An equal name.
pub(crate) fn name_copy(alloc: Global, name: &PkgName) -> Result<PkgName, Memory>
    ensures same { IfOk result (λ copy. copy ≡ name.now) }
    ensures named { IfOk result (λ copy. is_name copy ≡ true) }
{
    let _ = name.as_str(); // a name
    name.copy(alloc)
}
