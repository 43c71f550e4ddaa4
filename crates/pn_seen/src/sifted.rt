// What is left of a manifest's lists.
ghost use Rattle.std.specs.Prelude.{◌≡◌, ◌++◌, [], IfOk};
ghost use Rattle.pn_manifest.specs.Pairs.{names};
ghost use Rattle.pn_manifest.specs.Says.{said_of};
ghost use Rattle.pn_plain.specs.Seen.{but, dependency_names, own_names, peers_but};

use crate::lookups::{depends_on, has_either, is_own};
use pn_manifest::{Dependencies, Manifest, Peers};
use pn_text::{Memory, PkgName};
use std::alloc::Global;

/// No dependencies.
pub fn none(alloc: Global) -> Dependencies
    ensures { result ≡ [] }
{
    Dependencies::of(Vec::new(alloc))
}

/// The dependencies whose names are in neither list.
pub fn without(
    alloc: Global,
    first: &Dependencies,
    second: &Dependencies,
    all: &Dependencies,
) -> Result<Dependencies, Memory>
    ensures { IfOk result (λ d. d ≡ but (names first.now ++ names second.now) all.now) }
{
    let mut left = Vec::new(alloc);
    for one in all.as_slice() {
        if !has_either(first, second, &one.name) {
            left.push(one.copy(alloc)?)?;
        }
    }
    Ok(Dependencies::of(left))
}

/// The dependencies that don't have the own name.
pub fn without_own(
    alloc: Global,
    own: &Option<PkgName>,
    all: &Dependencies,
) -> Result<Dependencies, Memory>
    ensures { IfOk result (λ d. d ≡ but (own_names own.now) all.now) }
{
    let mut left = Vec::new(alloc);
    for one in all.as_slice() {
        if !is_own(own, &one.name) {
            left.push(one.copy(alloc)?)?;
        }
    }
    Ok(Dependencies::of(left))
}

/// The peers that neither have the own name nor are dependencies.
pub fn peers_left(
    alloc: Global,
    own: &Option<PkgName>,
    before: &Manifest,
    all: &Peers,
) -> Result<Peers, Memory>
    ensures { IfOk result (λ p. p ≡ peers_but (own_names own.now ++ dependency_names (said_of before.now)) all.now) }
{
    let mut left = Vec::new(alloc);
    for peer in all.as_slice() {
        if !is_own(own, &peer.name) && !depends_on(before, &peer.name) {
            left.push(peer.copy(alloc)?)?;
        }
    }
    Ok(Peers::of(left))
}
