// What counts of a manifest.
ghost use Rattle.std.specs.Prelude.{◌≡◌, ◌++◌, IfOk};
ghost use Rattle.pn_manifest.specs.Pairs.{names};
ghost use Rattle.pn_manifest.specs.Says.{said_of};
ghost use Rattle.pn_plain.specs.Seen.{IsSeen, but, dependency_names, dev_of, dropped, no_hook, no_rules, one_map, seen};
ghost use Rattle.pn_seen.specs.Owners.{owner_of};

use crate::owner::Owner;
use crate::sifted::{none, peers_left, without, without_own};
use pn_manifest::{Dependencies, Manifest};
use pn_text::Memory;
use std::alloc::Global;

/// The manifest as it is seen without hooks and overrides: `one_map`, and of that what isn't `dropped`.
pub fn seen(alloc: Global, owner: Owner, manifest: &Manifest) -> Result<Manifest, Memory>
    ensures is { IfOk result (λ s. said_of s ≡ seen (owner_of owner) (said_of manifest.now)) }
    ensures seen { IfOk result (λ s. IsSeen no_hook no_rules (owner_of owner) (said_of manifest.now) (said_of s)) }
{
    let one = one_map(alloc, owner, manifest)?;
    dropped(alloc, &one, &one)
}

/// The manifest with each name in one map: optional dependencies go before dependencies, and these before those for
/// development, which don't count for a package.
pub fn one_map(alloc: Global, owner: Owner, manifest: &Manifest) -> Result<Manifest, Memory>
    ensures { IfOk result (λ s. said_of s ≡ one_map (owner_of owner) (said_of manifest.now)) }
{
    let dependencies = regular(alloc, manifest)?;
    let dev = for_development(alloc, owner, manifest)?;
    let copy = manifest.copy(alloc)?;
    Ok(Manifest {
        dependencies,
        dev,
        ..copy
    })
}

fn regular(alloc: Global, manifest: &Manifest) -> Result<Dependencies, Memory>
    ensures { IfOk result (λ d. d ≡ but (names manifest.now.optional) manifest.now.dependencies) }
{
    let nothing = none(alloc);
    without(alloc, &manifest.optional, &nothing, &manifest.dependencies)
}

fn for_development(alloc: Global, owner: Owner, manifest: &Manifest) -> Result<Dependencies, Memory>
    ensures { IfOk result (λ d. d ≡ but (names manifest.now.optional ++ names manifest.now.dependencies) (dev_of (owner_of owner) (said_of manifest.now))) }
{
    match owner {
        Owner::Project => without(
            alloc,
            &manifest.optional,
            &manifest.dependencies,
            &manifest.dev,
        ),
        Owner::Package => Ok(none(alloc)),
    }
}

/// The manifest without dependencies and peers under its own name, and without the peers that are dependencies of the
/// manifest `before`, which is the same before overrides.
pub fn dropped(alloc: Global, before: &Manifest, manifest: &Manifest) -> Result<Manifest, Memory>
    ensures { IfOk result (λ s. said_of s ≡ dropped (dependency_names (said_of before.now)) (said_of manifest.now)) }
{
    let own = &manifest.name;
    let dependencies = without_own(alloc, own, &manifest.dependencies)?;
    let dev = without_own(alloc, own, &manifest.dev)?;
    let optional = without_own(alloc, own, &manifest.optional)?;
    let peers = peers_left(alloc, own, before, &manifest.peers)?;
    let copy = manifest.copy(alloc)?;
    Ok(Manifest {
        dependencies,
        dev,
        optional,
        peers,
        ..copy
    })
}
