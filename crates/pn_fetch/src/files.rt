// The files of one package, put into the store.
ghost use Rattle.std.specs.Prelude.{◌≡◌, ◌≤◌, ◌*◌, ◌++◌, ◌∷◌, [], IfOk, IfErr, IfSome, OnOk, length, map};
ghost use Rattle.std.specs.List.{All, Contains};
ghost use Rattle.std.specs.Option.{ForSome};
ghost use Rattle.pn_text.specs.declared.limits.TheConstants.{PATH_LIMIT};
ghost use Rattle.pn_text.specs.Path.{path_text};
ghost use Rattle.pn_fs.specs.Tree.{IsFile};
ghost use Rattle.pn_fs.specs.Seen.{GaveAtMost};
ghost use Rattle.pn_package.specs.Sound.{FilesStand};
ghost use Rattle.pn_store.specs.Held.{IsHeld};
ghost use Rattle.pn_fetch.specs.Faults.{PlacesRefused};
ghost use Rattle.pn_fetch.specs.Listings.{CanList, IsFilePut, path_of};
ghost use Rattle.pn_fetch.specs.Puts.{WasPut, bytes_at, places_of};
ghost use Rattle.pn_fetch.specs.Steps.{Fetches};

use crate::fault::{FetchFault, of_put};
use pn_digest::Digest;
use pn_fs::ReadFs;
use pn_package::Package;
use pn_store::{Claim, put_file};
use pn_storecore::{StoreDisk, claims_law, grew_law, was_law};
use pn_text::{AbsPath, Memory, PathFault, RelPath};
use std::alloc::Global;

/// Puts the package's files, in their order, and answers each path with its file's digest.
pub fn put_files<D: StoreDisk, R: ReadFs>(
    alloc: Global,
    disk: &mut D,
    claim: &mut Claim,
    registry: &mut R,
    one: &Package,
) -> Result<Vec<(RelPath, Digest)>, FetchFault>
    requires held { IsHeld (D.seen disk.old) claim.old }
    requires stand { ForSome (R.seen registry.old).tree (λ t. FilesStand t (one.now ∷ [])) }
    requires sound { CanList one.now }
    ensures paths { IfOk result (λ v. map path_of v.items ≡ one.now.files.items) }
    ensures put { IfOk result (λ v. All (IsFilePut (R.seen registry.old).tree one.now.folder (D.seen disk.new)) v.items) }
    ensures claim { claim.new ≡ claim.old }
    ensures fetches { Fetches (one.now ∷ []) claim.old (R.seen registry.old) (R.seen registry.new) (D.seen disk.old) (D.seen disk.new) }
    ensures was { OnOk result (All (WasPut (R.seen registry.old).tree (D.seen disk.old) (D.seen disk.new)) (places_of one.now)) }
    ensures gave { IfSome (R.seen registry.old).tree (λ t. GaveAtMost (R.seen registry.old) (2 * bytes_at t (places_of one.now)) 0 (R.seen registry.new)) }
    ensures refused { IfErr result (PlacesRefused (places_of one.now) (R.seen registry.old) (R.seen registry.new) (D.seen disk.old) (D.seen disk.new)) }
{
    grew_law();
    claims_law();
    was_law();
    let mut all = Vec::new(alloc);
    let paths = one.files.as_slice();
    for path in paths {
        let digest = put_one(alloc, disk, claim, registry, one, path)?;
        add(alloc, &mut all, path, digest)?;
    }
    Ok(all)
}

// Puts one of the package's files.
fn put_one<D: StoreDisk, R: ReadFs>(
    alloc: Global,
    disk: &mut D,
    claim: &mut Claim,
    registry: &mut R,
    one: &Package,
    path: &RelPath,
) -> Result<Digest, FetchFault>
    requires held { IsHeld (D.seen disk.old) claim.old }
    requires among { Contains one.now.files.items path.now }
    requires stands { ForSome (R.seen registry.old).tree (λ t. IsFile t (path.now ++ one.now.folder)) }
    requires short { length (path_text (path.now ++ one.now.folder)) ≤ PATH_LIMIT }
    ensures put { IfOk result (λ digest. IsFilePut (R.seen registry.old).tree one.now.folder (D.seen disk.new) (path.now, digest)) }
    ensures claim { claim.new ≡ claim.old }
    ensures fetches { Fetches (one.now ∷ []) claim.old (R.seen registry.old) (R.seen registry.new) (D.seen disk.old) (D.seen disk.new) }
    ensures was { OnOk result (WasPut (R.seen registry.old).tree (D.seen disk.old) (D.seen disk.new) (path.now ++ one.now.folder)) }
    ensures gave { IfSome (R.seen registry.old).tree (λ t. GaveAtMost (R.seen registry.old) (2 * bytes_at t ((path.now ++ one.now.folder) ∷ [])) 0 (R.seen registry.new)) }
    ensures refused { IfErr result (PlacesRefused ((path.now ++ one.now.folder) ∷ []) (R.seen registry.old) (R.seen registry.new) (D.seen disk.old) (D.seen disk.new)) }
{
    grew_law();
    claims_law();
    was_law();
    let at = place(alloc, &one.folder, path)?;
    match put_file(alloc, disk, claim, registry, &at) {
        Ok(put) => Ok(put.digest),
        Err(fault) => Err(of_put(fault)),
    }
}

// Where a file of a package is in the registry.
fn place(alloc: Global, folder: &AbsPath, path: &RelPath) -> Result<AbsPath, Memory>
    requires { length (path_text (path.now ++ folder.now)) ≤ PATH_LIMIT }
    ensures { IfOk result (λ at. at ≡ path.now ++ folder.now) }
{
    match folder.join(alloc, path) {
        Ok(at) => Ok(at),
        Err(PathFault::Memory) => Err(Memory),
        Err(_) => unreachable!(),
    }
}

fn add(
    alloc: Global,
    all: &mut Vec<(RelPath, Digest)>,
    path: &RelPath,
    digest: Digest,
) -> Result<(), Memory>
    ensures { OnOk result (all.new.items ≡ all.old.items ++ (path.now, digest) ∷ []) }
{
    let path = path.copy(alloc)?;
    match all.push((path, digest)) {
        Ok(()) => Ok(()),
        Err(_) => Err(Memory),
    }
}
