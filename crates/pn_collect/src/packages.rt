// The packages of an install.
ghost use Rattle.std.specs.Prelude.{◌≡◌, ◌++◌, ◌∷◌, [], IfOk, IfErr, OnOk, IfSome, map};
ghost use Rattle.std.specs.List.{All};
ghost use Rattle.pn_text.specs.First.{FirstFails};
ghost use Rattle.pn_fs.specs.Seen.{Keeps};
ghost use Rattle.pn_collect.specs.CollectFaults.{CollectRefuses, IsFirstRefused, NoFiles};
ghost use Rattle.pn_collect.specs.Outline.{direct_of, outline, dressed, bare_id, HasFiles, HasPassed, IsMade, IsSoundBare};
ghost use Rattle.pn_collect.specs.Packages.{ArePackages, AreShort, FoldersStand, HasPlace};

use crate::bare::{Bare, bare_by_id};
use crate::fault::CollectFault;
use crate::links::direct;
use crate::package::package;
use pn_fs::ReadFs;
use pn_graph::Plain;
use pn_package::{Links, Package};
use pn_text::Memory;
use std::alloc::Global;

/// What an install links and writes: the links of the root project, and the packages with their files in byte order of
/// the texts `name@version`.
#[derive(Drop)]
pub struct Collected {
    pub direct: Links,
    pub packages: Vec<Package>,
}

/// Finds the links and the packages of an install. The first package that has no files is the refusal: see `CollectFault`.
pub fn collect<R: ReadFs>(
    alloc: Global,
    registry: &mut R,
    plain: &Plain,
) -> Result<Collected, CollectFault>
    requires stand { FoldersStand (R.seen registry.old).tree plain.now }
    requires short { AreShort plain.now }
    ensures direct { IfOk result (λ c. c.direct ≡ direct_of plain.now) }
    ensures packages { IfOk result (λ c. ArePackages (R.seen registry.old).tree plain.now c.packages.items) }
    ensures kept { Keeps (R.seen registry.old) (R.seen registry.new) }
    ensures refused { IfErr result (CollectRefuses (IsFirstRefused plain.now) (R.seen registry.old) (R.seen registry.new)) }
{
    let direct = direct(alloc, plain)?;
    let bare = bare_by_id(alloc, plain)?;
    let packages = packages(alloc, registry, bare.as_slice())?;
    Ok(Collected { direct, packages })
}

// The packages in the order given.
fn packages<R: ReadFs>(
    alloc: Global,
    registry: &mut R,
    bare: &[Bare],
) -> Result<Vec<Package>, CollectFault>
    requires places { All (λ b. HasPlace (R.seen registry.old).tree b.id) bare.now }
    requires sound { All IsSoundBare bare.now }
    ensures outlines { IfOk result (λ v. map outline v.items ≡ map dressed bare.now) }
    ensures made { IfOk result (λ v. All IsMade v.items) }
    ensures files { IfSome (R.seen registry.old).tree (λ t. IfOk result (λ v. All (HasFiles t) v.items)) }
    ensures kept { Keeps (R.seen registry.old) (R.seen registry.new) }
    ensures refused { IfErr result (CollectRefuses (λ r. FirstFails (HasPassed r) (NoFiles r) (map bare_id bare.now)) (R.seen registry.old) (R.seen registry.new)) }
{
    let mut all = Vec::new(alloc);
    for one in bare {
        let package = package(alloc, registry, one)?;
        add(&mut all, package)?;
    }
    Ok(all)
}

fn add(all: &mut Vec<Package>, one: Package) -> Result<(), Memory>
    ensures { OnOk result (all.new.items ≡ all.old.items ++ one ∷ []) }
{
    match all.push(one) {
        Ok(()) => Ok(()),
        Err(_) => Err(Memory),
    }
}
