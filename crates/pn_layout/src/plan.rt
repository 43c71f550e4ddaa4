// The planned tree of an install.
ghost use Rattle.std.specs.Prelude.{◌≡◌, ◌<◌, IfOk, IfErr, OnOk, MatchOption, length};
ghost use Rattle.pn_text.specs.declared.limits.TheConstants.{PATH_LIMIT};
ghost use Rattle.pn_text.specs.Path.{path_text};
ghost use Rattle.pn_package.specs.Sound.{AreSound, AreSoundLinks, AreWhole};
ghost use Rattle.pn_tree.specs.Laws.{AreEntries};
ghost use Rattle.pn_tree.specs.Refusals.{LayoutRefused};
ghost use Rattle.pn_layout.specs.Store.{store_of};
ghost use Rattle.pn_layout.specs.Listed.{AreOfPackages};
ghost use Rattle.pn_layout.specs.Layout.{layout_of, Fits, IsClosed};

use crate::outer::refusal;
use crate::parts::{instances_of, managed_of, tops_of};
use pn_digest::{Listing, PlannedTree};
use pn_package::{Links, Package};
use pn_text::{AbsPath, Memory, PathFault};
use pn_tree::LayoutFault;
use std::alloc::Global;

/// Plans the `node_modules` of one project: its marker, its links, and the packages, each with the files of its listing, in
/// the virtual store. Refuses with `TooLong` where a planned path has more than 4,096 bytes, or with `Memory`.
pub fn layout(
    alloc: Global,
    modules: &AbsPath,
    direct: &Links,
    packages: &[Package],
    listings: &[Listing],
) -> Result<PlannedTree, LayoutFault>
    requires direct { AreSoundLinks direct.now }
    requires sound { AreSound packages.now }
    requires whole { AreWhole direct.now packages.now }
    requires listings { AreOfPackages packages.now listings.now }
    ensures entries { IfOk result (AreEntries (layout_of modules.now direct.now packages.now listings.now)) }
    ensures closed { IfOk result (IsClosed modules.now) }
    ensures short { OnOk result (Fits (layout_of modules.now direct.now packages.now listings.now)) }
    ensures refused { IfErr result (LayoutRefused (layout_of modules.now direct.now packages.now listings.now)) }
{
    match store_path(alloc, modules)? {
        Some(store) => layout_in(alloc, modules, &store, direct, packages, listings),
        None => Err(refusal(alloc, modules, direct, packages)),
    }
}

// The virtual store's path; none where it is too long.
fn store_path(alloc: Global, modules: &AbsPath) -> Result<Option<AbsPath>, Memory>
    ensures { IfOk result (λ found. MatchOption found (PATH_LIMIT < length (path_text (store_of modules.now))) (λ p. p ≡ store_of modules.now)) }
{
    match modules.child(alloc, ".pnpm") {
        Ok(store) => Ok(Some(store)),
        Err(PathFault::Long) => Ok(None),
        Err(PathFault::Memory) => Err(Memory),
        Err(PathFault::NotAbsolute) => unreachable!(),
        Err(PathFault::BadPart(_)) => unreachable!(),
    }
}

// The plan, where the virtual store has a path.
fn layout_in(
    alloc: Global,
    modules: &AbsPath,
    store: &AbsPath,
    direct: &Links,
    packages: &[Package],
    listings: &[Listing],
) -> Result<PlannedTree, LayoutFault>
    requires store { store.now ≡ store_of modules.now }
    requires direct { AreSoundLinks direct.now }
    requires sound { AreSound packages.now }
    requires whole { AreWhole direct.now packages.now }
    requires listings { AreOfPackages packages.now listings.now }
    ensures entries { IfOk result (AreEntries (layout_of modules.now direct.now packages.now listings.now)) }
    ensures short { OnOk result (Fits (layout_of modules.now direct.now packages.now listings.now)) }
    ensures refused { IfErr result (LayoutRefused (layout_of modules.now direct.now packages.now listings.now)) }
{
    let managed = managed_of(alloc, modules)?;
    let instances = instances_of(alloc, modules, packages, listings)?;
    let tops = tops_of(alloc, modules, direct.as_slice())?;
    pn_tree::layout(alloc, store, &managed, &instances, &tops)
}
