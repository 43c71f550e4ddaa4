// What is written, and what is reported of it.
ghost use Rattle.std.specs.Prelude.{◌≡◌, IfOk, IfErr, string_bytes};
ghost use Rattle.pn_manifest.specs.Said.{Said};
ghost use Rattle.pn_graph.specs.declared.plain.Plain.{Plain};
ghost use Rattle.pn_package.specs.Sound.{AreSound, AreSoundLinks, AreWhole};
ghost use Rattle.pn_layout.specs.Listed.{AreOfPackages};
ghost use Rattle.pn_collect.specs.Outline.{direct_of};
ghost use Rattle.pn_cmd.specs.World.{World};
ghost use Rattle.pn_cmd.specs.Points.{Refuses};
ghost use Rattle.pn_cmd.specs.Names.{modules_path};
ghost use Rattle.pn_cmd.specs.Known.{fetched_of};
ghost use Rattle.pn_cmd.specs.Plans.{TooLong, IsPlanned};
ghost use Rattle.pn_cmd.specs.Reports.{report_of};

use pn_digest::{Listing, PlannedTree};
use pn_layout::{LayoutFault, layout};
use pn_package::{Links, Package};
use pn_status::{Status, Which};
use pn_text::AbsPath;
use std::alloc::{AllocError, Global};

/// The tree that the packages make in the managed folder of `place`, where the project has these links.
pub fn plan(
    alloc: Global,
    place: &AbsPath,
    modules: &AbsPath,
    direct: &Links,
    packages: &[Package],
    listings: &[Listing],
) -> Result<PlannedTree, Status>
    requires modules { modules.now ≡ modules_path place.now }
    requires direct { AreSoundLinks direct.now }
    requires sound { AreSound packages.now }
    requires whole { AreWhole direct.now packages.now }
    requires listings { AreOfPackages packages.now listings.now }
    ensures planned { (said : Said) (plain : Plain) → direct.now ≡ direct_of plain → IfOk result (IsPlanned (fetched_of place.now said plain packages.now listings.now)) }
    ensures refused { (said : Said) (plain : Plain) (w : World) → direct.now ≡ direct_of plain → IfErr result (Refuses (TooLong (fetched_of place.now said plain packages.now listings.now)) w w) }
{
    match layout(alloc, modules, direct, packages, listings) {
        Ok(plan) => Ok(plan),
        Err(LayoutFault::TooLong(length)) => Err(Status::Limit(Which::Path, length)),
        Err(LayoutFault::Memory) => Err(Status::Memory),
    }
}

/// The report of that many packages.
pub fn report(alloc: Global, count: usize) -> Result<String, AllocError>
    ensures { IfOk result (λ s. string_bytes s ≡ report_of count) }
{
    let count = format!(in alloc; "{count}")?;
    let mut text = String::from_str(alloc, "projects 1\npackages ")?;
    text.push_str(count.as_str())?;
    text.push_str("\ninstances ")?;
    text.push_str(count.as_str())?;
    text.push_str("\n")?;
    Ok(text)
}
