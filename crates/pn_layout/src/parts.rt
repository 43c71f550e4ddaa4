// The parts of a layout: its managed folder, its instances and the project's links. A link to a package folder whose path is
// too long leads to the managed folder: that package folder is planned too, so that the plan is refused.
ghost use Rattle.std.specs.Prelude.{◌≡◌, ◌++◌, ◌∷◌, [], IfOk, OnOk, map, zip};
ghost use Rattle.pn_digest.specs.Listing.{IsListing};
ghost use Rattle.pn_package.specs.Listed.{pair_of};
ghost use Rattle.pn_layout.specs.Layout.{marker_text};
ghost use Rattle.pn_layout.specs.Near.{near_home, target_to, instance_to, top_to};

use crate::homes::{dir_text, home};
use pn_digest::{Listing, ListingFault};
use pn_package::{Link, Package};
use pn_text::{AbsPath, Memory, Text};
use pn_tree::{Instance, Target, Targets, Top};
use std::alloc::Global;

/// The managed folder with its marker.
pub fn managed_of(alloc: Global, modules: &AbsPath) -> Result<Vec<(AbsPath, Text)>, Memory>
    ensures { IfOk result (λ v. v.items ≡ (modules.now, marker_text) ∷ []) }
{
    let marker = Text::of(alloc, "pnpm-rs 1\n")?;
    let mut all = Vec::new(alloc);
    let one = (modules.copy(alloc)?, marker);
    add(&mut all, one)?;
    Ok(all)
}

/// The packages with their listings.
pub fn instances_of(
    alloc: Global,
    modules: &AbsPath,
    packages: &[Package],
    listings: &[Listing],
) -> Result<Vec<Instance>, Memory>
    ensures { IfOk result (λ v. v.items ≡ map (instance_to (near_home modules.now)) (zip packages.now listings.now)) }
{
    let mut all = Vec::new(alloc);
    'packages: for (one, listing) in packages.iter().zip(listings) {
        let made = instance(alloc, modules, one, listing)?;
        add(&mut all, made)?;
    }
    Ok(all)
}

/// The links of the project.
pub fn tops_of(alloc: Global, modules: &AbsPath, direct: &[Link]) -> Result<Vec<Top>, Memory>
    ensures { IfOk result (λ v. v.items ≡ map (top_to (near_home modules.now) modules.now) (map pair_of direct.now)) }
{
    let mut all = Vec::new(alloc);
    'links: for link in direct {
        let one = top(alloc, modules, link)?;
        add(&mut all, one)?;
    }
    Ok(all)
}

fn top(alloc: Global, modules: &AbsPath, link: &Link) -> Result<Top, Memory>
    ensures { IfOk result (λ t. t ≡ top_to (near_home modules.now) modules.now (pair_of link.now)) }
{
    let holder = modules.copy(alloc)?;
    let name = link.alias.copy(alloc)?;
    let to = home(alloc, modules, &link.to)?;
    Ok(Top { holder, name, to })
}

// A package with its listing.
fn instance(
    alloc: Global,
    modules: &AbsPath,
    one: &Package,
    listing: &Listing,
) -> Result<Instance, Memory>
    ensures { IfOk result (λ g. g ≡ instance_to (near_home modules.now) (one.now, listing.now)) }
{
    let text = dir_text(alloc, &one.id)?;
    let dir = Text::of(alloc, text.as_str())?;
    let name = one.id.name().copy(alloc)?;
    let files = copied(alloc, listing)?;
    let links = Targets::of(targets_of(alloc, modules, one.links.as_slice())?);
    Ok(Instance {
        dir,
        name,
        files,
        links,
    })
}

fn targets_of(alloc: Global, modules: &AbsPath, links: &[Link]) -> Result<Vec<Target>, Memory>
    ensures { IfOk result (λ v. v.items ≡ map (target_to (near_home modules.now)) (map pair_of links.now)) }
{
    let mut all = Vec::new(alloc);
    'links: for link in links {
        let one = target(alloc, modules, link)?;
        add(&mut all, one)?;
    }
    Ok(all)
}

fn target(alloc: Global, modules: &AbsPath, link: &Link) -> Result<Target, Memory>
    ensures { IfOk result (λ t. t ≡ target_to (near_home modules.now) (pair_of link.now)) }
{
    let name = link.alias.copy(alloc)?;
    let to = home(alloc, modules, &link.to)?;
    Ok(Target { name, to })
}

// An equal listing: the one that has its text. That its files make a listing is known from `as_slice`.
fn copied(alloc: Global, listing: &Listing) -> Result<Listing, Memory>
    ensures { IfOk result (λ l. l ≡ listing.now) }
{
    let _ = listing.as_slice();
    let text = listing.print(alloc)?;
    match Listing::read(alloc, text.as_slice()) {
        Ok(copy) => Ok(copy),
        Err(ListingFault::Memory) => Err(Memory),
        Err(ListingFault::NotListing) => unreachable!(),
        Err(ListingFault::BadPath(_)) => unreachable!(),
        Err(ListingFault::Twice(_)) => unreachable!(),
    }
}

fn add<T: Drop>(all: &mut Vec<T>, one: T) -> Result<(), Memory>
    ensures { OnOk result (all.new.items ≡ all.old.items ++ one ∷ []) }
{
    match all.push(one) {
        Ok(()) => Ok(()),
        Err(_) => Err(Memory),
    }
}
