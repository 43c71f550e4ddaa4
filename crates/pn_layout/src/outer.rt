// The refusal of a plan whose virtual store has too long a path. All that is planned below the store comes behind it, so the
// first long path is the store's or one outside it.
ghost use Rattle.std.specs.Prelude.{◌≡◌, ◌<◌, ◌++◌, ◌∷◌, [], List, IfOk, OnOk, map, length};
ghost use Rattle.pn_text.specs.declared.limits.TheConstants.{PATH_LIMIT};
ghost use Rattle.pn_text.specs.Path.{Path, path_text, SpellsParts};
ghost use Rattle.pn_digest.specs.Listing.{Entry};
ghost use Rattle.pn_draft.specs.Drawing.{drawn};
ghost use Rattle.pn_draft.specs.Entries.{drawing};
ghost use Rattle.pn_package.specs.Listed.{pair_of};
ghost use Rattle.pn_package.specs.Sound.{AreSound, AreSoundLinks};
ghost use Rattle.pn_tree.specs.Drawn.{Draws};
ghost use Rattle.pn_tree.specs.Refusals.{LayoutRefused};
ghost use Rattle.pn_layout.specs.Store.{store_of};
ghost use Rattle.pn_layout.specs.Listed.{AreOfPackages};
ghost use Rattle.pn_layout.specs.Layout.{layout_of};
ghost use Rattle.pn_layout.specs.Places.{folder_at, link_leaf, store_leaves, outer_leaves};

use pn_digest::Planned;
use pn_draft::{Draft, DraftFault};
use pn_package::{Link, Links, Package};
use pn_text::{AbsPath, Memory};
use pn_tree::LayoutFault;
use std::alloc::Global;

/// Why the layout isn't planned, where the virtual store's path is too long.
pub fn refusal(
    alloc: Global,
    modules: &AbsPath,
    direct: &Links,
    packages: &[Package],
) -> LayoutFault
    requires long { PATH_LIMIT < length (path_text (store_of modules.now)) }
    requires direct { AreSoundLinks direct.now }
    requires sound { AreSound packages.now }
    ensures { (listings : List (List Entry)) → AreOfPackages packages.now listings → LayoutRefused (layout_of modules.now direct.now packages.now listings) result }
{
    let Ok(draft) = outer(alloc, modules, direct.as_slice(), packages) else {
        return LayoutFault::Memory;
    };
    match draft.finish() {
        Ok(_) => unreachable!(),
        Err(DraftFault::TooLong(size)) => LayoutFault::TooLong(size),
        Err(DraftFault::Memory) => LayoutFault::Memory,
    }
}

// A draft with a folder at each place outside the instances.
fn outer(
    alloc: Global,
    modules: &AbsPath,
    direct: &[Link],
    packages: &[Package],
) -> Result<Draft, Memory>
    ensures { IfOk result (λ d. drawn d ≡ drawing (modules.now ∷ []) (outer_leaves modules.now (map pair_of direct.now) packages.now)) }
{
    let mut draft = bare(alloc, modules)?;
    add(&mut draft, modules, ".pnpm-rs")?;
    add_store(&mut draft, modules, packages)?;
    add_links(&mut draft, modules, direct)?;
    Ok(draft)
}

fn bare(alloc: Global, modules: &AbsPath) -> Result<Draft, Memory>
    ensures tops { IfOk result (λ d. d.tops ≡ modules.now ∷ []) }
    ensures drawn { IfOk result (λ d. drawn d ≡ drawing (modules.now ∷ []) []) }
{
    let mut folders = Vec::new(alloc);
    folders.push(modules.copy(alloc)?)?;
    Draft::new(alloc, &folders)
}

fn add_store(draft: &mut Draft, modules: &AbsPath, packages: &[Package]) -> Result<(), Memory>
    requires { draft.old.tops ≡ modules.now ∷ [] }
    ensures { OnOk result (Draws draft.old draft.new (store_leaves modules.now packages.now)) }
{
    match packages {
        [] => Ok(()),
        [_, ..] => add(draft, modules, ".pnpm"),
    }
}

fn add_links(draft: &mut Draft, modules: &AbsPath, direct: &[Link]) -> Result<(), Memory>
    requires { draft.old.tops ≡ modules.now ∷ [] }
    ensures { OnOk result (Draws draft.old draft.new (map (link_leaf modules.now) (map pair_of direct.now))) }
{
    for link in direct {
        add(draft, modules, link.alias.as_str())?;
    }
    Ok(())
}

// One folder.
fn add(draft: &mut Draft, modules: &AbsPath, tail: &str) -> Result<(), Memory>
    requires tops { draft.old.tops ≡ modules.now ∷ [] }
    requires tail { (t : Path) × SpellsParts tail.now t }
    ensures { OnOk result ((t : Path) → SpellsParts tail.now t → Draws draft.old draft.new (folder_at (t ++ modules.now) ∷ [])) }
{
    draft.add(modules, tail, Planned::Folder)
}
