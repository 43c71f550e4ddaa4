// What is planned for its own sake, added to a draft.
ghost use Rattle.std.specs.Prelude.{◌≡◌, ◌++◌, ◌∷◌, [], ℕ, List, IfOk, OnOk, map, true, IsTrue, string_bytes};
ghost use Rattle.std.specs.List.{flat_map};
ghost use Rattle.pn_text.specs.Path.{Path, is_part, SpellsAbs, SpellsParts};
ghost use Rattle.pn_text.specs.Name.{is_name, name_path, modules};
ghost use Rattle.pn_digest.specs.declared.planned.Planned.TheVariants as plan;
ghost use Rattle.pn_draft.specs.Drawing.{is_inside};
ghost use Rattle.pn_tree.specs.Trees.{home, beside};
ghost use Rattle.pn_tree.specs.Sound.{IsSoundInstance};
ghost use Rattle.pn_tree.specs.Relatives.{link_text};
ghost use Rattle.pn_tree.specs.Leaves.{marker_leaf, top_leaf, file_leaf, target_leaf, instance_leaves};
ghost use Rattle.pn_tree.specs.Drawn.{Draws};

use crate::instance::{Instance, Target, Top};
use crate::texts::{below, beside_text, link_text, place_text};
use pn_digest::{Digest, Planned};
use pn_draft::Draft;
use pn_text::{AbsPath, Memory, RelPath, Text};
use std::alloc::Global;

/// The marker of a managed folder.
pub fn add_marker(alloc: Global, draft: &mut Draft, one: &(AbsPath, Text)) -> Result<(), Memory>
    requires { is_inside draft.old.tops one.now.0 ≡ true }
    ensures { OnOk result (Draws draft.old draft.new (marker_leaf one.now ∷ [])) }
{
    let text = one.1.copy(alloc)?;
    add(draft, &one.0, ".pnpm-rs", Planned::Bytes(text))
}

/// A link outside the instances.
pub fn add_top(alloc: Global, draft: &mut Draft, one: &Top) -> Result<(), Memory>
    requires { is_inside draft.old.tops one.now.holder ≡ true }
    ensures { OnOk result (Draws draft.old draft.new (top_leaf one.now ∷ [])) }
{
    add_link(alloc, draft, &one.holder, one.name.as_str(), &one.to)
}

/// An instance with its files and links.
pub fn add_instance(
    alloc: Global,
    draft: &mut Draft,
    store: &AbsPath,
    one: &Instance,
) -> Result<(), Memory>
    requires inside { is_inside draft.old.tops store.now ≡ true }
    requires sound { IsSoundInstance one.now }
    ensures { OnOk result (Draws draft.old draft.new (instance_leaves store.now one.now)) }
{
    let beside = beside_text(alloc, one.dir.as_str())?;
    let home = below(alloc, beside.as_str(), one.name.as_str())?;
    add_home(draft, store, home.as_str(), one)?;
    add_files(alloc, draft, store, home.as_str(), one)?;
    add_targets(alloc, draft, store, beside.as_str(), one)
}

// The package folder.
fn add_home(draft: &mut Draft, store: &AbsPath, inner: &str, one: &Instance) -> Result<(), Memory>
    requires inside { is_inside draft.old.tops store.now ≡ true }
    requires home { SpellsParts inner.now (home [] one.now) }
    ensures { OnOk result (Draws draft.old draft.new ((home store.now one.now, plan.Folder) ∷ [])) }
{
    add(draft, store, inner, Planned::Folder)
}

fn add_files(
    alloc: Global,
    draft: &mut Draft,
    store: &AbsPath,
    inner: &str,
    one: &Instance,
) -> Result<(), Memory>
    requires inside { is_inside draft.old.tops store.now ≡ true }
    requires home { SpellsParts inner.now (home [] one.now) }
    ensures { OnOk result (Draws draft.old draft.new (map (file_leaf store.now one.now) one.now.files)) }
{
    for file in one.files.as_slice() {
        add_file(alloc, draft, store, inner, one, file)?;
    }
    Ok(())
}

fn add_file(
    alloc: Global,
    draft: &mut Draft,
    store: &AbsPath,
    inner: &str,
    one: &Instance,
    file: &(RelPath, Digest),
) -> Result<(), Memory>
    requires inside { is_inside draft.old.tops store.now ≡ true }
    requires home { SpellsParts inner.now (home [] one.now) }
    ensures { OnOk result (Draws draft.old draft.new (file_leaf store.now one.now file.now ∷ [])) }
{
    let tail = below(alloc, inner, file.0.as_str())?;
    add(draft, store, tail.as_str(), Planned::Stored(file.1.copy()))
}

fn add_targets(
    alloc: Global,
    draft: &mut Draft,
    store: &AbsPath,
    inner: &str,
    one: &Instance,
) -> Result<(), Memory>
    requires inside { is_inside draft.old.tops store.now ≡ true }
    requires beside { SpellsParts inner.now (beside [] one.now) }
    ensures { OnOk result (Draws draft.old draft.new (map (target_leaf store.now one.now) one.now.links)) }
{
    for target in one.links.as_slice() {
        add_target(alloc, draft, store, inner, one, target)?;
    }
    Ok(())
}

fn add_target(
    alloc: Global,
    draft: &mut Draft,
    store: &AbsPath,
    inner: &str,
    one: &Instance,
    target: &Target,
) -> Result<(), Memory>
    requires inside { is_inside draft.old.tops store.now ≡ true }
    requires beside { SpellsParts inner.now (beside [] one.now) }
    ensures { OnOk result (Draws draft.old draft.new (target_leaf store.now one.now target.now ∷ [])) }
{
    let tail = below(alloc, inner, target.name.as_str())?;
    add_link(alloc, draft, store, tail.as_str(), &target.to)
}

// A link below a folder.
fn add_link(
    alloc: Global,
    draft: &mut Draft,
    folder: &AbsPath,
    tail: &str,
    to: &AbsPath,
) -> Result<(), Memory>
    requires inside { is_inside draft.old.tops folder.now ≡ true }
    requires tail { (x : List ℕ) × (t : Path) × SpellsParts tail.now (x ∷ t) }
    ensures { OnOk result ((t : Path) → SpellsParts tail.now t → Draws draft.old draft.new ((t ++ folder.now, plan.Link (link_text (t ++ folder.now) to.now)) ∷ [])) }
{
    let place = place_text(alloc, folder, tail)?;
    let text = link_text(alloc, place.as_str(), to)?;
    add(draft, folder, tail, Planned::Link(text))
}

// One leaf, at its path below a folder.
fn add(draft: &mut Draft, folder: &AbsPath, tail: &str, what: Planned) -> Result<(), Memory>
    requires inside { is_inside draft.old.tops folder.now ≡ true }
    requires tail { (t : Path) × SpellsParts tail.now t }
    ensures { OnOk result ((t : Path) → SpellsParts tail.now t → Draws draft.old draft.new ((t ++ folder.now, what) ∷ [])) }
{
    draft.add(folder, tail, what)
}
