// The planned tree of a layout.
ghost use Rattle.std.specs.Prelude.{◌≡◌, ◌≤◌, IfOk, IfErr, OnOk, length, map};
ghost use Rattle.std.specs.List.{flat_map};
ghost use Rattle.pn_text.specs.declared.limits.TheConstants.{PATH_LIMIT};
ghost use Rattle.pn_text.specs.Path.{Path, path_text};
ghost use Rattle.pn_digest.specs.declared.planned.Planned.{Planned};
ghost use Rattle.pn_draft.specs.Drawing.{drawn, bare};
ghost use Rattle.pn_draft.specs.Entries.{drawing};
ghost use Rattle.pn_tree.specs.Trees.{laid, IsEntry};
ghost use Rattle.pn_tree.specs.Sound.{folders, IsSoundLayout};
ghost use Rattle.pn_tree.specs.Leaves.{leaves_of, marker_leaf, top_leaf, instance_leaves};
ghost use Rattle.pn_tree.specs.Drawn.{Draws};
ghost use Rattle.pn_tree.specs.Laws.{AreEntries};
ghost use Rattle.pn_tree.specs.Refusals.{LayoutRefused};

use crate::fault::LayoutFault;
use crate::instance::{Instance, Top};
use crate::leaves::{add_instance, add_marker, add_top};
use pn_digest::PlannedTree;
use pn_draft::{Draft, DraftFault};
use pn_text::{AbsPath, Memory, Text};
use std::alloc::Global;

/// Plans what is to stand at and below managed folders: their markers, the instances in the virtual store, and the links of
/// projects and of hoisting. Refuses with `TooLong` where a planned path has more than 4,096 bytes, or with `Memory`.
pub fn layout(
    alloc: Global,
    store: &AbsPath,
    managed: &[(AbsPath, Text)],
    instances: &[Instance],
    tops: &[Top],
) -> Result<PlannedTree, LayoutFault>
    requires { IsSoundLayout (laid store.now managed.now instances.now tops.now) }
    ensures entries { IfOk result (AreEntries (laid store.now managed.now instances.now tops.now)) }
    ensures short { OnOk result ((q : Path) (w : Planned) → IsEntry (laid store.now managed.now instances.now tops.now) q w → length (path_text q) ≤ PATH_LIMIT) }
    ensures refused { IfErr result (LayoutRefused (laid store.now managed.now instances.now tops.now)) }
{
    let draft = draft_of(alloc, store, managed, instances, tops)?;
    match draft.finish() {
        Ok(planned) => Ok(planned),
        Err(DraftFault::TooLong(size)) => Err(LayoutFault::TooLong(size)),
        Err(DraftFault::Memory) => Err(LayoutFault::Memory),
    }
}

// What is planned, with the folders between.
fn draft_of(
    alloc: Global,
    store: &AbsPath,
    managed: &[(AbsPath, Text)],
    instances: &[Instance],
    tops: &[Top],
) -> Result<Draft, Memory>
    requires { IsSoundLayout (laid store.now managed.now instances.now tops.now) }
    ensures { IfOk result (λ d. drawn d ≡ drawing (folders managed.now) (leaves_of (laid store.now managed.now instances.now tops.now))) }
{
    let folders = folders_of(alloc, managed)?;
    let mut draft = Draft::new(alloc, &folders)?;
    add_markers(alloc, &mut draft, managed)?;
    add_tops(alloc, &mut draft, store, managed, instances, tops)?;
    add_instances(alloc, &mut draft, store, managed, instances, tops)?;
    Ok(draft)
}

fn folders_of(alloc: Global, managed: &[(AbsPath, Text)]) -> Result<Vec<AbsPath>, Memory>
    ensures { IfOk result (λ v. v.items ≡ folders managed.now) }
{
    let mut all = Vec::new(alloc);
    for one in managed {
        let path = one.0.copy(alloc)?;
        if all.push(path).is_err() {
            return Err(Memory);
        }
    }
    Ok(all)
}

fn add_markers(alloc: Global, draft: &mut Draft, managed: &[(AbsPath, Text)]) -> Result<(), Memory>
    requires { draft.old.tops ≡ folders managed.now }
    ensures { OnOk result (Draws draft.old draft.new (map marker_leaf managed.now)) }
{
    for one in managed {
        add_marker(alloc, draft, one)?;
    }
    Ok(())
}

fn add_tops(
    alloc: Global,
    draft: &mut Draft,
    store: &AbsPath,
    managed: &[(AbsPath, Text)],
    instances: &[Instance],
    tops: &[Top],
) -> Result<(), Memory>
    requires folders { draft.old.tops ≡ folders managed.now }
    requires sound { IsSoundLayout (laid store.now managed.now instances.now tops.now) }
    ensures { OnOk result (Draws draft.old draft.new (map top_leaf tops.now)) }
{
    for one in tops {
        add_top(alloc, draft, one)?;
    }
    Ok(())
}

fn add_instances(
    alloc: Global,
    draft: &mut Draft,
    store: &AbsPath,
    managed: &[(AbsPath, Text)],
    instances: &[Instance],
    tops: &[Top],
) -> Result<(), Memory>
    requires folders { draft.old.tops ≡ folders managed.now }
    requires sound { IsSoundLayout (laid store.now managed.now instances.now tops.now) }
    ensures { OnOk result (Draws draft.old draft.new (flat_map (instance_leaves store.now) instances.now)) }
{
    for one in instances {
        add_instance(alloc, draft, store, one)?;
    }
    Ok(())
}
