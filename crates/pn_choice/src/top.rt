// The plain graph of what projects ask for.
ghost use Rattle.std.specs.Prelude.{◌≡◌, ◌<◌, ◌^◌, [], IfOk, OnErr, IfErr, length, map};
ghost use Rattle.std.specs.List.{All};
ghost use Rattle.pn_fs.specs.Seen.{Keeps};
ghost use Rattle.pn_manifest.specs.Said.{AreRising};
ghost use Rattle.pn_graph.specs.declared.links.Package.{Package};
ghost use Rattle.pn_walk.specs.Calls.{at};
ghost use Rattle.pn_walk.specs.Graphs.{id_of};
ghost use Rattle.pn_walk.specs.Reads.{HasRead};
ghost use Rattle.pn_walk.specs.Starts.{turns_from};
ghost use Rattle.pn_walk.specs.Walks.{start, IsWalked};
ghost use Rattle.pn_shape.specs.Fits.{IsFit};
ghost use Rattle.pn_shape.specs.Shapes.{IsShape};
ghost use Rattle.pn_choice.specs.Cached.{AreShown};
ghost use Rattle.pn_choice.specs.Calls.{knows, IsAskedName, ReadsEach, ReadsFor, ReadsUntil};
ghost use Rattle.pn_choice.specs.Given.{asked_by, folder_of, IsRisingProject, inputs_by, first};
ghost use Rattle.pn_choice.specs.Graphs.{IsGraphOf};
ghost use Rattle.pn_choice.specs.Refusals.{Refuses, Unplain, choice_of};
ghost use Rattle.pn_choice.specs.Shows.{IsNodeOf};
ghost use Rattle.pn_choice.specs.Ways.{LeadsBy};

use crate::face::asks;
use crate::fault::ChoiceFault;
use crate::project::ProjectAt;
use crate::sources::Sources;
use crate::way::WayFault;
use pn_fs::ReadFs;
use pn_graph::Plain;
use pn_shape::plain_of;
use pn_text::{Edge, Memory, ProjIx, Text};
use pn_walk::{Queue, WalkFault, walked};
use std::alloc::Global;

/// The plain graph of what projects ask for, in byte order of their folders. With `auto_peers` the peers that a project
/// requires count as its dependencies. Edges are taken in order, those of the projects first, and then those of each package
/// in the order in which the packages are met. The first edge that can't be taken is the refusal.
pub fn plain<R: ReadFs>(
    alloc: Global,
    sources: &mut Sources<'_, '_, '_, R>,
    projects: &[ProjectAt],
    root: ProjIx,
    auto_peers: bool,
) -> Result<Plain, ChoiceFault>
    requires good { AreShown (R.seen sources.old.registry.now).tree sources.old.shelves.now }
    requires folders { AreRising (map folder_of projects.now) }
    requires rising { All IsRisingProject projects.now }
    requires within { root.0 < length projects.now }
    requires few { length projects.now < 2 ^ 32 }
    ensures plain { IfOk result (IsGraphOf (R.seen sources.old.registry.now).tree (inputs_by projects.now sources.old.held.now auto_peers) root) }
    ensures refused { IfErr result (Refuses (λ r f. Unplain (inputs_by projects.now sources.old.held.now auto_peers) r f) (R.seen sources.old.registry.now) (R.seen sources.new.registry.now)) }
    ensures read { IfOk result (λ p. ReadsEach (knows sources.old.shelves.now) (knows sources.new.shelves.now) (R.seen sources.old.registry.now) (IsAskedName (R.seen sources.old.registry.now).tree projects.now sources.old.held.now auto_peers) (map (λ (q : Package). q.id) p.packages) (R.seen sources.new.registry.now)) }
    ensures once { OnErr result (ReadsUntil (knows sources.old.shelves.now) (knows sources.new.shelves.now) (R.seen sources.old.registry.now) (LeadsBy (R.seen sources.old.registry.now).tree sources.old.held.now) (IsNodeOf (R.seen sources.old.registry.now).tree) (turns_from 0 (map (asked_by auto_peers) projects.now)) (R.seen sources.new.registry.now)) }
    ensures kept { Keeps (R.seen sources.old.registry.now) (R.seen sources.new.registry.now) }
    ensures same_reference { sources.new.registry.ghost_name ≡ sources.old.registry.ghost_name }
    ensures held { sources.new.held.now ≡ sources.old.held.now }
    ensures good { AreShown (R.seen sources.new.registry.now).tree sources.new.shelves.now }
{
    let queue = walk(alloc, sources, projects, auto_peers)?;
    let plain = whole(alloc, projects, root, queue)?;
    Ok(plain)
}

// The walk along the edges of the projects, and of the packages as they are met.
fn walk<R: ReadFs>(
    alloc: Global,
    sources: &mut Sources<'_, '_, '_, R>,
    projects: &[ProjectAt],
    auto_peers: bool,
) -> Result<Queue, ChoiceFault>
    requires good { AreShown (R.seen sources.old.registry.now).tree sources.old.shelves.now }
    requires few { length projects.now < 2 ^ 32 }
    ensures walked { IfOk result (λ q. IsWalked (LeadsBy (R.seen sources.old.registry.now).tree sources.old.held.now) (IsNodeOf (R.seen sources.old.registry.now).tree) (first auto_peers projects.now) (at [] q)) }
    ensures refused { IfErr result (Refuses (λ r f. Unplain (inputs_by projects.now sources.old.held.now auto_peers) r f) (R.seen sources.old.registry.now) (R.seen sources.new.registry.now)) }
    ensures read { IfOk result (λ q. ReadsEach (knows sources.old.shelves.now) (knows sources.new.shelves.now) (R.seen sources.old.registry.now) (IsAskedName (R.seen sources.old.registry.now).tree projects.now sources.old.held.now auto_peers) (map id_of q.nodes.items) (R.seen sources.new.registry.now)) }
    ensures all { IfOk result (λ q. HasRead (ReadsFor (knows sources.old.shelves.now) (knows sources.new.shelves.now) (R.seen sources.old.registry.now) (R.seen sources.new.registry.now)) (start (turns_from 0 (map (asked_by auto_peers) projects.now))) (at [] q)) }
    ensures once { OnErr result (ReadsUntil (knows sources.old.shelves.now) (knows sources.new.shelves.now) (R.seen sources.old.registry.now) (LeadsBy (R.seen sources.old.registry.now).tree sources.old.held.now) (IsNodeOf (R.seen sources.old.registry.now).tree) (turns_from 0 (map (asked_by auto_peers) projects.now)) (R.seen sources.new.registry.now)) }
    ensures kept { Keeps (R.seen sources.old.registry.now) (R.seen sources.new.registry.now) }
    ensures same_reference { sources.new.registry.ghost_name ≡ sources.old.registry.ghost_name }
    ensures held { sources.new.held.now ≡ sources.old.held.now }
    ensures good { AreShown (R.seen sources.new.registry.now).tree sources.new.shelves.now }
{
    let asks = asks(alloc, projects, auto_peers)?;
    match walked(alloc, sources, asks.as_slice()) {
        Ok(queue) => Ok(queue),
        Err(fault) => Err(choice_fault(fault)),
    }
}

// The graph of a walk's end.
fn whole(alloc: Global, projects: &[ProjectAt], root: ProjIx, queue: Queue) -> Result<Plain, Memory>
    requires fit { IsFit (map folder_of projects.now) (at [] queue) }
    requires within { root.0 < length projects.now }
    ensures shape { IfOk result (λ p. IsShape (map folder_of projects.now) (at [] queue) p.projects p.packages) }
    ensures root { IfOk result (λ p. p.root ≡ root) }
{
    let folders = folders(alloc, projects)?;
    plain_of(alloc, root, folders, queue)
}

fn folders(alloc: Global, projects: &[ProjectAt]) -> Result<Vec<Text>, Memory>
    ensures { IfOk result (λ v. v.items ≡ map folder_of projects.now) }
{
    let mut all = Vec::new(alloc);
    for project in projects {
        all.push(project.folder.copy(alloc)?)?;
    }
    Ok(all)
}

// The refusal that a walk's is.
fn choice_fault(fault: WalkFault<WayFault>) -> ChoiceFault
    ensures { result ≡ choice_of fault }
{
    match fault {
        WalkFault::Ways(edge, why) => at_edge(edge, why),
        WalkFault::Packages(count) => ChoiceFault::Packages(count),
        WalkFault::Memory => ChoiceFault::Memory,
    }
}

fn at_edge(edge: Edge, why: WayFault) -> ChoiceFault
    ensures { result ≡ choice_of (WalkFault.Ways edge why) }
{
    match why {
        WayFault::Unsupported => ChoiceFault::Unsupported(edge),
        WayFault::Unbuilt => ChoiceFault::Unbuilt(edge),
        WayFault::NoVersion => ChoiceFault::NoVersion(edge),
        WayFault::Registry(lack) => ChoiceFault::Registry(lack),
        WayFault::Fault => ChoiceFault::Fault,
        WayFault::Memory => ChoiceFault::Memory,
    }
}
