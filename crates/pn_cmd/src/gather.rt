// The points that only read the trees.
ghost use Rattle.std.specs.Prelude.{◌≡◌, map, string_bytes, IfOk, IfErr};
ghost use Rattle.pn_fs.specs.Seen.{Taken, Keeps};
ghost use Rattle.pn_manifest.specs.Said.{Said, IsRisingSaid};
ghost use Rattle.pn_manifest.specs.Says.{said_of};
ghost use Rattle.pn_storecore.specs.Seen.{Seen as Stored};
ghost use Rattle.pn_cmd.specs.World.{inputs, trees, world};
ghost use Rattle.pn_cmd.specs.Names.{modules_path};
ghost use Rattle.pn_cmd.specs.Points.{Refuses};
ghost use Rattle.pn_cmd.specs.Known.{space_of, declared_of, project_of, graph_of};
ghost use Rattle.pn_collect.specs.Packages.{AreShort, FoldersStand};
ghost use Rattle.pn_workspace.specs.Workspaces.{Fits};
ghost use Rattle.pn_cmd.specs.Chain.{gathered, from_manifest, from_store, goal, tree};
ghost use Rattle.pn_cmd.specs.Readies.{IsGathered, IsSpaceReady, IsDeclaredReady, IsGoalReady, IsTreeReady};

use crate::graph::graph;
use crate::manifest::read_manifest;
use crate::packages::packages;
use crate::ready::{Gathered, Scanned};
use crate::scan::scanned;
use crate::standing::nothing_stands;
use crate::store::default_store;
use crate::words::is_install;
use crate::workspace::workspace;
use pn_collect::Collected;
use pn_fs::ReadFs;
use pn_graph::Plain;
use pn_manifest::Manifest;
use pn_status::Status;
use pn_text::AbsPath;
use pn_workspace::Workspace;
use std::alloc::Global;

/// Goes through the points in order, and answers the packages, with their files, and the project's links.
pub fn gather<P: ReadFs, R: ReadFs>(
    alloc: Global,
    words: &[String],
    place: &AbsPath,
    project: &mut P,
    registry: &mut R,
) -> Result<Gathered, Status>
    ensures modules { IfOk result (λ all. all.modules ≡ modules_path place.now) }
    ensures ready { IfOk result (IsGathered (inputs (map string_bytes words.now) place.now) (trees (P.seen project.old) (R.seen registry.old))) }
    ensures refused { (store : Stored) (out : Taken) → IfErr result (Refuses (gathered.Cause (inputs (map string_bytes words.now) place.now)) (world (P.seen project.old) (R.seen registry.old) store out) (world (P.seen project.new) (R.seen registry.new) store out)) }
    ensures project { Keeps (P.seen project.old) (P.seen project.new) }
    ensures registry { Keeps (R.seen registry.old) (R.seen registry.new) }
{
    if !is_install(words) {
        return Err(Status::Usage);
    }
    match workspace(alloc, place, project) {
        Ok(workspace) => gather_space(alloc, place, &workspace, project, registry),
        Err(status) => Err(status),
    }
}

// Goes through the points after the workspace's.
fn gather_space<P: ReadFs, R: ReadFs>(
    alloc: Global,
    place: &AbsPath,
    workspace: &Workspace,
    project: &mut P,
    registry: &mut R,
) -> Result<Gathered, Status>
    requires { Fits place.now }
    ensures modules { IfOk result (λ all. all.modules ≡ modules_path place.now) }
    ensures ready { IfOk result (IsSpaceReady place.now workspace.now (trees (P.seen project.old) (R.seen registry.old))) }
    ensures refused { (store : Stored) (out : Taken) → IfErr result (Refuses (from_manifest.Cause (space_of place.now workspace.now)) (world (P.seen project.old) (R.seen registry.old) store out) (world (P.seen project.new) (R.seen registry.new) store out)) }
    ensures project { Keeps (P.seen project.old) (P.seen project.new) }
    ensures registry { Keeps (R.seen registry.old) (R.seen registry.new) }
{
    match read_manifest(alloc, place, project) {
        Ok(manifest) => gather_declared(alloc, place, workspace, manifest, project, registry),
        Err(status) => Err(status),
    }
}

// Goes through the points after the manifest's.
fn gather_declared<P: ReadFs, R: ReadFs>(
    alloc: Global,
    place: &AbsPath,
    workspace: &Workspace,
    manifest: Manifest,
    project: &mut P,
    registry: &mut R,
) -> Result<Gathered, Status>
    requires fits { Fits place.now }
    requires rising { IsRisingSaid (said_of manifest) }
    ensures modules { IfOk result (λ all. all.modules ≡ modules_path place.now) }
    ensures ready { IfOk result (IsDeclaredReady place.now workspace.now (said_of manifest) (trees (P.seen project.old) (R.seen registry.old))) }
    ensures refused { (store : Stored) (out : Taken) → IfErr result (Refuses (from_store.Cause (declared_of place.now workspace.now (said_of manifest))) (world (P.seen project.old) (R.seen registry.old) store out) (world (P.seen project.new) (R.seen registry.new) store out)) }
    ensures project { Keeps (P.seen project.old) (P.seen project.new) }
    ensures registry { Keeps (R.seen registry.old) (R.seen registry.new) }
{
    match default_store(alloc, place, workspace) {
        Ok(()) => gather_goal(alloc, place, manifest, project, registry),
        Err(status) => Err(status),
    }
}

// Goes through the points after the virtual store's.
fn gather_goal<P: ReadFs, R: ReadFs>(
    alloc: Global,
    place: &AbsPath,
    manifest: Manifest,
    project: &mut P,
    registry: &mut R,
) -> Result<Gathered, Status>
    requires { IsRisingSaid (said_of manifest) }
    ensures modules { IfOk result (λ all. all.modules ≡ modules_path place.now) }
    ensures ready { IfOk result (IsGoalReady place.now (said_of manifest) (trees (P.seen project.old) (R.seen registry.old))) }
    ensures refused { (store : Stored) (out : Taken) → IfErr result (Refuses (goal.Cause (project_of place.now (said_of manifest))) (world (P.seen project.old) (R.seen registry.old) store out) (world (P.seen project.new) (R.seen registry.new) store out)) }
    ensures project { Keeps (P.seen project.old) (P.seen project.new) }
    ensures registry { Keeps (R.seen registry.old) (R.seen registry.new) }
{
    if let Err(status) = nothing_stands(alloc, place, "pnpm-lock.yaml", project) {
        return Err(status);
    }
    match graph(alloc, manifest, registry) {
        Ok(plain) => gather_tree(alloc, place, &plain, project, registry),
        Err(status) => Err(status),
    }
}

// Goes through the points after the plain graph's.
fn gather_tree<P: ReadFs, R: ReadFs>(
    alloc: Global,
    place: &AbsPath,
    plain: &Plain,
    project: &mut P,
    registry: &mut R,
) -> Result<Gathered, Status>
    requires stand { FoldersStand (R.seen registry.old).tree plain.now }
    requires short { AreShort plain.now }
    ensures modules { IfOk result (λ all. all.modules ≡ modules_path place.now) }
    ensures ready { (said : Said) → IfOk result (IsTreeReady place.now said plain.now (trees (P.seen project.old) (R.seen registry.old))) }
    ensures refused { (said : Said) (store : Stored) (out : Taken) → IfErr result (Refuses (tree.Cause (graph_of place.now said plain.now)) (world (P.seen project.old) (R.seen registry.old) store out) (world (P.seen project.new) (R.seen registry.new) store out)) }
    ensures project { Keeps (P.seen project.old) (P.seen project.new) }
    ensures registry { Keeps (R.seen registry.old) (R.seen registry.new) }
{
    let scanned = match scanned(alloc, place, project) {
        Ok(scanned) => scanned,
        Err(status) => return Err(status),
    };
    let collected = match packages(alloc, plain, registry) {
        Ok(collected) => collected,
        Err(status) => return Err(status),
    };
    let Scanned { modules, scan } = scanned;
    let Collected { direct, packages } = collected;
    Ok(Gathered {
        modules,
        scan,
        direct,
        packages,
    })
}
