// The point of the workspace.
ghost use Rattle.std.specs.Prelude.{◌≡◌, ◌⊎◌, ◌+◌, None, IfOk, IfErr, IfSome, OnOk, option_map};
ghost use Rattle.pn_text.specs.declared.limits.TheConstants.{TEXT_LIMIT};
ghost use Rattle.pn_text.specs.Path.{path_text};
ghost use Rattle.pn_fs.specs.Seen.{Seen, Taken, Keeps, GaveAtMost};
ghost use Rattle.pn_storecore.specs.Seen.{Seen as Stored};
ghost use Rattle.pn_cmd.specs.World.{world};
ghost use Rattle.pn_cmd.specs.Points.{Refuses};
ghost use Rattle.pn_cmd.specs.Spaces.{IsSpace, IsUnbuilt, NoSpace, space_status, unbuilt_key, unbuilt_space};
ghost use Rattle.pn_workspace.specs.declared.fault.WorkspaceFault.TheVariants.{Wrong as FaultWrong};

use pn_config::Config;
use pn_fs::ReadFs;
use pn_status::{FileWhy, Status, Which};
use pn_text::{AbsPath, Text};
use pn_workspace::{Workspace, WorkspaceFault, WorkspaceWhy, find};
use std::alloc::Global;

/// The workspace whose root is the folder.
pub fn workspace<P: ReadFs>(
    alloc: Global,
    place: &AbsPath,
    project: &mut P,
) -> Result<Workspace, Status>
    ensures found { IfOk result (IsSpace (P.seen project.old).tree place.now) }
    ensures refused { (registry : Seen) (store : Stored) (out : Taken) → IfErr result (Refuses (NoSpace place.now) (world (P.seen project.old) registry store out) (world (P.seen project.new) registry store out)) }
    ensures gave { IfSome (P.seen project.old).tree (λ t. GaveAtMost (P.seen project.old) (TEXT_LIMIT + 1) 0 (P.seen project.new)) }
    ensures kept { Keeps (P.seen project.old) (P.seen project.new) }
{
    match find(alloc, place, project) {
        Ok(workspace) => built(alloc, place, workspace),
        Err(fault) => Err(unfound(alloc, fault)),
    }
}

// The status where there is no workspace.
fn unfound(alloc: Global, fault: WorkspaceFault) -> Status
    ensures { (result ≡ space_status fault) ⊎ (result ≡ Status.Memory) }
{
    match fault {
        WorkspaceFault::Long(length) => Status::Limit(Which::Path, length),
        WorkspaceFault::TooLarge(length) => Status::Limit(Which::Text, length),
        WorkspaceFault::Wrong(path, why) => wrong(alloc, &path, why),
        WorkspaceFault::Fault => Status::ProjectFault,
        WorkspaceFault::Memory => Status::Memory,
    }
}

// The status for a wrong workspace file.
fn wrong(alloc: Global, path: &AbsPath, why: WorkspaceWhy) -> Status
    ensures { (result ≡ space_status (FaultWrong path.now why)) ⊎ (result ≡ Status.Memory) }
{
    match Text::of(alloc, path.as_str()) {
        Ok(text) => Status::Manifest(text, FileWhy::Workspace(why)),
        Err(_) => Status::Memory,
    }
}

// The workspace, where nothing of it isn't built yet.
fn built(alloc: Global, place: &AbsPath, workspace: Workspace) -> Result<Workspace, Status>
    ensures same { IfOk result (λ w. w ≡ workspace) }
    ensures built { OnOk result (unbuilt_space place.now workspace ≡ None) }
    ensures unbuilt { IfErr result (IsUnbuilt (unbuilt_space place.now workspace)) }
{
    if !workspace.root.is(place) {
        return Err(not_yet(alloc, workspace.root.as_str()));
    }
    if let Some(key) = unbuilt_key(&workspace.config) {
        return Err(not_yet(alloc, key));
    }
    Ok(workspace)
}

// The first setting that isn't built yet.
fn unbuilt_key(config: &Config) -> Option<&str>
    ensures { option_map (λ t. t.now) result ≡ unbuilt_key config.now }
{
    if !config.packages.is_empty() {
        return Some("packages");
    }
    if !config.catalogs.as_slice().is_empty() {
        return Some("catalogs");
    }
    if !config.overrides.as_slice().is_empty() {
        return Some("overrides");
    }
    None
}

/// The status for what isn't built yet.
pub fn not_yet(alloc: Global, text: &str) -> Status
    ensures { (result ≡ Status.NotYet text.now) ⊎ (result ≡ Status.Memory) }
{
    match Text::of(alloc, text) {
        Ok(text) => Status::NotYet(text),
        Err(_) => Status::Memory,
    }
}
