// The point of the virtual store's place.
ghost use Rattle.std.specs.Prelude.{◌≡◌, OnOk, IfErr};
ghost use Rattle.pn_cmd.specs.World.{World};
ghost use Rattle.pn_cmd.specs.Points.{Refuses};
ghost use Rattle.pn_cmd.specs.Known.{space_of};
ghost use Rattle.pn_cmd.specs.Stores.{Displaces, IsDefault, NoDefault};
ghost use Rattle.pn_workspace.specs.Workspaces.{Fits};

use crate::entry::entry;
use crate::workspace::not_yet;
use pn_status::{FileWhy, Status, Which};
use pn_text::{AbsPath, PATH_LIMIT, Text};
use pn_workspace::{StoreFault, Workspace, WorkspaceWhy, is_default_store, virtual_store};
use std::alloc::Global;

const KEY: &str = "virtualStoreDir";

/// Sees that the virtual store lies at its default place.
pub fn default_store(alloc: Global, place: &AbsPath, workspace: &Workspace) -> Result<(), Status>
    requires { Fits place.now }
    ensures passed { OnOk result (IsDefault (space_of place.now workspace.now)) }
    ensures refused { (w : World) → IfErr result (Refuses (NoDefault (space_of place.now workspace.now)) w w) }
{
    let projects = [place.copy(alloc)?];
    let store = match virtual_store(alloc, workspace, place, &projects) {
        Ok(store) => store,
        Err(StoreFault::Long) => return Err(Status::Limit(Which::Path, PATH_LIMIT as u64 + 1)),
        Err(StoreFault::Misplaced) => return Err(misplaced(alloc, place)),
        Err(StoreFault::Memory) => return Err(Status::Memory),
    };
    if is_default_store(alloc, place, &store)? {
        return Ok(());
    }
    Err(not_yet(alloc, KEY))
}

// The status where the virtual store may not lie where the setting leads.
fn misplaced(alloc: Global, place: &AbsPath) -> Status
    requires { Fits place.now }
    ensures { (workspace : Workspace) → Displaces (space_of place.now workspace) result }
{
    let Ok(path) = entry(alloc, place, "pnpm-workspace.yaml") else {
        return Status::Memory;
    };
    match (Text::of(alloc, path.as_str()), Text::of(alloc, KEY)) {
        (Ok(text), Ok(key)) => Status::Manifest(
            text,
            FileWhy::Workspace(WorkspaceWhy::BadKey(key)),
        ),
        _ => Status::Memory,
    }
}
