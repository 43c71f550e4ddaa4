// The folders that links lead to: those of projects, and those of packages. A package folder whose path is too long is planned
// too, so that the plan is refused wherever its links lead: they lead to the root.
ghost use Rattle.std.specs.Prelude.{◌≡◌, ◌≤◌, ◌∷◌, ◌++◌, IfOk, get_or, length, map, true};
ghost use Rattle.pn_text.specs.declared.limits.TheConstants.{PATH_LIMIT};
ghost use Rattle.pn_text.specs.Name.{modules};
ghost use Rattle.pn_text.specs.Path.{path_text, tail_of};
ghost use Rattle.pn_deppath.specs.Folders.{folder_name};
ghost use Rattle.pn_lock.specs.Folders.{is_folder, is_rel};
ghost use Rattle.pn_lock.specs.Locks.{folders_of, paths_of};
ghost use Rattle.pn_lock_layout.specs.Folders.{found_folder, near_home};
ghost use Rattle.pn_lock_layout.specs.Placed.{HaveShort};
ghost use Rattle.pn_lock_layout.specs.Places.{folder_of, modules_of};

use crate::homes::homes_of;
use pn_lock::{Lock, LockGoal};
use pn_text::{AbsPath, Memory, PathFault, RelPath, Text};
use std::alloc::Global;

/// The root, the projects' folders and the snapshots' package folders, in the lock's order.
#[derive(Drop)]
pub struct Folders {
    pub root: AbsPath,
    pub importers: Vec<AbsPath>,
    pub snapshots: Vec<AbsPath>,
}

impl Folders {
    /// The folders of a lock, whose snapshots' folders have these names.
    pub fn of(
        alloc: Global,
        lock: &Lock,
        root: &AbsPath,
        store: &AbsPath,
        dirs: &[Text],
    ) -> Result<Folders, Memory>
        requires short { HaveShort root.now lock.now.importers }
        requires dirs { dirs.now ≡ map (folder_name (paths_of lock.now.snapshots)) (paths_of lock.now.snapshots) }
        ensures importers { IfOk result (λ f. f.importers.items ≡ map (folder_of root.now) (folders_of lock.now.importers)) }
        ensures snapshots { IfOk result (λ f. f.snapshots.items ≡ map (near_home (paths_of lock.now.snapshots) root.now store.now) (paths_of lock.now.snapshots)) }
    {
        let snapshots = homes_of(alloc, lock, root, store, dirs)?;
        let importers = importer_folders(alloc, root, lock)?;
        let root = root.copy(alloc)?;
        Ok(Folders {
            root,
            importers,
            snapshots,
        })
    }

    /// The folder of a project or a snapshot.
    pub fn folder(&self, alloc: Global, to: LockGoal) -> Result<AbsPath, Memory>
        ensures { IfOk result (λ p. p ≡ found_folder self.now to) }
    {
        match to {
            LockGoal::Importer(n) => path_at(alloc, &self.importers, n, &self.root),
            LockGoal::Snapshot(n) => path_at(alloc, &self.snapshots, n, &self.root),
        }
    }
}

fn path_at(alloc: Global, paths: &[AbsPath], n: u32, other: &AbsPath) -> Result<AbsPath, Memory>
    ensures { IfOk result (λ p. p ≡ get_or paths.now n other.now) }
{
    match paths.get(n as usize) {
        Some(path) => path.copy(alloc),
        None => other.copy(alloc),
    }
}

fn importer_folders(alloc: Global, root: &AbsPath, lock: &Lock) -> Result<Vec<AbsPath>, Memory>
    requires { HaveShort root.now lock.now.importers }
    ensures { IfOk result (λ v. v.items ≡ map (folder_of root.now) (folders_of lock.now.importers)) }
{
    let mut all = Vec::new(alloc);
    for importer in lock.importers() {
        let one = importer_folder(alloc, root, importer.folder.as_str())?;
        all.push(one)?;
    }
    Ok(all)
}

// The folder of a project.
fn importer_folder(alloc: Global, root: &AbsPath, text: &str) -> Result<AbsPath, Memory>
    requires folder { is_folder text.now ≡ true }
    requires short { length (path_text (modules_of root.now text.now)) ≤ PATH_LIMIT }
    ensures { IfOk result (λ p. p ≡ folder_of root.now text.now) }
{
    if text == "." {
        return root.copy(alloc);
    }
    below(alloc, root, text)
}

fn below(alloc: Global, root: &AbsPath, text: &str) -> Result<AbsPath, Memory>
    requires rel { is_rel text.now ≡ true }
    requires short { length (path_text (tail_of text.now ++ root.now)) ≤ PATH_LIMIT }
    ensures { IfOk result (λ p. p ≡ tail_of text.now ++ root.now) }
{
    match RelPath::read(alloc, text) {
        Ok(tail) => joined(alloc, root, &tail),
        Err(PathFault::Memory) => Err(Memory),
        Err(PathFault::NotAbsolute) => unreachable!(),
        Err(PathFault::BadPart(_)) => unreachable!(),
        Err(PathFault::Long) => unreachable!(),
    }
}

fn joined(alloc: Global, root: &AbsPath, tail: &RelPath) -> Result<AbsPath, Memory>
    requires { length (path_text (tail.now ++ root.now)) ≤ PATH_LIMIT }
    ensures { IfOk result (λ p. p ≡ tail.now ++ root.now) }
{
    match root.join(alloc, tail) {
        Ok(path) => Ok(path),
        Err(PathFault::Memory) => Err(Memory),
        Err(PathFault::NotAbsolute) => unreachable!(),
        Err(PathFault::BadPart(_)) => unreachable!(),
        Err(PathFault::Long) => unreachable!(),
    }
}

/// The `node_modules` of a project's folder.
pub fn modules_in(alloc: Global, folder: &AbsPath) -> Result<AbsPath, Memory>
    requires { length (path_text (modules ∷ folder.now)) ≤ PATH_LIMIT }
    ensures { IfOk result (λ p. p ≡ modules ∷ folder.now) }
{
    match folder.child(alloc, "node_modules") {
        Ok(path) => Ok(path),
        Err(PathFault::Memory) => Err(Memory),
        Err(PathFault::NotAbsolute) => unreachable!(),
        Err(PathFault::BadPart(_)) => unreachable!(),
        Err(PathFault::Long) => unreachable!(),
    }
}
