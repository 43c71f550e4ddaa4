// The package folders of snapshots.
ghost use Rattle.std.specs.Prelude.{◌≡◌, ◌++◌, ◌∷◌, IfOk, IsTrue, codes, map, string_bytes, true};
ghost use Rattle.pn_text.specs.Ids.{id_name, is_id};
ghost use Rattle.pn_text.specs.Path.{is_part, SpellsAbs};
ghost use Rattle.pn_deppath.specs.Folders.{folder_name};
ghost use Rattle.pn_deppath.specs.Paths.{id_part, is_dep_path};
ghost use Rattle.pn_lock.specs.Locks.{paths_of};
ghost use Rattle.pn_lock_layout.specs.Folders.{home_in, near_at, near_home};

use pn_deppath::{folder_names, split_path};
use pn_lock::{Lock, LockSnapshot};
use pn_text::{AbsPath, Memory, PATH_LIMIT, PathFault, PkgId, PkgName, Text};
use std::alloc::{AllocError, Global};

/// The names of the snapshots' folders in the virtual store.
pub fn dir_names(alloc: Global, lock: &Lock) -> Result<Vec<Text>, Memory>
    ensures { IfOk result (λ v. v.items ≡ map (folder_name (paths_of lock.now.snapshots)) (paths_of lock.now.snapshots)) }
{
    let paths = paths_of(alloc, lock.snapshots())?;
    folder_names(alloc, &paths)
}

fn paths_of(alloc: Global, snapshots: &[LockSnapshot]) -> Result<Vec<Text>, Memory>
    ensures { IfOk result (λ v. v.items ≡ paths_of snapshots.now) }
{
    let mut all = Vec::new(alloc);
    for snapshot in snapshots {
        all.push(snapshot.path.copy(alloc)?)?;
    }
    Ok(all)
}

/// The package folder of each snapshot, or the root in place of one whose path is too long.
pub fn homes_of(
    alloc: Global,
    lock: &Lock,
    root: &AbsPath,
    store: &AbsPath,
    dirs: &[Text],
) -> Result<Vec<AbsPath>, Memory>
    requires dirs { dirs.now ≡ map (folder_name (paths_of lock.now.snapshots)) (paths_of lock.now.snapshots) }
    ensures { IfOk result (λ v. v.items ≡ map (near_home (paths_of lock.now.snapshots) root.now store.now) (paths_of lock.now.snapshots)) }
{
    let mut all = Vec::new(alloc);
    for (n, snapshot) in lock.snapshots().iter().enumerate() {
        let one = home(alloc, root, store, snapshot.path.as_str(), dirs[n].as_str())?;
        all.push(one)?;
    }
    Ok(all)
}

fn home(
    alloc: Global,
    root: &AbsPath,
    store: &AbsPath,
    path: &str,
    dir: &str,
) -> Result<AbsPath, Memory>
    requires path { is_dep_path path.now ≡ true }
    requires dir { IsTrue (is_part dir.now) }
    ensures { IfOk result (λ p. p ≡ near_at root.now store.now dir.now path.now) }
{
    let text = home_text(alloc, store, path, dir)?;
    if text.len() > PATH_LIMIT {
        return root.copy(alloc);
    }
    match AbsPath::read(alloc, text.as_str()) {
        Ok(path) => Ok(path),
        Err(PathFault::Memory) => Err(Memory),
        Err(PathFault::Long) => unreachable!(),
        Err(PathFault::NotAbsolute) => unreachable!(),
        Err(PathFault::BadPart(_)) => unreachable!(),
    }
}

// The text of a package folder's path.
fn home_text(alloc: Global, store: &AbsPath, path: &str, dir: &str) -> Result<String, Memory>
    requires path { is_dep_path path.now ≡ true }
    requires dir { IsTrue (is_part dir.now) }
    ensures { IfOk result (λ t. SpellsAbs (string_bytes t) (home_in store.now dir.now path.now)) }
{
    let name = name_of(alloc, split_path(path).0)?;
    let text = way(alloc, store.stem(), dir, name.as_str())?;
    Ok(text)
}

fn way(alloc: Global, stem: &str, dir: &str, name: &str) -> Result<String, AllocError>
    ensures { IfOk result (λ t. string_bytes t ≡ stem.now ++ codes "/" ++ dir.now ++ codes "/node_modules/" ++ name.now) }
{
    let mut text = String::from_str(alloc, stem)?;
    text.push_str("/")?;
    text.push_str(dir)?;
    text.push_str("/node_modules/")?;
    text.push_str(name)?;
    Ok(text)
}

/// The name in an id.
pub fn name_of(alloc: Global, id: &str) -> Result<PkgName, Memory>
    requires { is_id id.now ≡ true }
    ensures { IfOk result (λ n. n ≡ id_name id.now) }
{
    match PkgId::read(alloc, id)? {
        Some(id) => id.name().copy(alloc),
        None => unreachable!(),
    }
}
