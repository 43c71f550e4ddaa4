// The texts of what dependencies lead to.
ghost use Rattle.std.specs.Prelude.{◌≡◌, IfOk, true};
ghost use Rattle.pn_deppath.specs.Paths.{is_dep_path};
ghost use Rattle.pn_lock.specs.Locks.{folders_of, key_at};
ghost use Rattle.pn_lock_print.specs.LockData.{goal_text};
ghost use Rattle.pn_lock_print.specs.TargetTexts.{path_text};

use crate::link::link_text;
use pn_lock::{Lock, LockGoal};
use pn_text::{Memory, PkgName, Text};
use sqlite_items::at;
use std::alloc::Global;

/// The text of a target, from a folder and under an alias.
pub(crate) fn goal_text(
    alloc: Global,
    lock: &Lock,
    base: &str,
    alias: &PkgName,
    to: LockGoal,
) -> Result<Text, Memory>
    ensures { IfOk result (λ text. text ≡ goal_text lock.now base.now alias.now to) }
{
    match to {
        LockGoal::Importer(n) => link_text(alloc, base, folder_at(lock, n)),
        LockGoal::Snapshot(n) => match at(lock.snapshots(), n as usize) {
            Some(snapshot) => Text::of(alloc, path_text(alias, snapshot.path.as_str())),
            None => Text::of(alloc, ""),
        },
    }
}

// The folder of the project at a place. The empty text is never printed: a lock's targets are there.
fn folder_at(lock: &Lock, n: u32) -> &str
    ensures { result.now ≡ key_at (folders_of lock.now.importers) n }
{
    match at(lock.importers(), n as usize) {
        Some(importer) => importer.folder.as_str(),
        None => "",
    }
}

// A dep path as it stands under an alias: without its name where that is the alias.
fn path_text<'a>(alias: &PkgName, path: &'a str) -> &'a str
    requires { is_dep_path path.now ≡ true }
    ensures { result.now ≡ path_text alias.now path.now }
{
    let Some(rest) = path.strip_prefix(alias.as_str()) else {
        return path;
    };
    match rest.strip_prefix('@') {
        Some(version) => version,
        None => path,
    }
}
