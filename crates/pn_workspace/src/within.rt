// Where paths lie.
ghost use Rattle.std.specs.Prelude.{◌≡◌, ◌∷◌, IfOk, IsTrue, codes};
ghost use Rattle.pn_text.specs.Path.{same_path};
ghost use Rattle.pn_draft.specs.Drawing.{is_within};
ghost use Rattle.pn_workspace.specs.Stores.{default_store, is_named};

use pn_text::{AbsPath, Memory};
use std::alloc::Global;

/// Whether a path is at or below a folder.
pub(crate) fn is_within(alloc: Global, folder: &AbsPath, path: &AbsPath) -> Result<bool, Memory>
    ensures { IfOk result (λ b. b ≡ is_within folder.now path.now) }
{
    let mut at = path.copy(alloc)?;
    'folders: loop {
        if at.is(folder) {
            return Ok(true);
        }
        match at.parent(alloc)? {
            Some(above) => at = above,
            None => return Ok(false),
        }
    }
}

/// Whether a path is at or below the entry of that name in a folder.
pub(crate) fn is_within_entry(
    alloc: Global,
    folder: &AbsPath,
    name: &str,
    path: &AbsPath,
) -> Result<bool, Memory>
    ensures { IfOk result (λ b. b ≡ is_within (name.now ∷ folder.now) path.now) }
{
    let mut at = path.copy(alloc)?;
    'folders: loop {
        let Some(above) = at.parent(alloc)? else {
            return Ok(false);
        };
        if above.is(folder) && is_named(&at, name) {
            return Ok(true);
        }
        at = above;
    }
}

/// Whether a path is the entry of that name in a folder.
pub(crate) fn is_entry(
    alloc: Global,
    folder: &AbsPath,
    name: &str,
    path: &AbsPath,
) -> Result<bool, Memory>
    ensures { IfOk result (λ b. b ≡ same_path path.now (name.now ∷ folder.now)) }
{
    match path.parent(alloc)? {
        Some(above) => Ok(is_named(path, name) && above.is(folder)),
        None => Ok(false),
    }
}

/// Whether a path's last part is that name.
pub(crate) fn is_named(path: &AbsPath, name: &str) -> bool
    ensures { result ≡ is_named name.now path.now }
{
    match path.name() {
        Some(last) => last == name,
        None => false,
    }
}
