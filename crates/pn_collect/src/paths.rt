// The paths of a package's files.
ghost use Rattle.std.specs.Prelude.{◌≡◌, ◌≢◌, ◌++◌, ◌∷◌, [], IfOk, OnOk, map};
ghost use Rattle.std.specs.List.{All};
ghost use Rattle.pn_registry.specs.Files.{IsRising};
ghost use Rattle.pn_collect.specs.Outline.{IsBelow, path_of};

use pn_registry::Files;
use pn_text::{Memory, RelPath};
use std::alloc::Global;

/// The paths of files below a folder.
pub fn paths(alloc: Global, files: &Files) -> Result<Vec<RelPath>, Memory>
    ensures same { IfOk result (λ v. v.items ≡ map path_of files.now) }
    ensures below { IfOk result (λ v. All IsBelow v.items) }
    ensures rising { IsRising files.now }
{
    let mut all = Vec::new(alloc);
    for file in files.as_slice() {
        let path = copied(alloc, &file.path)?;
        add(&mut all, path)?;
    }
    Ok(all)
}

// The path once more.
fn copied(alloc: Global, path: &RelPath) -> Result<RelPath, Memory>
    ensures same { IfOk result (λ p. p ≡ path.now) }
    ensures below { path.now ≢ [] }
{
    let _ = path.as_str();
    path.copy(alloc)
}

fn add(all: &mut Vec<RelPath>, one: RelPath) -> Result<(), Memory>
    ensures { OnOk result (all.new.items ≡ all.old.items ++ one ∷ []) }
{
    match all.push(one) {
        Ok(()) => Ok(()),
        Err(_) => Err(Memory),
    }
}
