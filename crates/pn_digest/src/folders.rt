// The folders above files.
ghost use Rattle.std.specs.Prelude.{◌≡◌, ◌↔◌, ◌⊎◌, ◌||◌, ℕ, List, IfOk, OnOk, IsTrue};
ghost use Rattle.std.specs.Str.{bytes_eq};
ghost use Rattle.std.specs.BTreeSet.{contains_text};
ghost use Rattle.pn_digest.specs.Folders.{HasFolders, IsFolderText};

use crate::digest::Digest;
use crate::files::text_of;
use pn_text::{Memory, RelPath};
use std::alloc::Global;
use std::collections::BTreeSet;

/// The paths of all the folders above these files.
pub fn folders(alloc: Global, files: &[(RelPath, Digest)]) -> Result<BTreeSet<String>, Memory>
    ensures { IfOk result (λ folders. HasFolders files.now (contains_text folders)) }
{
    let mut folders = BTreeSet::new(alloc);
    for file in files {
        add_folders(alloc, &mut folders, text_of(file))?;
    }
    Ok(folders)
}

// Adds the folders above a path.
fn add_folders(alloc: Global, folders: &mut BTreeSet<String>, path: &str) -> Result<(), Memory>
    ensures { OnOk result ((t : List ℕ) → IsTrue (contains_text folders.new t) ↔ (IsTrue (contains_text folders.old t) ⊎ IsFolderText path.now t)) }
{
    for (i, b) in path.as_bytes().iter().enumerate() {
        if *b == b'/' {
            add(alloc, folders, &path[..i])?;
        }
    }
    Ok(())
}

fn add(alloc: Global, texts: &mut BTreeSet<String>, text: &str) -> Result<(), Memory>
    ensures { OnOk result ((t : List ℕ) → contains_text texts.new t ≡ (bytes_eq text.now t || contains_text texts.old t)) }
{
    if !texts.contains(text) {
        texts.insert(String::from_str(alloc, text)?)?;
    }
    Ok(())
}
