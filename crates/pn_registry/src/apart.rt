// Files of which none lies above another one.
ghost use Rattle.std.specs.Prelude.{◌≡◌, ◌∷◌, IfOk, OnOk, List, map};
ghost use Rattle.std.specs.Bool.{MatchBool};
ghost use Rattle.std.specs.Cmp.Lexicographic.{slice_cmp};
ghost use Rattle.std.specs.Ordering.{nat_cmp};
ghost use Rattle.pn_registry.specs.Files.{File, IsRising, KeepsPaths};
ghost use Rattle.pn_registry.specs.Listed.{file_of, text_of};
ghost use Rattle.pn_registry.specs.Apart.{KeepsApart, TakesApart, HasAbove, HasText};

use crate::list::{Files, PackageFile, listed};
use crate::order::in_order;
use pn_text::Memory;
use std::alloc::Global;
use std::cmp::Ordering;

/// Puts files in order, each path once, and leaves out those below another one.
pub fn in_order_apart(alloc: Global, found: Vec<PackageFile>) -> Result<Files, Memory>
    ensures { IfOk result (λ kept. (list : List File) × KeepsPaths (map file_of found.items) list × KeepsApart list kept) }
{
    let files = in_order(found)?;
    apart(alloc, files)
}

// Leaves out the files that lie below another one.
fn apart(alloc: Global, files: Files) -> Result<Files, Memory>
    ensures { IfOk result (KeepsApart files) }
{
    let mut kept = Vec::new(alloc);
    for file in files.into_items() {
        keep(&mut kept, file)?;
    }
    Ok(listed(kept))
}

fn keep(kept: &mut Vec<PackageFile>, file: PackageFile) -> Result<(), Memory>
    requires { IsRising (map file_of kept.old.items) }
    ensures { OnOk result (TakesApart (map file_of kept.old.items) (map file_of kept.new.items) (file_of file)) }
{
    if has_above(kept.as_slice(), file.path.as_str().as_bytes()) {
        return Ok(());
    }
    kept.push(file)?;
    Ok(())
}

// Whether a front of the text before a slash is the path of one of the files.
fn has_above(files: &[PackageFile], text: &[u8]) -> bool
    requires { IsRising (map file_of files.now) }
    ensures { MatchBool result (HasAbove (map file_of files.now) text.now) (HasAbove (map file_of files.now) text.now → ⊥) }
{
    for (i, b) in text.iter().enumerate() {
        if *b == b'/' {
            let (front, _) = text.split_at(i);
            if stands(files, front) {
                return true;
            }
        }
    }
    false
}

fn stands(files: &[PackageFile], text: &[u8]) -> bool
    requires { IsRising (map file_of files.now) }
    ensures { MatchBool result (HasText (map file_of files.now) (47 ∷ text.now)) (HasText (map file_of files.now) (47 ∷ text.now) → ⊥) }
{
    files.binary_search_by(|file| place(file, text)).is_ok()
}

// Where a file's path stands to a text.
fn place(file: &PackageFile, text: &[u8]) -> Ordering
    ensures { result ≡ slice_cmp nat_cmp (text_of file.now) (47 ∷ text.now) }
{
    file.path.as_str().as_bytes().cmp(text)
}
