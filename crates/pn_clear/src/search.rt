// Entries in byte order, found by their paths.
ghost use Rattle.std.specs.Prelude.{◌≡◌, MatchOption};
ghost use Rattle.std.specs.List.{Contains};
ghost use Rattle.std.specs.Cmp.Lexicographic.{slice_cmp};
ghost use Rattle.std.specs.Ordering.{nat_cmp};
ghost use Rattle.pn_text.specs.Path.{Path, path_text, SpellsAbs};
ghost use Rattle.pn_clear.specs.Items.{Rises};

use pn_text::AbsPath;
use std::cmp::Ordering;

/// The entry whose path has this text.
pub fn find<'a, T>(list: &'a [(AbsPath, T)], text: &str) -> Option<&'a (AbsPath, T)>
    requires rising { Rises list.now }
    ensures { MatchOption result ((e : Path × T) → Contains list.now e → path_text e.0 ≡ text.now → ⊥) (λ e. Contains list.now e.now × SpellsAbs text.now e.now.0) }
{
    match list.binary_search_by(|entry| place(&entry.0, text)) {
        Ok(at) => {
            let entry = &list[at];
            let _spelled = entry.0.as_str();
            Some(entry)
        }
        Err(_) => None,
    }
}

// Where a path stands to a text.
fn place(path: &AbsPath, text: &str) -> Ordering
    ensures { result ≡ slice_cmp nat_cmp (path_text path.now) text.now }
{
    path.as_str().cmp(text)
}
