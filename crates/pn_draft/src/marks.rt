// What is drawn, under each path's parts after slashes; `/` has the empty text.
ghost use Rattle.std.specs.Prelude.{◌≡◌, ◌++◌, ◌∷◌, ◌<◌, ◌+◌, List, ℕ, IfOk, IfErr, OnOk, OnErr, IsTrue, length, map, drop, slice_index, Some, is_some, true};
ghost use Rattle.std.specs.List.{Contains};
ghost use Rattle.std.specs.Map.{update};
ghost use Rattle.std.specs.Str.{bytes_eq};
ghost use Rattle.pn_text.specs.Path.{Path, is_flat, is_path, text_below};
ghost use Rattle.pn_draft.specs.Drawing.{is_below};
ghost use Rattle.pn_draft.specs.Sheets.{sheet, with_folders, IsUnder, IsWhole, Climbs, Draws, DrawsPart};

use crate::fault::DraftFault;
use pn_digest::Planned;
use std::alloc::Global;
use std::collections::BTreeMap;

/// Marks a path, and the folders above it that are not marked.
pub fn draw(
    alloc: Global,
    marks: &mut BTreeMap<String, Planned>,
    text: &str,
    what: Planned,
) -> Result<(), DraftFault>
    requires { IsUnder (sheet marks.old) text.now }
    ensures ok { OnOk result ((tops : List Path) (m p : Path) → IsWhole tops (sheet marks.old) → Contains tops m → IsTrue (is_path p) → text.now ≡ text_below p → is_below m p ≡ true → Draws tops p what (sheet marks.old) (sheet marks.new)) }
    ensures err { OnErr result ((tops : List Path) (m p : Path) → IsWhole tops (sheet marks.old) → Contains tops m → IsTrue (is_path p) → text.now ≡ text_below p → is_below m p ≡ true → DrawsPart tops p what (sheet marks.old) (sheet marks.new)) }
    ensures memory { IfErr result (λ e. e ≡ DraftFault.Memory) }
{
    let folders = unmarked(alloc, marks, text)?;
    mark_folders(alloc, marks, folders)?;
    mark(alloc, marks, text, what)
}

/// Marks one text.
pub fn mark(
    alloc: Global,
    marks: &mut BTreeMap<String, Planned>,
    text: &str,
    what: Planned,
) -> Result<(), DraftFault>
    ensures ok { OnOk result ((cs : List ℕ) → sheet marks.new cs ≡ update bytes_eq (sheet marks.old) text.now (Some what) cs) }
    ensures err { OnErr result ((cs : List ℕ) → sheet marks.new cs ≡ sheet marks.old cs) }
    ensures memory { IfErr result (λ e. e ≡ DraftFault.Memory) }
{
    let key = String::from_str(alloc, text)?;
    marks.insert(key, what)?;
    Ok(())
}

// Marks folders at these texts, the last one first.
fn mark_folders(
    alloc: Global,
    marks: &mut BTreeMap<String, Planned>,
    mut folders: Vec<&str>,
) -> Result<(), DraftFault>
    ensures ok { OnOk result (sheet marks.new ≡ with_folders (sheet marks.old) (map (λ f. f.now) folders.entry.items)) }
    ensures err { OnErr result ((before : List (List ℕ)) × (after : List (List ℕ)) × (map (λ f. f.now) folders.entry.items ≡ before ++ after) × (sheet marks.new ≡ with_folders (sheet marks.old) after)) }
    ensures memory { IfErr result (λ e. e ≡ DraftFault.Memory) }
{
    'folders: while let Some(folder) = folders.pop() {
        mark(alloc, marks, folder, Planned::Folder)?;
    }
    Ok(())
}

// The folders above a path that are not marked, from below.
fn unmarked<'a>(
    alloc: Global,
    marks: &BTreeMap<String, Planned>,
    text: &'a str,
) -> Result<Vec<&'a str>, DraftFault>
    requires { IsUnder (sheet marks.now) text.now }
    ensures climbs { IfOk result (λ folders. (p : Path) → IsTrue (is_path p) → text.now ≡ text_below p → Climbs (sheet marks.now) p (map (λ f. f.now) folders.items)) }
    ensures memory { IfErr result (λ e. e ≡ DraftFault.Memory) }
{
    let mut folders = Vec::new(alloc);
    let mut folder = parent(text);
    'up: while !marks.contains_key(folder) {
        folders.push(folder)?;
        folder = parent(folder);
    }
    Ok(folders)
}

// The text of a path's folder.
fn parent(text: &str) -> &str
    requires { (x : List ℕ) × (p : Path) × IsTrue (is_path (x ∷ p)) × (text.now ≡ text_below (x ∷ p)) }
    ensures parent { (x : List ℕ) (p : Path) → IsTrue (is_path (x ∷ p)) → text.now ≡ text_below (x ∷ p) → result.now ≡ text_below p }
    ensures shorter { length result.now < length text.now }
{
    let at = last_slash(text.as_bytes());
    &text[..at]
}

// The last slash of a text that begins with one.
fn last_slash(text: &[u8]) -> usize
    requires { (rest : List ℕ) × (text.now ≡ 47 ∷ rest) }
    ensures within { result < length text.now }
    ensures slash { slice_index text.now result ≡ 47 }
    ensures flat { IsTrue (is_flat (drop (result + 1) text.now)) }
{
    let mut at = text.len() - 1;
    while text[at] != b'/' {
        at -= 1;
    }
    at
}
