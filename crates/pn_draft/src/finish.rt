// A draft's marks as a planned tree.
ghost use Rattle.std.specs.Prelude.{◌≡◌, ◌<◌, ◌≤◌, ℕ, List, IfOk, IfErr, OnOk, IsTrue, length, map, string_bytes};
ghost use Rattle.std.specs.Map.{keys_of};
ghost use Rattle.std.specs.List.Sorted.{IsStrictlySortedBy};
ghost use Rattle.std.specs.String.{string_cmp};
ghost use Rattle.pn_text.specs.declared.limits.TheConstants.{PATH_LIMIT};
ghost use Rattle.pn_text.specs.Path.{Path, SpellsAbs, is_path, text_below};
ghost use Rattle.pn_draft.specs.Sheets.{sheet, IsWhole};
ghost use Rattle.pn_draft.specs.Finished.{IsPathRefused, Finishes, FinishRefused};

use crate::fault::DraftFault;
use pn_digest::Planned;
use pn_text::{AbsPath, PathFault};
use std::alloc::Global;
use std::collections::BTreeMap;

/// The marks in order, each at its path.
pub fn entries_of(
    alloc: Global,
    marks: BTreeMap<String, Planned>,
) -> Result<Vec<(AbsPath, Planned)>, DraftFault>
    requires { (tops : List Path) × IsWhole tops (sheet marks) }
    ensures ok { IfOk result (λ entries. Finishes marks.entries entries.items) }
    ensures fault { IfErr result (FinishRefused marks.entries) }
    ensures ordered { IsStrictlySortedBy string_cmp (keys_of marks.entries) }
{
    let mut entries = Vec::with_capacity(alloc, marks.len())?;
    'marks: for (text, what) in marks {
        let path = path_of(alloc, text.as_str())?;
        entries.push((path, what))?;
    }
    Ok(entries)
}

// The path with these parts after slashes.
fn path_of(alloc: Global, text: &str) -> Result<AbsPath, DraftFault>
    requires { (q : Path) × IsTrue (is_path q) × (text.now ≡ text_below q) }
    ensures ok { IfOk result (λ p. text.now ≡ text_below p) }
    ensures good { IfOk result (λ p. IsTrue (is_path p)) }
    ensures short { OnOk result (length text.now ≤ PATH_LIMIT) }
    ensures fault { IfErr result (IsPathRefused text.now) }
{
    if text.is_empty() {
        return read(alloc, "/");
    }
    read(alloc, text)
}

// A path of this text, which is in the grammar.
fn read(alloc: Global, text: &str) -> Result<AbsPath, DraftFault>
    requires { (q : Path) × SpellsAbs text.now q }
    ensures ok { IfOk result (SpellsAbs text.now) }
    ensures short { OnOk result (length text.now ≤ PATH_LIMIT) }
    ensures fault { IfErr result (IsPathRefused text.now) }
{
    match AbsPath::read(alloc, text) {
        Ok(path) => Ok(path),
        Err(PathFault::Long) => Err(DraftFault::TooLong(text.len() as u64)),
        Err(PathFault::Memory) => Err(DraftFault::Memory),
        Err(PathFault::NotAbsolute) => unreachable!(),
        Err(PathFault::BadPart(_)) => unreachable!(),
    }
}
