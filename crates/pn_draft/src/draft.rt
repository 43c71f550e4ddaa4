// A draft of a planned tree.
ghost use Rattle.std.specs.Prelude.{◌≡◌, ◌≤◌, ◌↔◌, ◌++◌, ◌∷◌, [], List, ℕ, true, Some, length, IfOk, IfErr, OnOk, OnErr, IsTrue, string_bytes};
ghost use Rattle.std.specs.List.{Contains};
ghost use Rattle.pn_text.specs.declared.limits.TheConstants.{PATH_LIMIT};
ghost use Rattle.pn_text.specs.Path.{Path, SpellsParts, is_path, path_text, text_below};
ghost use Rattle.pn_digest.specs.declared.planned.Planned.{Planned};
ghost use Rattle.pn_draft.specs.Drawing.{drawn, bare, is_inside, AreApart, with_leaf, IsPart};
ghost use Rattle.pn_draft.specs.Sheets.{sheet, IsBare};
ghost use Rattle.pn_draft.specs.Finished.{DraftRefused};

use crate::fault::DraftFault;
use crate::finish::entries_of;
use crate::marks::{draw, mark};
use pn_digest::{Planned, PlannedTree};
use pn_text::{AbsPath, Memory};
use std::alloc::Global;
use std::collections::BTreeMap;
use std::marker::Model;

/// What is planned at and below some folders: a drawing, which has the folder above each path that is drawn, up to one of
/// them.
#[derive(Drop)]
pub struct Draft {
    alloc: Global,
    tops: Vec<AbsPath>,
    marks: BTreeMap<String, Planned>,
}

impl Model for Draft {
    ghost use Rattle.pn_draft.specs.Drawing.{Drawing};
    ghost use Rattle.pn_draft.specs.Sheets.{sheet, texts, IsWhole};

    ghost Value = { Drawing };

    ghost view = { λ d. record { tops = d.tops.items; marks = texts d.marks.entries } };

    ghost invariant = { λ d. IsWhole d.tops.items (sheet d.marks) };
}

impl Draft {
    /// The folders alone.
    pub fn new(alloc: Global, tops: &[AbsPath]) -> Result<Draft, Memory>
        requires { AreApart tops.now }
        ensures tops { IfOk result (λ d. d.tops ≡ tops.now) }
        ensures drawn { IfOk result (λ d. (q : Path) → drawn d q ≡ bare tops.now q) }
    {
        let mut marks = BTreeMap::new(alloc);
        let own = mark_tops(alloc, &mut marks, tops)?;
        Ok(Draft {
            alloc,
            tops: own,
            marks,
        })
    }

    /// Plans what is to stand at a path below one of the folders, given as a folder at or below it
    /// and the parts from there on. Where nothing is drawn above it, a folder is. After a refusal
    /// some of these folders may be drawn.
    pub fn add(&mut self, folder: &AbsPath, tail: &str, what: Planned) -> Result<(), Memory>
        requires tail { (t : Path) × SpellsParts tail.now t }
        requires inside { is_inside self.old.tops folder.now ≡ true }
        ensures tops { self.new.tops ≡ self.old.tops }
        ensures ok { OnOk result ((t : Path) → SpellsParts tail.now t → (q : Path) → drawn self.new q ≡ with_leaf self.old.tops (drawn self.old) (t ++ folder.now) what q) }
        ensures err { OnErr result ((t : Path) → SpellsParts tail.now t → IsPart (drawn self.old) (with_leaf self.old.tops (drawn self.old) (t ++ folder.now) what) (drawn self.new)) }
    {
        let Ok(text) = text_at(self.alloc, folder, tail) else {
            return Err(Memory);
        };
        match draw(self.alloc, &mut self.marks, text.as_str(), what) {
            Ok(()) => Ok(()),
            Err(_) => Err(Memory),
        }
    }

    /// The planned tree, or the length of the first path in byte order whose text has more than
    /// 4,096 bytes.
    pub fn finish(self) -> Result<PlannedTree, DraftFault>
        ensures entries { IfOk result (λ tree. (q : Path) (w : Planned) → Contains tree (q, w) ↔ (drawn self q ≡ Some w)) }
        ensures short { OnOk result ((q : Path) (w : Planned) → drawn self q ≡ Some w → length (path_text q) ≤ PATH_LIMIT) }
        ensures fault { IfErr result (DraftRefused self) }
    {
        let entries = entries_of(self.alloc, self.marks)?;
        match PlannedTree::of(entries) {
            Some(tree) => Ok(tree),
            None => unreachable!(),
        }
    }
}

// Marks the folders, and gives copies of them.
fn mark_tops(
    alloc: Global,
    marks: &mut BTreeMap<String, Planned>,
    tops: &[AbsPath],
) -> Result<Vec<AbsPath>, Memory>
    requires { IsBare [] (sheet marks.old) }
    ensures items { IfOk result (λ all. all.items ≡ tops.now) }
    ensures bare { OnOk result (IsBare tops.now (sheet marks.new)) }
{
    let mut all = Vec::new(alloc);
    'tops: for top in tops {
        let own = mark_top(alloc, marks, top)?;
        keep(&mut all, own)?;
    }
    Ok(all)
}

// Marks one folder, and gives a copy of it.
fn mark_top(
    alloc: Global,
    marks: &mut BTreeMap<String, Planned>,
    top: &AbsPath,
) -> Result<AbsPath, Memory>
    ensures copy { IfOk result (λ own. own ≡ top.now) }
    ensures bare { OnOk result ((tops : List Path) → IsBare tops (sheet marks.old) → IsBare (tops ++ top.now ∷ []) (sheet marks.new)) }
{
    match mark(alloc, marks, top.stem(), Planned::Folder) {
        Ok(()) => top.copy(alloc),
        Err(_) => Err(Memory),
    }
}

fn keep(all: &mut Vec<AbsPath>, one: AbsPath) -> Result<(), Memory>
    ensures { OnOk result (all.new.items ≡ all.old.items ++ one ∷ []) }
{
    match all.push(one) {
        Ok(()) => Ok(()),
        Err(_) => Err(Memory),
    }
}

// A path's parts below a folder, each after a slash.
fn text_at(alloc: Global, folder: &AbsPath, tail: &str) -> Result<String, DraftFault>
    ensures text { IfOk result (λ text. string_bytes text ≡ text_below folder.now ++ 47 ∷ tail.now) }
    ensures good { IsTrue (is_path folder.now) }
{
    let mut text = String::from_str(alloc, folder.stem())?;
    text.push_str("/")?;
    text.push_str(tail)?;
    Ok(text)
}
