// Relative paths between two absolute ones.
ghost use Rattle.std.specs.Prelude.{◌≡◌, ◌≤◌, IfOk, length, drop, string_bytes};
ghost use Rattle.pn_text.specs.Path.{Path, text_below, IsPartsEnd};
ghost use Rattle.pn_text.specs.Relative.{dots, slashes, IsSteps, IsRelative, IsFork, IsWay, RelativeLaw};

use crate::fault::Memory;
use crate::parts::first_part;
use crate::path::AbsPath;
use crate::text::Text;
use std::alloc::{AllocError, Global};

impl AbsPath {
    /// The relative path from the folder `from` to this path, up to the nearest folder above both and then down;
    /// `.` for equal paths.
    pub fn relative_to(&self, alloc: Global, from: &AbsPath) -> Result<Text, Memory>
        ensures { IfOk result (IsRelative from.now self.now) }
    {
        match way(alloc, from, self) {
            Ok(steps) => Text::of(alloc, behind_slash(steps.as_str())),
            Err(_) => Err(Memory),
        }
    }
}

/// A relative path leads from its folder to its end.
pub fn relative_law()
    ensures { RelativeLaw }
{}

// The steps from a folder to a path, each behind a slash.
fn way(alloc: Global, from: &AbsPath, to: &AbsPath) -> Result<String, AllocError>
    ensures { IfOk result (λ text. IsWay from.now to.now (string_bytes text)) }
{
    let at = fork(from, to);
    let mut text = steps_up(alloc, from.stem().as_bytes().split_at(at).1)?;
    text.push_str(rest_from(to.stem(), at))?;
    Ok(text)
}

// Where the texts of two paths part.
fn fork(from: &AbsPath, to: &AbsPath) -> usize
    ensures { IsFork from.now to.now result }
{
    let a = from.stem().as_bytes();
    let b = to.stem().as_bytes();
    let mut at = 0;
    'parts: loop {
        if at == a.len() || at == b.len() {
            return at;
        }
        let (x, _) = first_part(a.split_at(at + 1).1);
        let (y, _) = first_part(b.split_at(at + 1).1);
        if x != y {
            return at;
        }
        at += x.len() + 1;
    }
}

// A step up for each slash.
fn steps_up(alloc: Global, text: &[u8]) -> Result<String, AllocError>
    ensures { IfOk result (λ t. string_bytes t ≡ text_below (dots (slashes text.now))) }
{
    let mut steps = String::new(alloc);
    for b in text {
        if *b == b'/' {
            steps.push_str("/..")?;
        }
    }
    Ok(steps)
}

// A text from a slash or its end on.
fn rest_from(text: &str, at: usize) -> &str
    requires within { at ≤ length text.now }
    requires ends { IsPartsEnd (drop at text.now) }
    ensures { result.now ≡ drop at text.now }
{
    text.split_at(at).1
}

// Steps without the first slash, or `.` for none.
fn behind_slash(steps: &str) -> &str
    ensures { (p : Path) → steps.now ≡ text_below p → IsSteps p result.now }
{
    match steps.strip_prefix('/') {
        Some(text) => text,
        None => ".",
    }
}
