// Where a text leads from a folder.
ghost use Rattle.std.specs.Prelude.{◌≡◌, ◌≤◌, ◌<◌, ◌+◌, ◌^◌, ◌++◌, ◌∷◌, IfOk, IfErr, OnOk, IsTrue, MatchOption, length};
ghost use Rattle.pn_text.specs.Faults.{JoinFault};
ghost use Rattle.pn_text.specs.Path.{Path, is_flat, is_path, path_text, tail_of};
ghost use Rattle.pn_text.specs.Relative.{above};
ghost use Rattle.pn_config.specs.Folders.{led_by, resolved, start_of};
ghost use Rattle.pn_config.specs.Ways.{IsWay, PutsName, PutsPart};

use pn_text::{AbsPath, Memory, PathFault, Text};
use std::alloc::Global;

/// The folder that a text leads to from a root. Refuses with `Long` past 4,096 bytes.
pub(crate) fn resolve(alloc: Global, root: &AbsPath, text: &str) -> Result<AbsPath, PathFault>
    ensures ok { IfOk result (λ p. p ≡ resolved text.now root.now) }
    ensures fault { IfErr result (JoinFault (path_text (resolved text.now root.now))) }
{
    let start = start_of(alloc, root, text)?;
    let way = way_of(alloc, text)?;
    let base = climb(alloc, start, way.ups)?;
    descend(alloc, base, way.parts)
}

fn start_of(alloc: Global, root: &AbsPath, text: &str) -> Result<AbsPath, Memory>
    ensures { IfOk result (λ p. p ≡ start_of text.now root.now) }
{
    match text.as_bytes() {
        [b'/', ..] => AbsPath::root(alloc),
        _ => root.copy(alloc),
    }
}

/// Steps up, and then parts down, the last one first.
#[derive(Drop)]
pub(crate) struct Way {
    ups: u64,
    parts: Vec<Text>,
}

impl Way {
    // Puts a part before those that are there.
    fn put(&mut self, alloc: Global, part: &str) -> Result<(), Memory>
        requires flat { IsTrue (is_flat part.now) }
        requires few { self.old.ups + length part.now < 2 ^ 64 }
        ensures { OnOk result (PutsPart part.now self.old self.new) }
    {
        match part.as_bytes() {
            [] | [b'.'] => Ok(()),
            [b'.', b'.'] => {
                self.ups += 1;
                Ok(())
            }
            _ => self.put_name(alloc, part),
        }
    }

    // A step up takes the part before it away.
    fn put_name(&mut self, alloc: Global, part: &str) -> Result<(), Memory>
        ensures { OnOk result (PutsName part.now self.old self.new) }
    {
        if self.ups > 0 {
            self.ups -= 1;
            return Ok(());
        }
        self.parts.push(Text::of(alloc, part)?)?;
        Ok(())
    }
}

// What stands before the last slash, and behind it.
fn last_part(text: &str) -> Option<(&str, &str)>
    ensures { MatchOption result (IsTrue (is_flat text.now)) (λ cut. (text.now ≡ cut.0.now ++ 47 ∷ cut.1.now) × IsTrue (is_flat cut.1.now)) }
{
    text.rsplit_once('/')
}

fn way_of(alloc: Global, text: &str) -> Result<Way, Memory>
    ensures { IfOk result (IsWay (tail_of text.now)) }
{
    let mut way = Way {
        ups: 0,
        parts: Vec::new(alloc),
    };
    let mut front = text;
    'parts: while let Some((rest, part)) = last_part(front) {
        way.put(alloc, part)?;
        front = rest;
    }
    way.put(alloc, front)?;
    Ok(way)
}

// So many parents above a folder.
fn climb(alloc: Global, from: AbsPath, ups: u64) -> Result<AbsPath, Memory>
    ensures { IfOk result (λ p. p ≡ above ups from) }
{
    let mut at = from;
    for _ in 0..ups {
        let folder = at.parent(alloc)?;
        match folder {
            Some(parent) => at = parent,
            None => return Ok(at),
        }
    }
    Ok(at)
}

// The path below a folder by these parts.
fn descend(alloc: Global, from: AbsPath, parts: Vec<Text>) -> Result<AbsPath, PathFault>
    requires { IsTrue (is_path parts.items) }
    ensures ok { IfOk result (λ p. p ≡ parts.items ++ from) }
    ensures fault { IfErr result (JoinFault (path_text (parts.items ++ from))) }
{
    let mut left = parts;
    let mut at = from;
    'parts: while let Some(part) = left.pop() {
        at = at.child(alloc, part.as_str())?;
    }
    Ok(at)
}
