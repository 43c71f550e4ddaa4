// Relative paths.
ghost use Rattle.std.specs.Prelude.{◌≡◌, ◌≤◌, IfOk, IfErr, OnOk, length};
ghost use Rattle.pn_text.specs.Path.{Path, SpellsParts};
ghost use Rattle.pn_text.specs.declared.limits.TheConstants.{PATH_LIMIT};
ghost use Rattle.pn_text.specs.Name.{holds_modules};
ghost use Rattle.pn_text.specs.Faults.{RelFault};

use crate::fault::{Memory, PathFault};
use crate::limits::PATH_LIMIT;
use crate::parts::{bad_part, holds_modules};
use std::alloc::Global;
use std::marker::Model;

/// A path below some folder: parts between slashes, at most 4,096 bytes. Contracts see its parts, the last one first.
#[derive(Drop)]
pub struct RelPath {
    text: String,
}

impl Model for RelPath {
    ghost use Rattle.std.specs.Prelude.{string_bytes};
    ghost use Rattle.pn_text.specs.Path.{Path, tail_of, IsRelText};

    ghost Value = { Path };

    ghost view = { λ a. tail_of (string_bytes a.text) };

    ghost invariant = { λ a. IsRelText (string_bytes a.text) };
}

impl RelPath {
    /// Reads parts between slashes. Refuses with `BadPart` where the first empty part, `.` or `..` begins, then with
    /// `Long` past 4,096 bytes, then with `Memory`.
    pub fn read(alloc: Global, text: &str) -> Result<RelPath, PathFault>
        ensures ok { IfOk result (λ p. SpellsParts text.now p) }
        ensures fault { IfErr result (λ e. RelFault text.now e) }
    {
        check_rel(text.as_bytes())?;
        match String::from_str(alloc, text) {
            Ok(text) => Ok(RelPath { text }),
            Err(_) => Err(PathFault::Memory),
        }
    }

    /// The path that a text without a fault spells.
    pub(crate) fn of_parts(alloc: Global, text: &str) -> Result<RelPath, Memory>
        requires good { (p : Path) × SpellsParts text.now p }
        requires short { length text.now ≤ PATH_LIMIT }
        ensures { IfOk result (λ p. SpellsParts text.now p) }
    {
        match String::from_str(alloc, text) {
            Ok(text) => Ok(RelPath { text }),
            Err(_) => Err(Memory),
        }
    }

    /// The text: no slash at either end.
    pub fn as_str(&self) -> &str
        ensures text { SpellsParts result.now self.now }
        ensures short { length result.now ≤ PATH_LIMIT }
    {
        self.text.as_str()
    }

    /// Whether a part of it is `node_modules`.
    pub fn has_modules(&self) -> bool
        ensures { result ≡ holds_modules self.now }
    {
        holds_modules(self.as_str().as_bytes())
    }

    /// An equal path.
    pub fn copy(&self, alloc: Global) -> Result<RelPath, Memory>
        ensures { IfOk result (λ p. p ≡ self.now) }
    {
        match String::from_str(alloc, self.text.as_str()) {
            Ok(text) => Ok(RelPath { text }),
            Err(_) => Err(Memory),
        }
    }
}

// What is wrong with a text as a relative path, memory aside.
fn check_rel(text: &[u8]) -> Result<(), PathFault>
    ensures ok { OnOk result ((p : Path) × SpellsParts text.now p × (length text.now ≤ PATH_LIMIT)) }
    ensures fault { IfErr result (λ e. RelFault text.now e) }
{
    if let Some(at) = bad_part(text) {
        return Err(PathFault::BadPart(at));
    }
    if text.len() > PATH_LIMIT {
        return Err(PathFault::Long);
    }
    Ok(())
}
