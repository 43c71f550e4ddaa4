// Planned trees, whose files stand in a store.
ghost use Rattle.std.specs.Prelude.{◌≡◌, MatchOption};
ghost use Rattle.std.specs.Bool.{MatchBool};
ghost use Rattle.std.specs.Ordering.{nat_cmp};
ghost use Rattle.std.specs.Cmp.Lexicographic.{slice_cmp};
ghost use Rattle.pn_text.specs.Path.{path_text};
ghost use Rattle.pn_digest.specs.PlannedTrees.{AreRising};

use crate::planned::Planned;
use pn_text::AbsPath;
use std::cmp::Ordering;
use std::marker::Model;

/// What is to stand at paths, in byte order of their texts, each path once. Contracts see the list of pairs.
#[derive(Drop)]
pub struct PlannedTree {
    entries: Vec<(AbsPath, Planned)>,
}

impl Model for PlannedTree {
    ghost use Rattle.std.specs.Prelude.{List};
    ghost use Rattle.pn_text.specs.Path.{Path};
    ghost use Rattle.pn_digest.specs.declared.planned.Planned.{Planned};
    ghost use Rattle.pn_digest.specs.PlannedTrees.{AreRising};

    ghost Value = { List (Path × Planned) };

    ghost view = { λ a. a.entries.items };

    ghost invariant = { λ a. AreRising a.entries.items };
}

impl PlannedTree {
    /// The tree of these entries; none where a path doesn't come behind the one before it in byte order.
    pub fn of(entries: Vec<(AbsPath, Planned)>) -> Option<PlannedTree>
        ensures { MatchOption result (AreRising entries.items → ⊥) (λ tree. (tree ≡ entries.items) × AreRising entries.items) }
    {
        if is_rising(entries.as_slice()) {
            Some(PlannedTree { entries })
        } else {
            None
        }
    }

    /// What is planned, in order.
    pub fn as_slice(&self) -> &[(AbsPath, Planned)]
        ensures entries { result.now ≡ self.now }
        ensures rising { AreRising self.now }
    {
        self.entries.as_slice()
    }
}

fn is_rising(entries: &[(AbsPath, Planned)]) -> bool
    ensures { MatchBool result (AreRising entries.now) (AreRising entries.now → ⊥) }
{
    entries.is_sorted_by(|a, b| by_path(a, b).is_lt())
}

// The byte order of the paths of two entries.
fn by_path(a: &(AbsPath, Planned), b: &(AbsPath, Planned)) -> Ordering
    ensures { result ≡ slice_cmp nat_cmp (path_text a.now.0) (path_text b.now.0) }
{
    a.0.as_str().cmp(b.0.as_str())
}
