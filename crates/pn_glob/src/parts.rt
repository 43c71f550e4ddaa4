// The parts of a path, one after another.
ghost use Rattle.std.specs.Prelude.{◌≡◌, ◌++◌, ℕ, List, [], ◌∷◌, MatchOption};
ghost use Rattle.pn_glob.specs.Bytes.{parts};
ghost use Rattle.pn_glob.specs.WhatIsLeft.{left_of, parts_behind};

use crate::bytes::next;

/// The parts that are left: those of a text, or none.
#[derive(Clone, Copy)]
pub struct Parts<'a> {
    text: Option<&'a [u8]>,
}

// The text from its first slash on.
fn behind_part(text: &[u8]) -> &[u8]
    ensures { (front : List ℕ) × (text.now ≡ front ++ result.now) × (parts text.now ≡ front ∷ parts_behind result.now) }
{
    let mut rest = text;
    'bytes: while let Some((b, behind)) = next(rest) {
        if b == b'/' {
            break;
        }
        rest = behind;
    }
    rest
}

impl<'a> Parts<'a> {
    /// The parts of a text.
    pub(crate) fn of(text: &'a [u8]) -> Parts<'a>
        ensures { left_of result ≡ parts text.now }
    {
        Parts { text: Some(text) }
    }

    /// The first part and those behind it.
    pub(crate) fn next(self) -> Option<(&'a [u8], Parts<'a>)>
        ensures { MatchOption result (left_of self.entry ≡ []) (λ r. left_of self.entry ≡ r.0.now ∷ left_of r.1) }
    {
        let text = self.text?;
        let rest = behind_part(text);
        let part = text.split_at(text.len() - rest.len()).0;
        let others = match next(rest) {
            Some((_, behind)) => Some(behind),
            None => None,
        };
        Some((part, Parts { text: others }))
    }
}
