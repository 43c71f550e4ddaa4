// Lists of patterns.
ghost use Rattle.std.specs.Prelude.{◌≡◌, ◌∷◌, [], map, MatchOption, IfOk, IfErr, OnOk};
ghost use Rattle.std.specs.List.{list_any};
ghost use Rattle.pn_glob.specs.ReadLists.{Added, IsBad, fault_of};
ghost use Rattle.pn_glob.specs.Lists.{AreNames, ArePaths, ReadAll, Refused, or_star};
ghost use Rattle.pn_glob.specs.Matching.{Patterns, fits, is_bare, list_matches};

use crate::bytes::bytes_match;
use crate::fault::{Bad, GlobFault, Stop};
use crate::kind::Kind;
use crate::paths::paths_match;
use crate::pattern::{is_negative, pattern_texts};
use pn_text::Text;
use std::alloc::Global;
use std::marker::Model;

/// Patterns, of which some are negative. Contracts see the texts without braces that they stand for.
#[derive(Drop)]
pub struct PatternList {
    kind: Kind,
    positive: Vec<Vec<u8>>,
    negative: Vec<Vec<u8>>,
}

impl Model for PatternList {
    ghost use Rattle.std.specs.Prelude.{map};
    ghost use Rattle.pn_glob.specs.Matching.{Patterns};

    ghost Value = { Patterns };

    ghost view = { λ a. record { kind = a.kind; positive = map (λ v. v.items) a.positive.items; negative = map (λ v. v.items) a.negative.items } };
}

// Adds the texts that a pattern stands for to one of the lists.
fn add(
    alloc: Global,
    kind: Kind,
    text: &[u8],
    positive: &mut Vec<Vec<u8>>,
    negative: &mut Vec<Vec<u8>>,
) -> Result<(), Bad>
    ensures ok { OnOk result (Added kind text.now (map (λ v. v.items) positive.old.items) (map (λ v. v.items) positive.new.items)
        (map (λ v. v.items) negative.old.items) (map (λ v. v.items) negative.new.items)) }
    ensures err { IfErr result (IsBad kind text.now) }
{
    let mut texts = pattern_texts(alloc, kind, text)?;
    let added = if is_negative(text) {
        negative.append(&mut texts)
    } else {
        positive.append(&mut texts)
    };
    added.map_err(|_| Bad::Memory)
}

fn fault_of(index: usize, bad: Bad) -> GlobFault
    ensures { result ≡ fault_of index bad }
{
    match bad {
        Bad::At(place) => GlobFault::BadByte(index, place),
        Bad::TooMany => GlobFault::TooMany,
        Bad::Memory => GlobFault::Memory,
    }
}

fn next_text(texts: &[Text]) -> Option<(&Text, &[Text])>
    ensures { MatchOption result (texts.now ≡ []) (λ r. texts.now ≡ r.0.now ∷ r.1.now) }
{
    texts.split_first()
}

// Adds the texts of all patterns.
fn add_all(
    alloc: Global,
    kind: Kind,
    texts: &[Text],
    positive: &mut Vec<Vec<u8>>,
    negative: &mut Vec<Vec<u8>>,
) -> Result<(), GlobFault>
    requires none { positive.old.items ≡ [] }
    requires none_negative { negative.old.items ≡ [] }
    ensures ok { OnOk result (ReadAll kind texts.now (map (λ v. v.items) positive.new.items) (map (λ v. v.items) negative.new.items)) }
    ensures err { IfErr result (Refused kind texts.now) }
{
    let mut index = 0;
    let mut left = texts;
    'texts: while let Some((text, rest)) = next_text(left) {
        if let Err(bad) = add(alloc, kind, text.as_str().as_bytes(), positive, negative) {
            return Err(fault_of(index, bad));
        }
        index += 1;
        left = rest;
    }
    Ok(())
}

// A list of negative patterns alone is one with `*` too.
fn add_star(alloc: Global, positive: &mut Vec<Vec<u8>>, negative: &[Vec<u8>]) -> Result<(), Stop>
    ensures ok { OnOk result (map (λ v. v.items) positive.new.items
        ≡ or_star (map (λ v. v.items) positive.old.items) (map (λ v. v.items) negative.now)) }
    ensures err { IfErr result (λ s. s ≡ Stop.Memory) }
{
    if positive.is_empty() && !negative.is_empty() {
        let mut star = Vec::new(alloc);
        star.push(b'*')?;
        positive.push(star)?;
    }
    Ok(())
}

fn fits(kind: Kind, pattern: &[u8], text: &[u8]) -> bool
    ensures { result ≡ fits kind pattern.now text.now }
{
    match kind {
        Kind::Names => bytes_match(kind, pattern, text),
        Kind::Paths => paths_match(pattern, text),
    }
}

fn some_fits(kind: Kind, patterns: &[Vec<u8>], text: &[u8]) -> bool
    ensures { result ≡ list_any (λ v. fits kind v.items text.now) patterns.now }
{
    patterns.iter().any(|pattern| fits(kind, pattern, text))
}

impl PatternList {
    /// A list of path patterns, which match whole relative folders. `BadByte` of the first pattern that is outside the
    /// grammar, `TooMany` where one stands for more than 64 texts before any fault of its own.
    pub fn paths(alloc: Global, texts: &[Text]) -> Result<PatternList, GlobFault>
        ensures ok { IfOk result (ArePaths texts.now) }
        ensures fault { IfErr result (Refused Kind.Paths texts.now) }
    {
        let mut positive = Vec::new(alloc);
        let mut negative = Vec::new(alloc);
        add_all(alloc, Kind::Paths, texts, &mut positive, &mut negative)?;
        Ok(PatternList {
            kind: Kind::Paths,
            positive,
            negative,
        })
    }

    /// A list of name patterns, which match whole names. `BadByte` of the first bracket.
    pub fn names(alloc: Global, texts: &[Text]) -> Result<PatternList, GlobFault>
        ensures ok { IfOk result (AreNames texts.now) }
        ensures fault { IfErr result (Refused Kind.Names texts.now) }
    {
        let mut positive = Vec::new(alloc);
        let mut negative = Vec::new(alloc);
        add_all(alloc, Kind::Names, texts, &mut positive, &mut negative)?;
        if add_star(alloc, &mut positive, &negative).is_err() {
            return Err(GlobFault::Memory);
        }
        Ok(PatternList {
            kind: Kind::Names,
            positive,
            negative,
        })
    }

    /// Whether there is no pattern.
    pub fn is_empty(&self) -> bool
        ensures { result ≡ is_bare self.now }
    {
        self.positive.is_empty() && self.negative.is_empty()
    }

    /// Whether some positive pattern matches a text and no negative one does. It takes no memory, and steps in
    /// proportion to the length of all patterns without braces times the text's.
    pub fn matches(&self, text: &str) -> bool
        ensures { result ≡ list_matches self.now text.now }
    {
        some_fits(self.kind, &self.positive, text.as_bytes())
            && !some_fits(self.kind, &self.negative, text.as_bytes())
    }
}
