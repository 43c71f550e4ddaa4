// Reading of path patterns: the texts without braces that they stand for.
ghost use Rattle.std.specs.Prelude.{◌≡◌, ◌++◌, ◌∷◌, ◌<◌, ◌≤◌, [], length, map, IfOk, IfErr, OnOk, true, false};
ghost use Rattle.pn_glob.specs.Bytes.{is_bracket};
ghost use Rattle.pn_glob.specs.Grammar.{Spells, each_with, is_inner, is_plain};
ghost use Rattle.pn_glob.specs.Reading.{ChoiceAt, FrontOf, Grown, NoChoice, Stops, StopsIn, starts_with};

use crate::bytes::next;
use crate::fault::Stop;
use std::alloc::Global;

pub(crate) fn is_bracket(b: u8) -> bool
    ensures { result ≡ is_bracket b }
{
    b == b'[' || b == b']' || b == b'(' || b == b')' || b == b'{' || b == b'}'
}

fn is_inner(b: u8) -> bool
    ensures { result ≡ is_inner b }
{
    !is_bracket(b) && b != b','
}

// What is behind the bytes of a choice.
fn behind_choice(text: &[u8]) -> &[u8]
    ensures { FrontOf is_inner text.now result.now }
{
    let mut rest = text;
    'bytes: while let Some((b, behind)) = next(rest) {
        if !is_inner(b) {
            break;
        }
        rest = behind;
    }
    rest
}

/// What is behind the bytes that are no brackets.
pub(crate) fn behind_plain(text: &[u8]) -> &[u8]
    ensures { FrontOf is_plain text.now result.now }
{
    let mut rest = text;
    'bytes: while let Some((b, behind)) = next(rest) {
        if is_bracket(b) {
            break;
        }
        rest = behind;
    }
    rest
}

// The choice at the front, the byte that ends it, and what is behind that.
fn choice(text: &[u8]) -> Result<(&[u8], u8, &[u8]), Stop>
    ensures ok { IfOk result (λ r. ChoiceAt text.now r.0.now r.1 r.2.now) }
    ensures err { IfErr result (NoChoice text.now) }
{
    let rest = behind_choice(text);
    let Some((b, behind)) = next(rest) else {
        return Err(Stop::End);
    };
    if b != b',' && b != b'}' {
        return Err(Stop::Byte(rest.len()));
    }
    Ok((text.split_at(text.len() - rest.len()).0, b, behind))
}

fn joined(alloc: Global, text: &[u8], more: &[u8]) -> Result<Vec<u8>, Stop>
    ensures ok { IfOk result (λ v. v.items ≡ text.now ++ more.now) }
    ensures err { IfErr result (λ s. s ≡ Stop.Memory) }
{
    let mut whole = Vec::new(alloc);
    whole.extend_from_slice(text)?;
    whole.extend_from_slice(more)?;
    Ok(whole)
}

// Adds each of the texts with more behind it.
fn push_each(
    alloc: Global,
    texts: &[Vec<u8>],
    more: &[u8],
    grown: &mut Vec<Vec<u8>>,
) -> Result<(), Stop>
    ensures ok { OnOk result (map (λ v. v.items) grown.new.items
        ≡ map (λ v. v.items) grown.old.items ++ each_with (map (λ v. v.items) texts.now) more.now) }
    ensures err { IfErr result (λ s. s ≡ Stop.Memory) }
{
    let mut left = texts;
    'texts: while let Some((text, rest)) = left.split_first() {
        let whole = joined(alloc, text, more)?;
        grown.push(whole)?;
        left = rest;
    }
    Ok(())
}

// The same in the texts' own places.
fn move_each(texts: Vec<Vec<u8>>, more: &[u8], grown: &mut Vec<Vec<u8>>) -> Result<(), Stop>
    ensures ok { OnOk result (map (λ v. v.items) grown.new.items
        ≡ map (λ v. v.items) grown.old.items ++ each_with (map (λ v. v.items) texts.items) more.now) }
    ensures err { IfErr result (λ s. s ≡ Stop.Memory) }
{
    for mut text in texts {
        text.extend_from_slice(more)?;
        grown.push(text)?;
    }
    Ok(())
}

fn are_many(texts: &[Vec<u8>]) -> bool
    ensures { (result ≡ true → 64 < length texts.now) × (result ≡ false → length texts.now ≤ 64) }
{
    texts.len() > 64
}

// The texts with each choice of a brace behind them, and what is behind the brace. The last choice goes behind the texts
// themselves, so that a brace of one choice copies nothing.
fn brace<'a>(
    alloc: Global,
    texts: Vec<Vec<u8>>,
    text: &'a [u8],
) -> Result<(Vec<Vec<u8>>, &'a [u8]), Stop>
    ensures ok { IfOk result (λ r. Grown (map (λ v. v.items) texts.items) (123 ∷ text.now) (map (λ v. v.items) r.0.items) r.1.now) }
    ensures err { IfErr result (StopsIn (map (λ v. v.items) texts.items) (123 ∷ text.now)) }
{
    let mut grown = Vec::new(alloc);
    let mut rest = text;
    'choices: loop {
        let (more, b, behind) = choice(rest)?;
        if b == b'}' {
            move_each(texts, more, &mut grown)?;
            if are_many(&grown) {
                return Err(Stop::TooMany);
            }
            return Ok((grown, behind));
        }
        push_each(alloc, &texts, more, &mut grown)?;
        if are_many(&grown) {
            return Err(Stop::TooMany);
        }
        rest = behind;
    }
}

// The texts with the bytes before the next bracket behind them, and what is behind those.
fn plain<'a>(
    alloc: Global,
    texts: Vec<Vec<u8>>,
    text: &'a [u8],
) -> Result<(Vec<Vec<u8>>, &'a [u8]), Stop>
    requires { starts_with is_plain text.now ≡ true }
    ensures ok { IfOk result (λ r. Grown (map (λ v. v.items) texts.items) text.now (map (λ v. v.items) r.0.items) r.1.now) }
    ensures err { IfErr result (λ s. s ≡ Stop.Memory) }
{
    let rest = behind_plain(text);
    let mut grown = Vec::new(alloc);
    move_each(texts, text.split_at(text.len() - rest.len()).0, &mut grown)?;
    Ok((grown, rest))
}

// The texts with the next piece of a pattern behind them, and what is behind that.
fn piece<'a>(
    alloc: Global,
    texts: Vec<Vec<u8>>,
    text: &'a [u8],
    first: u8,
    behind: &'a [u8],
) -> Result<(Vec<Vec<u8>>, &'a [u8]), Stop>
    requires { text.now ≡ first ∷ behind.now }
    ensures ok { IfOk result (λ r. Grown (map (λ v. v.items) texts.items) text.now (map (λ v. v.items) r.0.items) r.1.now) }
    ensures err { IfErr result (StopsIn (map (λ v. v.items) texts.items) text.now) }
{
    if first == b'{' {
        return brace(alloc, texts, behind);
    }
    if is_bracket(first) {
        return Err(Stop::Byte(text.len()));
    }
    plain(alloc, texts, text)
}

/// The text alone.
pub(crate) fn single(alloc: Global, text: &[u8]) -> Result<Vec<Vec<u8>>, Stop>
    ensures ok { IfOk result (λ v. map (λ v. v.items) v.items ≡ text.now ∷ []) }
    ensures err { IfErr result (λ s. s ≡ Stop.Memory) }
{
    let mut copy = Vec::new(alloc);
    copy.extend_from_slice(text)?;
    let mut texts = Vec::new(alloc);
    texts.push(copy)?;
    Ok(texts)
}

fn empty_text(alloc: Global) -> Result<Vec<Vec<u8>>, Stop>
    ensures ok { IfOk result (λ v. map (λ v. v.items) v.items ≡ [] ∷ []) }
    ensures err { IfErr result (λ s. s ≡ Stop.Memory) }
{
    let mut texts = Vec::new(alloc);
    texts.push(Vec::new(alloc))?;
    Ok(texts)
}

/// The texts without braces that a path pattern stands for. They are copied only at braces of several choices, of which
/// there are at most seven before the texts are too many, so this takes time linear in the pattern's length.
pub(crate) fn texts_of(alloc: Global, body: &[u8]) -> Result<Vec<Vec<u8>>, Stop>
    ensures ok { IfOk result (λ v. Spells body.now (map (λ v. v.items) v.items)) }
    ensures err { IfErr result (Stops body.now) }
{
    let mut texts = empty_text(alloc)?;
    let mut rest = body;
    'pieces: while let Some((b, behind)) = next(rest) {
        let (grown, after) = piece(alloc, texts, rest, b, behind)?;
        texts = grown;
        rest = after;
    }
    Ok(texts)
}
