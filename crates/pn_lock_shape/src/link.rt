// Where links lead.
ghost use Rattle.std.specs.Prelude.{◌≡◌, ◌<◌, ◌∷◌, [], IfOk, MatchOption, length, Some, None, if◌then◌else◌, map, reverse, string_bytes};
ghost use Rattle.pn_text.specs.Path.{Path, text_below};
ghost use Rattle.pn_lock_shape.specs.Targets.{folder_at, folder_text, is_relative, parts_of, step, walked};

use pn_text::{Memory, Text};
use std::alloc::Global;

/// The folder to which a relative path leads from a project's folder, or none above the root.
pub(crate) fn folder_at(alloc: Global, base: &str, way: &str) -> Result<Option<Text>, Memory>
    ensures { IfOk result (λ f. f ≡ folder_at base.now way.now) }
{
    if !is_relative(way.as_bytes()) {
        return Ok(None);
    }
    let mut parts = Vec::new(alloc);
    if !walk(&mut parts, base)? {
        return Ok(None);
    }
    if !walk(&mut parts, way)? {
        return Ok(None);
    }
    Ok(Some(folder_text(alloc, &parts)?))
}

fn is_relative(text: &[u8]) -> bool
    ensures { result ≡ is_relative text.now }
{
    match text.first() {
        Some(b) => *b != b'/',
        None => false,
    }
}

// Walks a text's parts, and tells whether they stay at or below the root.
fn walk<'a>(parts: &mut Vec<&'a str>, text: &'a str) -> Result<bool, Memory>
    ensures { IfOk result (λ stays. walked text.now (reverse (map (λ x. x.now) parts.old.items))
        ≡ (if stays then Some (reverse (map (λ x. x.now) parts.new.items)) else None)) }
{
    let mut left = text;
    'parts: loop {
        match at_slash(left) {
            Some((part, rest)) => {
                if !take_step(parts, part)? {
                    return Ok(false);
                }
                left = rest;
            }
            None => return take_step(parts, left),
        }
    }
}

// What stands before the first slash, and behind it.
fn at_slash(text: &str) -> Option<(&str, &str)>
    ensures { MatchOption result (parts_of text.now ≡ text.now ∷ [])
        (λ x. (parts_of text.now ≡ x.0.now ∷ parts_of x.1.now) × (length x.1.now < length text.now)) }
{
    text.split_once('/')
}

// One step: a part, the parent, or none.
fn take_step<'a>(parts: &mut Vec<&'a str>, part: &'a str) -> Result<bool, Memory>
    ensures { IfOk result (λ stays. step part.now (reverse (map (λ x. x.now) parts.old.items))
        ≡ (if stays then Some (reverse (map (λ x. x.now) parts.new.items)) else None)) }
{
    if part == ".." {
        return Ok(parts.pop().is_some());
    }
    if part.is_empty() {
        return Ok(true);
    }
    if part == "." {
        return Ok(true);
    }
    parts.push(part)?;
    Ok(true)
}

// The text of a folder.
fn folder_text(alloc: Global, parts: &[&str]) -> Result<Text, Memory>
    ensures { IfOk result (λ t. t ≡ folder_text (reverse (map (λ x. x.now) parts.now))) }
{
    let text = text_below(alloc, parts)?;
    Text::of(alloc, behind_slash(text.as_str()))
}

// The parts, each behind a slash.
fn text_below(alloc: Global, parts: &[&str]) -> Result<String, Memory>
    ensures { IfOk result (λ t. string_bytes t ≡ text_below (reverse (map (λ x. x.now) parts.now))) }
{
    let mut text = String::new(alloc);
    for part in parts {
        text.push_str("/")?;
        text.push_str(part)?;
    }
    Ok(text)
}

// A text without its first slash, or `.` for none.
fn behind_slash(text: &str) -> &str
    ensures { (p : Path) → text.now ≡ text_below p → result.now ≡ folder_text p }
{
    match text.strip_prefix('/') {
        Some(rest) => rest,
        None => ".",
    }
}
