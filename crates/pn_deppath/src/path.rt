// The grammar of dep paths.
ghost use Rattle.std.specs.Prelude.{◌≡◌, ◌<◌, ◌^◌, IfOk};
ghost use Rattle.pn_text.specs.Ids.{id_text, is_id};
ghost use Rattle.pn_deppath.specs.Paths.{are_groups, begins, group_part, holds, id_part, is_dep_path, next_open, patch_mark};

use pn_text::{Memory, PkgId, PkgName, Text};
use std::alloc::Global;

/// The dep path of a package without groups.
pub fn base_path(alloc: Global, name: &PkgName, version: &str) -> Result<Text, Memory>
    ensures { IfOk result (λ path. path ≡ id_text name.now version.now) }
{
    let mut path = String::from_str(alloc, name.as_str())?;
    path.push_str("@")?;
    path.push_str(version)?;
    Text::of(alloc, path.as_str())
}

/// Whether a text is a dep path: a package's id, and balanced groups of bytes 33 to 126, none of a patch.
pub fn is_dep_path(alloc: Global, path: &str) -> Result<bool, Memory>
    ensures { IfOk result (λ is. is ≡ is_dep_path path.now) }
{
    let (id, groups) = split_path(path);
    let known = is_id(alloc, id)?;
    if !known {
        return Ok(false);
    }
    if !are_groups(groups.as_bytes()) {
        return Ok(false);
    }
    Ok(!holds_patch(path.as_bytes()))
}

fn is_id(alloc: Global, text: &str) -> Result<bool, Memory>
    ensures { IfOk result (λ is. is ≡ is_id text.now) }
{
    let read = PkgId::read(alloc, text)?;
    Ok(read.is_some())
}

/// What stands before the first `(`, and the rest.
pub fn split_path(path: &str) -> (&str, &str)
    ensures id { result.0.now ≡ id_part path.now }
    ensures groups { result.1.now ≡ group_part path.now }
{
    for (i, b) in path.as_bytes().iter().enumerate() {
        if *b == b'(' {
            return path.split_at(i);
        }
    }
    path.split_at(path.len())
}

fn are_groups(text: &[u8]) -> bool
    ensures { result ≡ are_groups 0 text.now }
{
    let mut level = 0usize;
    for b in text {
        match next_open(level, *b) {
            Some(next) => level = next,
            None => return false,
        }
    }
    level == 0
}

// How many parentheses are open behind a byte, where it may stand there.
fn next_open(level: usize, b: u8) -> Option<usize>
    requires { level < 2 ^ 63 }
    ensures { result ≡ next_open level b }
{
    if level == 0 {
        return if b == b'(' { Some(1) } else { None };
    }
    if b < 33 || b > 126 {
        return None;
    }
    match b {
        b'(' => Some(level + 1),
        b')' => Some(level - 1),
        _ => Some(level),
    }
}

fn holds_patch(text: &[u8]) -> bool
    ensures { result ≡ holds patch_mark text.now }
{
    for (i, _) in text.iter().enumerate() {
        if is_patch(text.split_at(i).1) {
            return true;
        }
    }
    false
}

fn is_patch(text: &[u8]) -> bool
    ensures { result ≡ begins patch_mark text.now }
{
    text.starts_with(b"(patch_hash=")
}
