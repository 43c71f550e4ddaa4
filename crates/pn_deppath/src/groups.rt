// The texts of groups.
ghost use Rattle.std.specs.Prelude.{◌≡◌, IfOk, map, string_bytes};
ghost use Rattle.pn_deppath.specs.Groups.{folder_byte, joined, project_text, shortened};

use crate::ascii::text_of;
use crate::plain::first_digits;
use pn_text::{Memory, PkgName, Text};
use std::alloc::Global;

// Groups of more bytes together are shortened.
const GROUPS: usize = 1000;

/// The text of a project that is a peer of that name: `<name>@link:<folder>`.
pub fn project_text(alloc: Global, name: &PkgName, folder: &Text) -> Result<Text, Memory>
    ensures { IfOk result (λ text. text ≡ project_text name.now folder.now) }
{
    let bytes = folder_bytes(alloc, folder.as_str().as_bytes())?;
    let place = text_of(alloc, &bytes)?;
    let mut text = String::from_str(alloc, name.as_str())?;
    text.push_str("@link:")?;
    text.push_str(place.as_str())?;
    Text::of(alloc, text.as_str())
}

fn folder_bytes(alloc: Global, folder: &[u8]) -> Result<Vec<u8>, Memory>
    ensures { IfOk result (λ v. v.items ≡ map folder_byte folder.now) }
{
    let mut bytes = Vec::new(alloc);
    for b in folder {
        bytes.push(folder_byte(*b))?;
    }
    Ok(bytes)
}

fn folder_byte(b: u8) -> u8
    ensures { result ≡ folder_byte b }
{
    match b {
        b'a'..=b'z' | b'A'..=b'Z' | b'0'..=b'9' | b'-' | b'.' | b'_' => b,
        _ => b'+',
    }
}

/// The groups in parentheses, one after the other.
pub fn joined(alloc: Global, groups: &[Text]) -> Result<String, Memory>
    ensures { IfOk result (λ text. string_bytes text ≡ joined groups.now) }
{
    let mut text = String::new(alloc);
    for group in groups {
        text.push_str("(")?;
        text.push_str(group.as_str())?;
        text.push_str(")")?;
    }
    Ok(text)
}

/// These groups, or, where they are long, one group of digits of their SHA-256.
#[tactic(auto, unfolding(crate::specs::Groups::shortened))]
pub fn shortened(alloc: Global, groups: String) -> Result<String, Memory>
    ensures { IfOk result (λ text. string_bytes text ≡ shortened (string_bytes groups)) }
{
    if groups.len() <= GROUPS {
        return Ok(groups);
    }
    let digits = first_digits(groups.as_str().as_bytes());
    let hex = text_of(alloc, &digits)?;
    let mut text = String::from_str(alloc, "(")?;
    text.push_str(hex.as_str())?;
    text.push_str(")")?;
    Ok(text)
}
