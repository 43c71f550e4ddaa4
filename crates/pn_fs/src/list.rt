// The entries of a folder in memory.
ghost use Rattle.std.specs.Prelude.{◌≡◌, ◌++◌, [], OnOk, IfOk, IfErr, IsTrue, string_bytes, option_to_list};
ghost use Rattle.std.specs.Option.{option_copied};
ghost use Rattle.pn_text.specs.Path.{is_part, is_path, text_below};
ghost use Rattle.pn_fs.specs.Calls.{IsListing};
ghost use Rattle.pn_fs.specs.Nodes.{rooted};
ghost use Rattle.pn_fs.specs.Names.{name_after};

use crate::body::Body;
use pn_text::{AbsPath, DevFault, Text};
use std::alloc::{AllocError, Global};
use std::collections::BTreeMap;

/// The names of a folder's entries. The keys that begin with the folder's text and a slash stand
/// next to each other, since `0` is the byte behind the slash.
pub fn list_at(
    alloc: Global,
    nodes: &BTreeMap<String, Body>,
    path: &AbsPath,
) -> Result<Vec<Text>, DevFault>
    ensures names { IfOk result (λ names. IsListing (rooted nodes.now) path.now names.items) }
    ensures cause { IfErr result (λ e. e ≡ DevFault.Memory) }
{
    let front = edge(alloc, path, "/")?;
    let first = edge(alloc, path, "/")?;
    let past = edge(alloc, path, "0")?;
    let mut names = Vec::new(alloc);
    for (key, _body) in nodes.range(first..past) {
        add_name(alloc, &mut names, key.as_str(), front.as_str())?;
    }
    Ok(names)
}

// Adds the name behind the front, where the key is one of an entry of the folder.
fn add_name(alloc: Global, names: &mut Vec<Text>, key: &str, front: &str) -> Result<(), DevFault>
    ensures ok { OnOk result (names.new.items ≡ names.old.items ++ option_to_list (name_after front.now key.now)) }
    ensures cause { IfErr result (λ e. e ≡ DevFault.Memory) }
{
    match name_below(key, front) {
        Some(name) => {
            names.push(Text::of(alloc, name)?)?;
            Ok(())
        }
        None => Ok(()),
    }
}

fn name_below<'a>(key: &'a str, front: &str) -> Option<&'a str>
    ensures { option_copied result ≡ name_after front.now key.now }
{
    match key.strip_prefix(front) {
        Some(name) => only_name(name),
        None => None,
    }
}

fn only_name(text: &str) -> Option<&str>
    ensures { option_copied result ≡ name_after [] text.now }
{
    if is_name(text.as_bytes()) {
        Some(text)
    } else {
        None
    }
}

// Whether a text is one part of a path.
fn is_name(text: &[u8]) -> bool
    ensures { result ≡ is_part text.now }
{
    match text {
        [] => false,
        [b'.'] => false,
        [b'.', b'.'] => false,
        _ => !text.contains(&b'/'),
    }
}

// A folder's text, without the slash of `/`, and what follows it.
fn edge(alloc: Global, path: &AbsPath, mark: &str) -> Result<String, AllocError>
    ensures text { IfOk result (λ text. string_bytes text ≡ text_below path.now ++ mark.now) }
    ensures good { IsTrue (is_path path.now) }
{
    let mut text = String::from_str(alloc, stem(path))?;
    text.push_str(mark)?;
    Ok(text)
}

fn stem(path: &AbsPath) -> &str
    ensures text { result.now ≡ text_below path.now }
    ensures good { IsTrue (is_path path.now) }
{
    if path.is_root() { "" } else { path.as_str() }
}
