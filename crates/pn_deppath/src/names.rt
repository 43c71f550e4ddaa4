// Names that are told apart by ordinals.
ghost use Rattle.std.specs.Prelude.{◌≡◌, ◌+◌, ◌<◌, ◌^◌, ℕ, List, IfOk, OnOk, map, is_some, string_bytes, length, true};
ghost use Rattle.std.specs.List.{list_all};
ghost use Rattle.std.specs.BTreeMap.{get_by_text};
ghost use Rattle.pn_deppath.specs.Folders.{free_from, is_ascii, is_taken, plain_name, with_ordinal};
ghost use Rattle.pn_deppath.specs.Numbers.{HasNumbers, Numbered, last_of, name_after, number_after};

use crate::ascii::text_of;
use crate::plain::plain_name;
use pn_text::{Memory, Text};
use std::alloc::Global;
use std::collections::BTreeMap;

/// The names without ordinals of some dep paths, each with the ordinal that was given last: 0 where the name was given to
/// none of them, 1 where to one.
pub(crate) type Numbers = BTreeMap<String, u64>;

/// The names of these dep paths, given to none.
pub(crate) fn plain_names(alloc: Global, paths: &[Text]) -> Result<Numbers, Memory>
    requires { list_all (list_all is_ascii) paths.now ≡ true }
    ensures { IfOk result (λ m. HasNumbers m (map plain_name paths.now) (λ q. 0)) }
{
    let mut names = BTreeMap::new(alloc);
    for path in paths {
        let name = plain_text(alloc, path)?;
        names.insert(name, 0)?;
    }
    Ok(names)
}

// A dep path's name without an ordinal.
fn plain_text(alloc: Global, path: &Text) -> Result<String, Memory>
    requires { list_all is_ascii path.now ≡ true }
    ensures { IfOk result (λ name. string_bytes name ≡ plain_name path.now) }
{
    let name = plain_name(alloc, path.as_str().as_bytes())?;
    text_of(alloc, &name)
}

/// The folder's name of the next one of the dep paths, in byte order.
pub(crate) fn next_name(
    alloc: Global,
    paths: &[Text],
    numbers: &mut Numbers,
    path: &Text,
) -> Result<Text, Memory>
    requires ascii { list_all is_ascii path.now ≡ true }
    requires names { (q : List ℕ) → is_some (get_by_text numbers.old q) ≡ is_taken (map plain_name paths.now) q }
    requires small { last_of numbers.old (plain_name path.now) + 1 + length paths.now < 2 ^ 64 }
    ensures name { IfOk result (λ name. name ≡ name_after (map plain_name paths.now) (plain_name path.now) (last_of numbers.old (plain_name path.now))) }
    ensures numbers { OnOk result (Numbered numbers.old numbers.new (plain_name path.now) (number_after (map plain_name paths.now) (plain_name path.now) (last_of numbers.old (plain_name path.now)))) }
{
    let name = plain_text(alloc, path)?;
    let last = last_of(numbers, name.as_str());
    if last == 0 {
        let folder = Text::of(alloc, name.as_str())?;
        numbers.insert(name, 1)?;
        return Ok(folder);
    }
    let next = free_from(alloc, paths, numbers, name.as_str(), last + 1)?;
    let folder = with_ordinal(alloc, name.as_str(), next)?;
    let text = Text::of(alloc, folder.as_str())?;
    numbers.insert(name, next)?;
    Ok(text)
}

/// The last ordinal of a name.
pub(crate) fn last_of(numbers: &Numbers, name: &str) -> u64
    ensures { result ≡ last_of numbers.now name.now }
{
    match numbers.get(name) {
        Some(last) => *last,
        None => 0,
    }
}

// The first number from there on with which the name isn't taken.
fn free_from(
    alloc: Global,
    paths: &[Text],
    numbers: &Numbers,
    name: &str,
    first: u64,
) -> Result<u64, Memory>
    requires names { (q : List ℕ) → is_some (get_by_text numbers.now q) ≡ is_taken (map plain_name paths.now) q }
    requires small { first + length paths.now < 2 ^ 64 }
    ensures { IfOk result (λ n. n ≡ free_from (map plain_name paths.now) name.now (length (map plain_name paths.now)) first) }
{
    let mut n = first;
    for _path in paths {
        let folder = with_ordinal(alloc, name, n)?;
        if !numbers.contains_key(folder.as_str()) {
            return Ok(n);
        }
        n += 1;
    }
    Ok(n)
}

// A name and the ordinal behind it.
fn with_ordinal(alloc: Global, name: &str, n: u64) -> Result<String, Memory>
    ensures { IfOk result (λ text. string_bytes text ≡ with_ordinal name.now n) }
{
    let mut text = String::from_str(alloc, name)?;
    text.push_str("+~")?;
    let digits = format!(in alloc; "{n}")?;
    text.push_str(digits.as_str())?;
    Ok(text)
}
