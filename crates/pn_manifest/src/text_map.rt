// Objects of texts under any keys.
ghost use Rattle.std.specs.Prelude.{◌≡◌, OnOk, IfOk, IfErr, Some, None, map, option_map, if◌then◌else◌};
ghost use Rattle.serde_json.specs.Data.{string};
ghost use Rattle.serde_json.specs.View.{view, members_view};
ghost use Rattle.pn_manifest.specs.Values.{field, first_bad};
ghost use Rattle.pn_manifest.specs.TextMaps.{wrong_texts, map_field, pairs, is_entry};
ghost use Rattle.pn_manifest.specs.Pairs.{IsRising};
ghost use Rattle.pn_manifest.specs.Listed.{entry_pair};
ghost use Rattle.pn_manifest.specs.Refusals.{IsWrong};

use crate::fault::{ManifestFault, bad_field};
use crate::fields::field;
use crate::texts::{Entries, Entry};
use pn_text::Text;
use serde_json::{Map, Value};
use std::alloc::Global;

/// The texts in a field, in byte order of keys. A refusal calls the field by another name.
pub fn read_texts(
    alloc: Global,
    object: &Value,
    key: &str,
    called: &str,
) -> Result<Entries, ManifestFault>
    ensures ok { IfOk result (λ e. e ≡ map_field (field key.now (view object.now))) }
    ensures right { OnOk result (wrong_texts called.now (field key.now (view object.now)) ≡ None) }
    ensures fault { IfErr result (IsWrong (wrong_texts called.now (field key.now (view object.now)))) }
{
    let Some(found) = field(object, key) else {
        return Ok(Entries::new(alloc));
    };
    match found.as_object() {
        Some(members) => {
            let all = read_members(alloc, called, members)?;
            Ok(Entries::of(all))
        }
        None => Err(bad_field(alloc, called, "")),
    }
}

fn read_members(
    alloc: Global,
    called: &str,
    members: &Map<String, Value>,
) -> Result<Vec<Entry>, ManifestFault>
    ensures ok { IfOk result (λ v. map entry_pair v.items ≡ pairs (members_view members.now.entries)) }
    ensures rising { IfOk result (λ v. IsRising (map entry_pair v.items)) }
    ensures right { OnOk result (first_bad is_entry (members_view members.now.entries) ≡ None) }
    ensures fault { IfErr result (IsWrong (option_map (λ k. (called.now, k)) (first_bad is_entry (members_view members.now.entries)))) }
{
    let mut all = Vec::new(alloc);
    for (key, value) in members.iter() {
        let one = read_member(alloc, called, key.as_str(), value)?;
        all.push(one)?;
    }
    Ok(all)
}

// One text.
fn read_member(
    alloc: Global,
    called: &str,
    key: &str,
    value: &Value,
) -> Result<Entry, ManifestFault>
    ensures ok { IfOk result (λ e. (view value.now ≡ string e.text) × (e.key ≡ key.now)) }
    ensures fault { IfErr result (IsWrong (if is_entry key.now (view value.now) then None else Some (called.now, key.now))) }
{
    let Some(text) = value.as_str() else {
        return Err(bad_field(alloc, called, key));
    };
    let key = Text::of(alloc, key)?;
    let text = Text::of(alloc, text)?;
    Ok(Entry { key, text })
}
