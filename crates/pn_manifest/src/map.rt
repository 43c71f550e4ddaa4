// The names and texts of a dependency map.
ghost use Rattle.std.specs.Prelude.{◌≡◌, OnOk, IfOk, IfErr, Some, None, true, map, option_map, if◌then◌else◌};
ghost use Rattle.serde_json.specs.Data.{string};
ghost use Rattle.serde_json.specs.View.{view, members_view};
ghost use Rattle.pn_text.specs.Name.{is_name};
ghost use Rattle.pn_manifest.specs.Values.{field, first_bad};
ghost use Rattle.pn_manifest.specs.TextMaps.{wrong_map, map_field, pairs, is_dependency};
ghost use Rattle.pn_manifest.specs.Pairs.{IsRising};
ghost use Rattle.pn_manifest.specs.Listed.{pair_of};
ghost use Rattle.pn_manifest.specs.Refusals.{IsWrong};

use crate::dependencies::{Dependencies, Dependency};
use crate::fault::{ManifestFault, bad_field};
use crate::fields::field;
use pn_text::{NameFault, PkgName, Text};
use serde_json::{Map, Value};
use std::alloc::Global;

/// The dependencies in a field, in byte order of names.
pub fn read_map(alloc: Global, object: &Value, key: &str) -> Result<Dependencies, ManifestFault>
    ensures ok { IfOk result (λ d. d ≡ map_field (field key.now (view object.now))) }
    ensures right { OnOk result (wrong_map key.now (field key.now (view object.now)) ≡ None) }
    ensures fault { IfErr result (IsWrong (wrong_map key.now (field key.now (view object.now)))) }
{
    let Some(found) = field(object, key) else {
        return Ok(Dependencies::new(alloc));
    };
    match found.as_object() {
        Some(members) => {
            let all = read_members(alloc, key, members)?;
            Ok(Dependencies::of(all))
        }
        None => Err(bad_field(alloc, key, "")),
    }
}

fn read_members(
    alloc: Global,
    key: &str,
    members: &Map<String, Value>,
) -> Result<Vec<Dependency>, ManifestFault>
    ensures ok { IfOk result (λ v. map pair_of v.items ≡ pairs (members_view members.now.entries)) }
    ensures rising { IfOk result (λ v. IsRising (map pair_of v.items)) }
    ensures right { OnOk result (first_bad is_dependency (members_view members.now.entries) ≡ None) }
    ensures fault { IfErr result (IsWrong (option_map (λ k. (key.now, k)) (first_bad is_dependency (members_view members.now.entries)))) }
{
    let mut all = Vec::new(alloc);
    for (name, value) in members.iter() {
        let one = read_member(alloc, key, name.as_str(), value)?;
        all.push(one)?;
    }
    Ok(all)
}

// One dependency.
fn read_member(
    alloc: Global,
    key: &str,
    name: &str,
    value: &Value,
) -> Result<Dependency, ManifestFault>
    ensures ok { IfOk result (λ d. (is_name name.now ≡ true) × (view value.now ≡ string d.specifier) × (d.name ≡ name.now)) }
    ensures fault { IfErr result (IsWrong (if is_dependency name.now (view value.now) then None else Some (key.now, name.now))) }
{
    let Some(text) = value.as_str() else {
        return Err(bad_field(alloc, key, name));
    };
    let name = read_key(alloc, key, name)?;
    let specifier = Text::of(alloc, text)?;
    Ok(Dependency { name, specifier })
}

/// A key that is a package name.
pub fn read_key(alloc: Global, field: &str, key: &str) -> Result<PkgName, ManifestFault>
    ensures ok { IfOk result (λ name. name ≡ key.now) }
    ensures right { OnOk result (is_name key.now ≡ true) }
    ensures fault { IfErr result (IsWrong (if is_name key.now then None else Some (field.now, key.now))) }
{
    match PkgName::read(alloc, key) {
        Ok(name) => Ok(name),
        Err(NameFault::Memory) => Err(ManifestFault::Memory),
        Err(_) => Err(bad_field(alloc, field, key)),
    }
}
