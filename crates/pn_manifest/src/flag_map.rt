// Objects of flags under package names.
ghost use Rattle.std.specs.Prelude.{◌≡◌, OnOk, IfOk, IfErr, Some, None, true, option_map, if◌then◌else◌};
ghost use Rattle.serde_json.specs.View.{view, members_view};
ghost use Rattle.pn_manifest.specs.Values.{field, first_bad};
ghost use Rattle.pn_manifest.specs.FlagMaps.{wrong_flags, flag_field, flagged, is_flagged, has_flag, flag_of};
ghost use Rattle.pn_manifest.specs.Refusals.{IsWrong};
ghost use Rattle.pn_manifest.specs.Said.{AreRising};

use crate::fault::{ManifestFault, bad_field};
use crate::fields::field;
use crate::map::read_key;
use crate::texts::Names;
use pn_text::PkgName;
use serde_json::{Map, Value};
use std::alloc::Global;

/// The names in a field whose flag is true, in byte order.
pub fn read_flags(
    alloc: Global,
    object: &Value,
    key: &str,
    flag: &str,
) -> Result<Names, ManifestFault>
    ensures ok { IfOk result (λ n. n ≡ flag_field flag.now (field key.now (view object.now))) }
    ensures right { OnOk result (wrong_flags key.now flag.now (field key.now (view object.now)) ≡ None) }
    ensures fault { IfErr result (IsWrong (wrong_flags key.now flag.now (field key.now (view object.now)))) }
{
    let Some(found) = field(object, key) else {
        return Ok(Names::new(alloc));
    };
    match found.as_object() {
        Some(members) => {
            let all = read_members(alloc, key, flag, members)?;
            Ok(Names::of(all))
        }
        None => Err(bad_field(alloc, key, "")),
    }
}

fn read_members(
    alloc: Global,
    key: &str,
    flag: &str,
    members: &Map<String, Value>,
) -> Result<Vec<PkgName>, ManifestFault>
    ensures ok { IfOk result (λ v. v.items ≡ flagged flag.now (members_view members.now.entries)) }
    ensures rising { IfOk result (λ v. AreRising v.items) }
    ensures right { OnOk result (first_bad (is_flagged flag.now) (members_view members.now.entries) ≡ None) }
    ensures fault { IfErr result (IsWrong (option_map (λ k. (key.now, k)) (first_bad (is_flagged flag.now) (members_view members.now.entries)))) }
{
    let mut all = Vec::new(alloc);
    for (name, value) in members.iter() {
        if let Some(one) = read_member(alloc, key, flag, name.as_str(), value)? {
            all.push(one)?;
        }
    }
    Ok(all)
}

// The name, where its flag is true.
fn read_member(
    alloc: Global,
    key: &str,
    flag: &str,
    name: &str,
    value: &Value,
) -> Result<Option<PkgName>, ManifestFault>
    ensures ok { IfOk result (λ o. o ≡ (if has_flag flag.now (view value.now) then Some name.now else None)) }
    ensures right { OnOk result (is_flagged flag.now name.now (view value.now) ≡ true) }
    ensures fault { IfErr result (IsWrong (if is_flagged flag.now name.now (view value.now) then None else Some (key.now, name.now))) }
{
    let Some(set) = flag_of(value, flag) else {
        return Err(bad_field(alloc, key, name));
    };
    let name = read_key(alloc, key, name)?;
    if set { Ok(Some(name)) } else { Ok(None) }
}

// An object's flag, false where it is absent.
fn flag_of(value: &Value, flag: &str) -> Option<bool>
    ensures { result ≡ flag_of flag.now (view value.now) }
{
    if !value.is_object() {
        return None;
    }
    match value.get(flag) {
        Some(set) => set.as_bool(),
        None => Some(false),
    }
}
