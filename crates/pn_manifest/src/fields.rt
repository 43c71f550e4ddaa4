// The fields of a JSON object.
ghost use Rattle.std.specs.Prelude.{◌≡◌, option_map, Some, is_none};
ghost use Rattle.serde_json.specs.View.{view};
ghost use Rattle.pn_manifest.specs.Values.{filled, field};

use serde_json::Value;

/// A field's value, where it isn't empty.
pub fn field<'a>(object: &'a Value, key: &str) -> Option<&'a Value>
    ensures { option_map (λ v. view v.now) result ≡ field key.now (view object.now) }
{
    let found = object.get(key)?;
    if is_empty(found) { None } else { Some(found) }
}

// Whether it counts as nothing.
fn is_empty(value: &Value) -> bool
    ensures { result ≡ is_none (filled (Some (view value.now))) }
{
    if value.is_null() {
        return true;
    }
    match value.as_array() {
        Some(items) => items.as_slice().is_empty(),
        None => false,
    }
}
