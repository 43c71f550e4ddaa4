// The object in a manifest's text, and its fields other than maps.
ghost use Rattle.std.specs.Prelude.{◌≡◌, OnOk, IfOk, IfErr, None, option_map, codes, option_and_then};
ghost use Rattle.serde_json.specs.View.{view};
ghost use Rattle.semver.specs.Identifiers.{parts_of};
ghost use Rattle.pn_text.specs.Ids.{is_version, parts_text};
ghost use Rattle.pn_text.specs.Name.{is_name};
ghost use Rattle.pn_manifest.specs.Fields.{field, name_of, version_of, wrong_text};
ghost use Rattle.pn_manifest.specs.Text.{IsObjectText};
ghost use Rattle.pn_manifest.specs.Refusals.{IsNoObject, IsWrong};

use crate::fault::{ManifestFault, ManifestWhy, bad_field};
use crate::fields::field;
use pn_text::{NameFault, PkgName};
use semver::Version;
use serde_json::Value;
use std::alloc::{AllocError, Global};

/// The JSON object that the bytes are the text of.
pub fn read_object(alloc: Global, bytes: &[u8]) -> Result<Value, ManifestFault>
    ensures ok { IfOk result (λ v. IsObjectText bytes.now (view v)) }
    ensures fault { IfErr result (IsNoObject bytes.now) }
{
    let Ok(text) = std::str::from_utf8(bytes) else {
        return Err(ManifestFault::Wrong(ManifestWhy::NotJson));
    };
    match Value::from_str(alloc, text) {
        Ok(value) if value.is_object() => Ok(value),
        Ok(_) => Err(ManifestFault::Wrong(ManifestWhy::NotJson)),
        Err(e) if e.is_memory() => Err(ManifestFault::Memory),
        Err(_) => Err(ManifestFault::Wrong(ManifestWhy::NotJson)),
    }
}

pub fn read_name(alloc: Global, object: &Value) -> Result<Option<PkgName>, ManifestFault>
    ensures ok { IfOk result (λ o. o ≡ name_of (view object.now)) }
    ensures right { OnOk result (wrong_text (codes "name") is_name (field (codes "name") (view object.now)) ≡ None) }
    ensures fault { IfErr result (IsWrong (wrong_text (codes "name") is_name (field (codes "name") (view object.now)))) }
{
    let Some(found) = field(object, "name") else {
        return Ok(None);
    };
    let Some(text) = found.as_str() else {
        return Err(bad_field(alloc, "name", ""));
    };
    match PkgName::read(alloc, text) {
        Ok(name) => Ok(Some(name)),
        Err(NameFault::Memory) => Err(ManifestFault::Memory),
        Err(_) => Err(bad_field(alloc, "name", "")),
    }
}

pub fn read_version(alloc: Global, object: &Value) -> Result<Option<Version>, ManifestFault>
    ensures ok { IfOk result (λ o. option_map parts_of o ≡ option_and_then parts_text (version_of (view object.now))) }
    ensures right { OnOk result (wrong_text (codes "version") is_version (field (codes "version") (view object.now)) ≡ None) }
    ensures fault { IfErr result (IsWrong (wrong_text (codes "version") is_version (field (codes "version") (view object.now)))) }
{
    let Some(found) = field(object, "version") else {
        return Ok(None);
    };
    let Some(text) = found.as_str() else {
        return Err(bad_field(alloc, "version", ""));
    };
    match Version::parse(alloc, text) {
        Ok(version) => Ok(Some(version)),
        Err(e) if e == semver::Error::from(AllocError) => Err(ManifestFault::Memory),
        Err(_) => Err(bad_field(alloc, "version", "")),
    }
}
