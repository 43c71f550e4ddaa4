// The commands of `bin`.
ghost use Rattle.std.specs.Prelude.{◌≡◌, OnOk, IfOk, IfErr, None, codes, option_map};
ghost use Rattle.serde_json.specs.View.{view};
ghost use Rattle.pn_manifest.specs.Values.{field, text_field};
ghost use Rattle.pn_manifest.specs.Commands.{bin_field, last_part, own_bin, wrong_bin};
ghost use Rattle.pn_manifest.specs.Refusals.{IsWrong};

use crate::fault::ManifestFault;
use crate::fields::field;
use crate::text_map::read_texts;
use crate::texts::{Entries, Entry};
use pn_text::{Memory, PkgName, Text};
use serde_json::Value;
use std::alloc::Global;

/// The commands of a package of this name.
pub fn read_bins(
    alloc: Global,
    object: &Value,
    name: &Option<PkgName>,
) -> Result<Entries, ManifestFault>
    ensures ok { IfOk result (λ e. e ≡ bin_field name.now (field (codes "bin") (view object.now))) }
    ensures right { OnOk result (wrong_bin (field (codes "bin") (view object.now)) ≡ None) }
    ensures fault { IfErr result (IsWrong (wrong_bin (field (codes "bin") (view object.now)))) }
{
    match text_in(object, "bin") {
        Some(path) => Ok(own_bin(alloc, name, path)?),
        None => read_texts(alloc, object, "bin", "bin"),
    }
}

fn text_in<'a>(object: &'a Value, key: &str) -> Option<&'a str>
    ensures { option_map (λ t. t.now) result ≡ text_field (field key.now (view object.now)) }
{
    field(object, key)?.as_str()
}

// The command under the package's own name.
fn own_bin(alloc: Global, name: &Option<PkgName>, path: &str) -> Result<Entries, Memory>
    ensures { IfOk result (λ e. e ≡ own_bin name.now path.now) }
{
    let Some(name) = name else {
        return Ok(Entries::new(alloc));
    };
    let key = Text::of(alloc, last_part(name.as_str()))?;
    let text = Text::of(alloc, path)?;
    let mut all = Vec::new(alloc);
    all.push(Entry { key, text })?;
    Ok(Entries::of(all))
}

// What is after the last slash.
fn last_part(text: &str) -> &str
    ensures { result.now ≡ last_part text.now }
{
    match text.rsplit_once('/') {
        Some((_, part)) => part,
        None => text,
    }
}
