// The overrides of `pnpm.overrides`.
ghost use Rattle.std.specs.Prelude.{◌≡◌, OnOk, IfOk, IfErr, None, codes};
ghost use Rattle.serde_json.specs.View.{view};
ghost use Rattle.pn_manifest.specs.Values.{field};
ghost use Rattle.pn_manifest.specs.TextMaps.{map_field};
ghost use Rattle.pn_manifest.specs.Overrides.{overrides_in, wrong_overrides};
ghost use Rattle.pn_manifest.specs.Refusals.{IsWrong};

use crate::fault::{ManifestFault, bad_field};
use crate::fields::field;
use crate::text_map::read_texts;
use crate::texts::Entries;
use serde_json::Value;
use std::alloc::Global;

/// The overrides, in byte order of selectors.
pub fn read_overrides(alloc: Global, object: &Value) -> Result<Entries, ManifestFault>
    ensures ok { IfOk result (λ e. e ≡ map_field (overrides_in (field (codes "pnpm") (view object.now)))) }
    ensures right { OnOk result (wrong_overrides (field (codes "pnpm") (view object.now)) ≡ None) }
    ensures fault { IfErr result (IsWrong (wrong_overrides (field (codes "pnpm") (view object.now)))) }
{
    let Some(pnpm) = field(object, "pnpm") else {
        return Ok(Entries::new(alloc));
    };
    if !pnpm.is_object() {
        return Err(bad_field(alloc, "pnpm.overrides", ""));
    }
    read_texts(alloc, pnpm, "overrides", "pnpm.overrides")
}
