// Bytes below 128 as texts.
ghost use Rattle.std.specs.Prelude.{◌≡◌, ◌++◌, IfOk, OnOk, string_bytes, true};
ghost use Rattle.std.specs.List.{list_all};
ghost use Rattle.pn_deppath.specs.Folders.{is_ascii};

use pn_text::Memory;
use std::alloc::Global;

/// The text with these bytes.
pub(crate) fn text_of(alloc: Global, bytes: &[u8]) -> Result<String, Memory>
    requires { list_all is_ascii bytes.now ≡ true }
    ensures { IfOk result (λ text. string_bytes text ≡ bytes.now) }
{
    let mut text = String::new(alloc);
    for b in bytes {
        text.push(char::from(*b))?;
    }
    Ok(text)
}
