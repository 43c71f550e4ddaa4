// The part that no name has.
ghost use Rattle.std.specs.Prelude.{◌≡◌};
ghost use Rattle.pn_text.specs.Name.{is_reserved};

use crate::parts::holds_modules;

// Whether a part of a name is `node_modules`.
pub fn is_reserved(name: &[u8]) -> bool
    ensures { result ≡ is_reserved name.now }
{
    match name {
        [b'@', parts @ ..] => holds_modules(parts),
        _ => holds_modules(name),
    }
}
