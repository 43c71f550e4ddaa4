// Names of entries.
ghost use Rattle.std.specs.Prelude.{IsTrue};
ghost use Rattle.pn_text.specs.Path.{is_part};

use pn_text::Text;

/// The name of an entry: one part of a path.
#[derive(Drop)]
pub struct Name {
    pub text: Text,
    ghost part: { IsTrue (is_part text) },
}
