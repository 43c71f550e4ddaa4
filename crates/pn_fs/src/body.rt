// What may stand at a path.

use pn_text::Text;

/// A folder, a file with bytes, or a link with a text.
#[derive(Drop)]
pub enum Body {
    Folder,
    File(Vec<u8>),
    Link(Text),
}
