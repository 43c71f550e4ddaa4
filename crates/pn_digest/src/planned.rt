// What is to stand at a path.

use crate::digest::Digest;
use pn_text::Text;

/// What is to stand at a path: a folder, a file with these bytes, a file with the bytes that the store has at this
/// digest, or a link with this text.
#[derive(Drop)]
pub enum Planned {
    Folder,
    Bytes(Text),
    Stored(Digest),
    Link(Text),
}
