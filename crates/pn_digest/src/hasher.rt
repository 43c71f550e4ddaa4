// The digest of bytes that come in pieces.
ghost use Rattle.std.specs.Prelude.{◌≡◌, ℕ, List, [], ◌++◌};
ghost use Rattle.sha2.specs.Sha512.{sha512};
ghost use Rattle.pn_digest.specs.Hashing.{Holds};

use crate::digest::Digest;
use sha2::{Digest as Hash, Sha512};

/// A hasher that holds bytes pushed one piece after another. It takes no memory.
#[derive(Drop)]
pub struct Hasher512 {
    hasher: Sha512,
}

impl Hasher512 {
    /// A hasher that holds no bytes.
    pub fn new() -> Hasher512
        ensures { Holds result [] }
    {
        Hasher512 {
            hasher: Sha512::new(),
        }
    }

    /// Pushes the bytes of a piece behind those that the hasher holds.
    pub fn push(&mut self, piece: &[u8])
        ensures { (held : List ℕ) → Holds self.old held → Holds self.new (held ++ piece.now) }
    {
        self.hasher.update(piece);
    }

    /// The SHA-512 of the bytes that the hasher holds.
    pub fn end(self) -> Digest
        ensures { (held : List ℕ) → Holds self held → result ≡ sha512 held }
    {
        Digest::of(self.hasher.finalize())
    }
}

impl Digest {
    /// The SHA-512 of bytes.
    pub fn of_bytes(bytes: &[u8]) -> Digest
        ensures { result ≡ sha512 bytes.now }
    {
        let mut hasher = Hasher512::new();
        hasher.push(bytes);
        hasher.end()
    }
}
