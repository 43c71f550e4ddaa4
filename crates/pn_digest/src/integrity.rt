// Integrities.
ghost use Rattle.std.specs.Prelude.{◌≡◌, ◌==◌, ◌↔◌, ℕ, List, Some, IfOk, take};
ghost use Rattle.std.proofs.Common.{rules};
ghost use Rattle.std.specs.Cmp.Lexicographic.{pointwise};
ghost use Rattle.std.specs.Cmp.Rules.{comparing};
ghost use Rattle.base64.specs.Engines.{standard};
ghost use Rattle.base64.specs.GeneralPurpose.{encode_of};
ghost use Rattle.pn_digest.specs.Digests.{IsDigest, integrity_text};

use crate::digest::Digest;
use base64::engine::general_purpose::STANDARD;
use pn_text::{Memory, Text};
use std::alloc::Global;
use std::marker::Model;

/// The integrity of bytes: their digest, which is written as `sha512-` and its padded base64. Contracts see the digest.
#[derive(Clone, Copy, Debug)]
pub struct Integrity {
    digest: Digest,
}

impl Model for Integrity {
    ghost use Rattle.std.specs.Prelude.{ℕ, List};

    ghost Value = { List ℕ };

    ghost view = { λ a. a.digest };

    ghost inverse = { λ d. record { digest = d } };
}

impl Integrity {
    /// The integrity of bytes with this digest.
    pub fn of(digest: Digest) -> Integrity
        ensures { result ≡ digest }
    {
        Integrity { digest }
    }

    /// The digest.
    pub fn digest(&self) -> Digest
        ensures { result ≡ self.now }
    {
        self.digest
    }

    /// Reads a text: None exactly where it isn't `sha512-` and the padded base64 of 64 bytes. It takes no memory.
    pub fn read(text: &str) -> Option<Integrity>
        ensures exact { (d : List ℕ) → (result ≡ Some d) ↔ ((text.now ≡ integrity_text d) × IsDigest d) }
    {
        let digest = text.as_bytes().strip_prefix(b"sha512-")?;
        Some(Integrity {
            digest: decoded(digest)?,
        })
    }

    /// The text, which `read` gives back.
    pub fn print(&self, alloc: Global) -> Result<Text, Memory>
        ensures { IfOk result (λ text. text ≡ integrity_text self.now) }
    {
        let mut text = String::from_str(alloc, "sha512-")?;
        STANDARD.encode_string(self.digest.as_bytes(), &mut text)?;
        Text::of(alloc, text.as_str())
    }
}

impl PartialEq for Integrity {
    ghost eq = { pointwise ◌==◌ };

    ghost laws = { Prim.search (comparing, rules) };

    fn eq(&self, other: &Integrity) -> bool {
        self.digest == other.digest
    }
}

impl Eq for Integrity {
    ghost laws = { Prim.search (comparing, rules) };
}

// The digest whose base64 this is.
fn decoded(text: &[u8]) -> Option<Digest>
    ensures exact { (d : List ℕ) → (result ≡ Some d) ↔ ((text.now ≡ encode_of standard d) × IsDigest d) }
{
    if text.len() != 88 {
        return None;
    }
    let mut buffer = [0u8; 66];
    let Ok(size) = STANDARD.decode_slice_unchecked(text, &mut buffer) else {
        return None;
    };
    if size != 64 {
        return None;
    }
    Some(first_64(&buffer))
}

fn first_64(buffer: &[u8; 66]) -> Digest
    ensures bytes { result ≡ take 64 buffer.now }
    ensures digest { IsDigest result }
{
    let mut bytes = [0u8; 64];
    bytes.copy_from_slice(&buffer[..64]);
    Digest::of(bytes)
}
