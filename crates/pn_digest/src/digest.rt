// Digests.
ghost use Rattle.std.specs.Prelude.{◌≡◌, ◌==◌, ◌↔◌, ℕ, List, Some, IfOk};
ghost use Rattle.std.proofs.Common.{rules};
ghost use Rattle.std.specs.Cmp.{partial_order_from_own_ties};
ghost use Rattle.std.specs.Cmp.Lexicographic.{slice_cmp, pointwise};
ghost use Rattle.std.specs.Cmp.Rules.{comparing};
ghost use Rattle.std.specs.Ordering.{nat_cmp, as_partial_cmp};
ghost use Rattle.hex.specs.Hex.{encode_lower};
ghost use Rattle.pn_digest.specs.Digests.{IsDigest};

use pn_text::{Memory, Text};
use std::alloc::Global;
use std::cmp::Ordering;
use std::marker::Model;

/// A digest of 64 bytes. Contracts see the list of them. Digests are in the order of their bytes.
#[derive(Clone, Copy, Debug)]
pub struct Digest {
    bytes: [u8; 64],
}

impl Model for Digest {
    ghost use Rattle.std.specs.Prelude.{ℕ, List};
    ghost use Rattle.pn_digest.specs.Digests.{IsDigest};

    ghost Value = { List ℕ };

    ghost view = { λ a. a.bytes };

    ghost invariant = { λ a. IsDigest a.bytes };

    ghost inverse = { λ d. record { bytes = d } };
}

impl Digest {
    /// The digest with these bytes.
    pub fn of(bytes: [u8; 64]) -> Digest
        ensures bytes { result ≡ bytes }
        ensures digest { IsDigest result }
    {
        Digest { bytes }
    }

    /// The bytes, which are 64.
    pub fn as_bytes(&self) -> &[u8; 64]
        ensures bytes { result.now ≡ self.now }
        ensures digest { IsDigest self.now }
    {
        &self.bytes
    }

    /// An equal digest.
    pub fn copy(&self) -> Digest
        ensures { result ≡ self.now }
    {
        *self
    }

    /// Reads hex digits: None exactly where they aren't the 128 lower-case ones of 64 bytes. It takes no memory.
    pub fn from_hex(digits: &[u8]) -> Option<Digest>
        ensures exact { (d : List ℕ) → (result ≡ Some d) ↔ ((digits.now ≡ encode_lower d) × IsDigest d) }
    {
        let mut bytes = [0u8; 64];
        if hex::decode_to_slice(digits, &mut bytes).is_err() {
            return None;
        }
        let digest = Digest::of(bytes);
        if digest.hex_digits().as_slice() == digits {
            Some(digest)
        } else {
            None
        }
    }

    // The 128 hex digits of the bytes, in lower case.
    pub(crate) fn hex_digits(&self) -> [u8; 128]
        ensures { result ≡ encode_lower self.now }
    {
        let mut digits = [0u8; 128];
        let _ = hex::encode_to_slice(self.bytes.as_slice(), &mut digits);
        digits
    }

    /// The 128 hex digits of the bytes, in lower case.
    pub fn hex(&self, alloc: Global) -> Result<Text, Memory>
        ensures { IfOk result (λ text. text ≡ encode_lower self.now) }
    {
        let text = hex::encode(alloc, self.bytes.as_slice())?;
        Text::of(alloc, text.as_str())
    }
}

impl PartialEq for Digest {
    ghost eq = { pointwise ◌==◌ };

    ghost laws = { Prim.search (comparing, rules) };

    fn eq(&self, other: &Digest) -> bool {
        self.bytes.as_slice() == other.bytes.as_slice()
    }
}

impl Eq for Digest {
    ghost laws = { Prim.search (comparing, rules) };
}

impl PartialOrd for Digest {
    ghost partial_cmp = { as_partial_cmp (slice_cmp nat_cmp) };

    ghost laws = { partial_order_from_own_ties (Prim.search (comparing, rules)) (Prim.search (comparing, rules)) };

    fn partial_cmp(&self, other: &Digest) -> Option<Ordering> {
        Some(self.cmp(other))
    }
}

impl Ord for Digest {
    ghost cmp = { slice_cmp nat_cmp };

    ghost total = { Prim.search (comparing, rules) };

    ghost matches_partial_cmp = { Prim.search (comparing, rules) };

    ghost matches_eq = { Prim.search (comparing, rules) };

    fn cmp(&self, other: &Digest) -> Ordering {
        self.bytes.as_slice().cmp(other.bytes.as_slice())
    }
}
