// A number of the store that belongs to this installer.
ghost use Rattle.std.specs.Prelude.{◌≡◌};

use std::marker::Model;

/// The store has so many numbers.
pub const NUMBERS: u32 = 65_536;

/// A claimed number. Contracts see the number.
#[derive(Drop)]
pub struct Claim {
    k: u32,
}

impl Model for Claim {
    ghost use Rattle.std.specs.Prelude.{ℕ};

    ghost Value = { ℕ };

    ghost view = { λ a. a.k };
}

impl Claim {
    pub(crate) fn of(k: u32) -> Claim
        ensures { result ≡ k }
    {
        Claim { k }
    }

    /// The number.
    pub fn number(&self) -> u32
        ensures { result ≡ self.now }
    {
        self.k
    }
}
