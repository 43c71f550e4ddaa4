// The refusals.
ghost use Rattle.std.specs.Prelude.{◌≡◌};
ghost use Rattle.pn_ranges.specs.declared.fault.Stop.TheVariants.{Memory as no_memory};

use std::alloc::{AllocError, AllocFailed};
use thiserror::Error;

/// Why a text is no range set.
#[derive(Clone, Copy, Debug, Error, PartialEq, Eq)]
pub enum RangeFault {
    /// `BadByte(i)`: the first i bytes can be completed to a range set, the first i + 1 can't; or i is the length, and
    /// the text ends too early.
    #[error("no range goes on at byte {0}")]
    BadByte(usize),
    /// The place of a number that is 2^64 or more, or whose bound would be.
    #[error("the number at byte {0} is too large")]
    NumberTooLarge(usize),
    /// More than 1,024 comparators.
    #[error("more than 1,024 comparators")]
    TooMany,
    #[error("out of memory")]
    Memory,
}

/// Where a part of the reader stops, as the count of bytes left.
#[derive(Clone, Copy, Debug, PartialEq, Eq)]
pub enum Stop {
    Byte(usize),
    Number(usize),
    Memory,
}

impl From<AllocError> for Stop {
    ghost from_gives = { λ _ s. s ≡ no_memory };

    fn from(_: AllocError) -> Self {
        Stop::Memory
    }
}

impl<T: Drop> From<AllocFailed<T>> for Stop {
    ghost from_gives = { λ _ s. s ≡ no_memory };

    fn from(_: AllocFailed<T>) -> Self {
        Stop::Memory
    }
}
