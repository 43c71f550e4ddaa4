// The refusals.
ghost use Rattle.std.specs.Prelude.{◌≡◌};
ghost use Rattle.pn_glob.specs.declared.fault.Stop.TheVariants.{Memory as no_memory};

use std::alloc::{AllocError, AllocFailed};
use thiserror::Error;

/// Why texts are no list of patterns.
#[derive(Clone, Copy, Debug, Error, PartialEq, Eq)]
pub enum GlobFault {
    /// The pattern, counted from 0, and its first byte at which no reading goes on, or its length where it ends too
    /// early.
    #[error("pattern {0}: no pattern goes on at byte {1}")]
    BadByte(usize, usize),
    /// A pattern stands for more than 64 texts without braces.
    #[error("a pattern stands for more than 64 texts")]
    TooMany,
    #[error("out of memory")]
    Memory,
}

/// Where the reading of a pattern stops.
#[derive(Clone, Copy, Debug, PartialEq, Eq)]
pub enum Stop {
    /// How many bytes are left from the bad one on.
    Byte(usize),
    /// The end comes too early.
    End,
    TooMany,
    Memory,
}

impl From<AllocError> for Stop {
    ghost from_gives = { λ _ s. s ≡ no_memory };

    fn from(_: AllocError) -> Self {
        Stop::Memory
    }
}

impl<T: Drop> From<AllocFailed<T>> for Stop {
    ghost from_gives = { λ _ s. s ≡ no_memory };

    fn from(_: AllocFailed<T>) -> Self {
        Stop::Memory
    }
}

/// Why one pattern of a list isn't read.
#[derive(Clone, Copy, Debug, PartialEq, Eq)]
pub enum Bad {
    /// The place in the pattern.
    At(usize),
    TooMany,
    Memory,
}
