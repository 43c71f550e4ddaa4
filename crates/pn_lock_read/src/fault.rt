// Why a node is no lockfile.
ghost use Rattle.std.specs.Prelude.{◌≡◌};

use pn_text::{Memory, Text};
use std::alloc::{AllocError, AllocFailed};
use thiserror::Error;

/// Why a node is no lockfile: the text of `lockfileVersion`, which isn't `9.0`, or no text where it has none; the keys from the
/// top to the first entry of another form, joined by `>`; the folder of a project or the dep path of a snapshot, and what it
/// leads to, which isn't there; there was no memory.
#[derive(Debug, Drop, Error)]
pub enum LockFault {
    #[error("version {0}")]
    Version(Text),
    #[error("another form at {0}")]
    Shape(Text),
    #[error("{0} leads to {1}, which isn't there")]
    Dangling(Text, Text),
    #[error("out of memory")]
    Memory,
}

impl From<Memory> for LockFault {
    ghost use Rattle.pn_lock_read.specs.Answers.{no_memory};

    ghost from_gives = { λ _ e. e ≡ no_memory };

    fn from(_: Memory) -> LockFault {
        LockFault::Memory
    }
}

impl From<AllocError> for LockFault {
    ghost use Rattle.pn_lock_read.specs.Answers.{no_memory};

    ghost from_gives = { λ _ e. e ≡ no_memory };

    fn from(_: AllocError) -> LockFault {
        LockFault::Memory
    }
}

impl<T: Drop> From<AllocFailed<T>> for LockFault {
    ghost use Rattle.pn_lock_read.specs.Answers.{no_memory};

    ghost from_gives = { λ _ e. e ≡ no_memory };

    fn from(_: AllocFailed<T>) -> LockFault {
        LockFault::Memory
    }
}
