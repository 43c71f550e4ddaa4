// Why the versions of a name aren't told.
use pn_text::Memory;
use std::alloc::{AllocError, AllocFailed};
use thiserror::Error;

/// Why the versions of a name aren't told: its file `tags.json` is no object of texts of at most 16,777,216 bytes; its
/// folder has more than 4,194,304 entries; a failed call; no memory.
#[derive(Clone, Copy, Debug, PartialEq, Eq, Error)]
pub enum PublishedFault {
    #[error("the file of tags says none")]
    BadTags,
    #[error("there are too many entries")]
    Entries,
    #[error("a call failed")]
    Fault,
    #[error("out of memory")]
    Memory,
}

impl From<Memory> for PublishedFault {
    ghost use Rattle.std.specs.Prelude.{◌≡◌};
    ghost use Rattle.pn_published.specs.declared.fault.PublishedFault.TheVariants.{Memory as no_memory};

    ghost from_gives = { λ _ e. e ≡ no_memory };

    fn from(_: Memory) -> Self {
        PublishedFault::Memory
    }
}

impl From<AllocError> for PublishedFault {
    ghost use Rattle.std.specs.Prelude.{◌≡◌};
    ghost use Rattle.pn_published.specs.declared.fault.PublishedFault.TheVariants.{Memory as no_memory};

    ghost from_gives = { λ _ e. e ≡ no_memory };

    fn from(_: AllocError) -> Self {
        PublishedFault::Memory
    }
}

impl<T: Drop> From<AllocFailed<T>> for PublishedFault {
    ghost use Rattle.std.specs.Prelude.{◌≡◌};
    ghost use Rattle.pn_published.specs.declared.fault.PublishedFault.TheVariants.{Memory as no_memory};

    ghost from_gives = { λ _ e. e ≡ no_memory };

    fn from(_: AllocFailed<T>) -> Self {
        PublishedFault::Memory
    }
}
