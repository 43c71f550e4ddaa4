// Why there is no listing.
ghost use Rattle.std.specs.Prelude.{◌≡◌};
ghost use Rattle.pn_digest.specs.declared.fault.ListingFault.TheVariants.{Memory as no_memory};

use pn_text::Memory;
use std::alloc::{AllocError, AllocFailed};
use thiserror::Error;

/// Why files make no listing, in the order of the tests: the path at that place has a line feed or is a folder of
/// another one; the path at that place stands at an earlier one too. Why bytes make none: they are no listing's text.
/// Or there was no memory.
#[derive(Clone, Copy, Debug, PartialEq, Eq, Error)]
pub enum ListingFault {
    #[error("the path of file {0} has a line feed or is a folder of another one")]
    BadPath(usize),
    #[error("the path of file {0} stands at an earlier one too")]
    Twice(usize),
    #[error("the bytes are no listing's text")]
    NotListing,
    #[error("out of memory")]
    Memory,
}

impl From<AllocError> for ListingFault {
    ghost from_gives = { λ _ e. e ≡ no_memory };

    fn from(_: AllocError) -> Self {
        ListingFault::Memory
    }
}

impl<T: Drop> From<AllocFailed<T>> for ListingFault {
    ghost from_gives = { λ _ e. e ≡ no_memory };

    fn from(_: AllocFailed<T>) -> Self {
        ListingFault::Memory
    }
}

impl From<Memory> for ListingFault {
    ghost from_gives = { λ _ e. e ≡ no_memory };

    fn from(_: Memory) -> Self {
        ListingFault::Memory
    }
}
