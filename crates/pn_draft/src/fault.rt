// Why a draft gives no planned tree.

use std::alloc::{AllocError, AllocFailed};
use thiserror::Error;

/// A path's text has more than 4,096 bytes, so many, or there was no memory.
#[derive(Clone, Copy, Debug, PartialEq, Eq, Error)]
pub enum DraftFault {
    #[error("a path of {0} bytes is too long")]
    TooLong(u64),
    #[error("out of memory")]
    Memory,
}

impl From<AllocError> for DraftFault {
    ghost use Rattle.std.specs.Prelude.{◌≡◌};
    ghost use Rattle.pn_draft.specs.declared.fault.DraftFault.TheVariants.{Memory};

    ghost from_gives = { λ _ e. e ≡ Memory };

    fn from(_: AllocError) -> Self {
        DraftFault::Memory
    }
}

impl<T: Drop> From<AllocFailed<T>> for DraftFault {
    ghost use Rattle.std.specs.Prelude.{◌≡◌};
    ghost use Rattle.pn_draft.specs.declared.fault.DraftFault.TheVariants.{Memory};

    ghost from_gives = { λ _ e. e ≡ Memory };

    fn from(_: AllocFailed<T>) -> Self {
        DraftFault::Memory
    }
}
