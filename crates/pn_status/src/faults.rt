// What the refusals of lower calls are as a status.
ghost use Rattle.std.specs.Prelude.{◌≡◌};
ghost use Rattle.pn_status.specs.declared.status.Status.TheVariants.{Memory as no_memory};

use crate::status::Status;
use pn_text::Memory;
use std::alloc::AllocFailed;

impl From<Memory> for Status {
    ghost from_gives = { λ _ s. s ≡ no_memory };

    fn from(_: Memory) -> Self {
        Status::Memory
    }
}

impl<T: Drop> From<AllocFailed<T>> for Status {
    ghost from_gives = { λ _ s. s ≡ no_memory };

    fn from(_: AllocFailed<T>) -> Self {
        Status::Memory
    }
}
