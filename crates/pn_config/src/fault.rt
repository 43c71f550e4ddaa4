// The refusals.
ghost use Rattle.std.specs.Prelude.{◌≡◌};
ghost use Rattle.pn_config.specs.declared.fault.Stop.TheVariants.{Memory as no_memory};
ghost use Rattle.pn_config.specs.Faults.{IsFaultAt};

use pn_text::{Memory, Text};
use std::alloc::{AllocError, AllocFailed, Global};
use thiserror::Error;

/// Why a workspace file is refused: its first bad key, which is empty where the file is no map, or no memory.
#[derive(Debug, Drop, Error)]
pub enum ConfigFault {
    #[error("bad key {0}")]
    BadKey(Text),
    #[error("out of memory")]
    Memory,
}

/// Why a value is refused.
#[derive(Clone, Copy, Debug, PartialEq, Eq)]
pub(crate) enum Stop {
    Bad,
    Memory,
}

impl From<Memory> for Stop {
    ghost from_gives = { λ _ s. s ≡ no_memory };

    fn from(_: Memory) -> Self {
        Stop::Memory
    }
}

impl From<AllocError> for Stop {
    ghost from_gives = { λ _ s. s ≡ no_memory };

    fn from(_: AllocError) -> Self {
        Stop::Memory
    }
}

impl<T: Drop> From<AllocFailed<T>> for Stop {
    ghost from_gives = { λ _ s. s ≡ no_memory };

    fn from(_: AllocFailed<T>) -> Self {
        Stop::Memory
    }
}

/// The refusal of a key.
pub(crate) fn fault_at(alloc: Global, key: &str, stop: Stop) -> ConfigFault
    ensures { IsFaultAt key.now stop result }
{
    match stop {
        Stop::Bad => match Text::of(alloc, key) {
            Ok(key) => ConfigFault::BadKey(key),
            Err(_) => ConfigFault::Memory,
        },
        Stop::Memory => ConfigFault::Memory,
    }
}
