// Why a wish leads nowhere, or a package isn't told.
use crate::fault::RegistryLack;
use pn_text::Memory;
use std::alloc::AllocFailed;
use thiserror::Error;

/// Why a wish leads nowhere, or a package isn't known.
#[derive(Debug, Drop, Error)]
pub enum WayFault {
    /// The specifier has none of the forms.
    #[error("the specifier has no form")]
    Unsupported,
    /// The specifier's form isn't built yet.
    #[error("the specifier isn't built yet")]
    Unbuilt,
    /// No published version is one that the specifier asks for.
    #[error("there is no version")]
    NoVersion,
    /// The registry lacks what is asked for.
    #[error("{0}")]
    Registry(RegistryLack),
    /// A call of the registry failed.
    #[error("a call failed")]
    Fault,
    /// An allocation failed.
    #[error("out of memory")]
    Memory,
}

impl From<Memory> for WayFault {
    ghost use Rattle.std.specs.Prelude.{◌≡◌};
    ghost use Rattle.pn_choice.specs.declared.way.WayFault.TheVariants.{Memory as no_memory};

    ghost from_gives = { λ _ e. e ≡ no_memory };

    fn from(_: Memory) -> Self {
        WayFault::Memory
    }
}

impl<T: Drop> From<AllocFailed<T>> for WayFault {
    ghost use Rattle.std.specs.Prelude.{◌≡◌};
    ghost use Rattle.pn_choice.specs.declared.way.WayFault.TheVariants.{Memory as no_memory};

    ghost from_gives = { λ _ e. e ≡ no_memory };

    fn from(_: AllocFailed<T>) -> Self {
        WayFault::Memory
    }
}
