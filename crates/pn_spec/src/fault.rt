// The refusals.
use pn_text::Memory;
use thiserror::Error;

/// Why a text is no specifier: no form fits it, or there was no memory.
#[derive(Clone, Copy, Debug, Error, PartialEq, Eq)]
pub enum SpecFault {
    #[error("no form of a specifier fits")]
    Unsupported,
    #[error("out of memory")]
    Memory,
}

impl From<Memory> for SpecFault {
    ghost use Rattle.std.specs.Prelude.{◌≡◌};
    ghost use Rattle.pn_spec.specs.declared.fault.SpecFault.TheVariants.{Memory as no_memory};

    ghost from_gives = { λ _ e. e ≡ no_memory };

    fn from(_: Memory) -> Self {
        SpecFault::Memory
    }
}
