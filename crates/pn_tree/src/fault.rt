// Why no plan is given.
ghost use Rattle.std.specs.Prelude.{◌≡◌};
ghost use Rattle.pn_tree.specs.declared.fault.LayoutFault.TheVariants.{Memory as no_memory};

use pn_text::Memory;
use thiserror::Error;

/// The first planned path in byte order of more than 4,096 bytes has so many, or there was no memory.
#[derive(Clone, Copy, Debug, PartialEq, Eq, Error)]
pub enum LayoutFault {
    #[error("a path of {0} bytes is too long")]
    TooLong(u64),
    #[error("out of memory")]
    Memory,
}

impl From<Memory> for LayoutFault {
    ghost from_gives = { λ _ e. e ≡ no_memory };

    fn from(_: Memory) -> Self {
        LayoutFault::Memory
    }
}
