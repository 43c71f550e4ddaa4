// The refusals.
ghost use Rattle.std.specs.Prelude.{◌≡◌};
ghost use Rattle.pn_lockfile.specs.declared.fault.LockfileFault.TheVariants.{Memory as no_memory};
ghost use Rattle.pn_lockfile.specs.declared.fault.TextFault.TheVariants.{Memory as no_text_memory};

use pn_text::{Memory, Text};
use pn_yaml::Why;
use thiserror::Error;

/// What is wrong with a lockfile.
#[derive(Debug, Drop, Error)]
pub enum LockWhy {
    /// The bytes are no UTF-8.
    #[error("not UTF-8")]
    NotUtf8,
    /// The first line at fault, counted from 1.
    #[error("line {0}: {1}")]
    Line(u32, Why),
    /// Scalars, lists and maps are nested more than 64 deep.
    #[error("too deep")]
    TooDeep,
    /// The text of `lockfileVersion`, which isn't `9.0`, or no text where it has none.
    #[error("version {0}")]
    Version(Text),
    /// The keys from the top to the first entry of another form, joined by `>`.
    #[error("shape {0}")]
    Shape(Text),
    /// The folder of a project or the dep path of a snapshot, and what it leads to, which isn't there.
    #[error("dangling {0} to {1}")]
    Dangling(Text, Text),
}

/// Why a lockfile wasn't read: it spells no lock, it has so many bytes, a call failed, or no memory.
#[derive(Debug, Drop, Error)]
pub enum LockfileFault {
    #[error("{0}")]
    Wrong(LockWhy),
    #[error("the lockfile has {0} bytes")]
    TooLarge(u64),
    #[error("the device failed")]
    Fault,
    #[error("out of memory")]
    Memory,
}

/// Why a lock has no text: it would have so many bytes, or no memory.
#[derive(Clone, Copy, Debug, PartialEq, Eq, Error)]
pub enum TextFault {
    #[error("the lockfile would have {0} bytes")]
    TooLarge(u64),
    #[error("out of memory")]
    Memory,
}

impl From<Memory> for LockfileFault {
    ghost from_gives = { λ _ e. e ≡ no_memory };

    fn from(_: Memory) -> Self {
        LockfileFault::Memory
    }
}

impl From<Memory> for TextFault {
    ghost from_gives = { λ _ e. e ≡ no_text_memory };

    fn from(_: Memory) -> Self {
        TextFault::Memory
    }
}
