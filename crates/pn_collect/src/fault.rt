// Why the packages of an install aren't known.
use pn_text::{Memory, PkgId, RelPath};
use thiserror::Error;

/// Why the packages of an install aren't known: a package with a file whose path has a part `node_modules`; a file of that
/// many bytes, past 268,435,456; more than 4,194,304 entries below a package's folder; a failed call; no memory.
#[derive(Debug, Drop, Error)]
pub enum CollectFault {
    #[error("{0} has a file {1} with a part node_modules")]
    Modules(PkgId, RelPath),
    #[error("a file has {0} bytes")]
    TooLarge(u64),
    #[error("there are too many entries")]
    Entries,
    #[error("a call failed")]
    Fault,
    #[error("out of memory")]
    Memory,
}

impl From<Memory> for CollectFault {
    ghost use Rattle.std.specs.Prelude.{◌≡◌};
    ghost use Rattle.pn_collect.specs.declared.fault.CollectFault.TheVariants.{Memory as no_memory};

    ghost from_gives = { λ _ e. e ≡ no_memory };

    fn from(_: Memory) -> Self {
        CollectFault::Memory
    }
}
