// Why packages weren't fetched.
ghost use Rattle.std.specs.Prelude.{◌≡◌};
ghost use Rattle.pn_fetch.specs.Faults.{claim_fault, put_fault, release_fault};

use pn_digest::Digest;
use pn_store::{ClaimFault, PutFault, ReadFault};
use pn_text::Memory;
use thiserror::Error;

/// Why packages weren't fetched: a call of the store or of the registry failed, each of the 65,536 numbers is taken, a file
/// has so many bytes, past 268,435,456, other bytes with this digest stand in the store, or no memory.
#[derive(Clone, Copy, Debug, Error)]
pub enum FetchFault {
    #[error("the store failed")]
    StoreFault,
    #[error("the registry failed")]
    RegistryFault,
    #[error("each number of the store is taken")]
    NumbersFull,
    #[error("a file has {0} bytes")]
    TooLarge(u64),
    #[error("two files have one digest")]
    Clash(Digest),
    #[error("out of memory")]
    Memory,
}

/// A refused claim.
pub(crate) fn of_claim(fault: ClaimFault) -> FetchFault
    ensures { result ≡ claim_fault fault }
{
    match fault {
        ClaimFault::Fault => FetchFault::StoreFault,
        ClaimFault::NumbersFull => FetchFault::NumbersFull,
        ClaimFault::Memory => FetchFault::Memory,
    }
}

/// A refused put.
pub(crate) fn of_put(fault: PutFault) -> FetchFault
    ensures { result ≡ put_fault fault }
{
    match fault {
        PutFault::StoreFault => FetchFault::StoreFault,
        PutFault::SourceFault => FetchFault::RegistryFault,
        PutFault::TooLarge(length) => FetchFault::TooLarge(length),
        PutFault::Clash(at) => FetchFault::Clash(at),
        PutFault::Memory => FetchFault::Memory,
    }
}

/// A refused release, which finds nothing damaged.
pub(crate) fn of_release(fault: ReadFault) -> FetchFault
    ensures { result ≡ release_fault fault }
{
    match fault {
        ReadFault::Fault => FetchFault::StoreFault,
        ReadFault::Damaged(_, _) => FetchFault::Memory,
        ReadFault::Memory => FetchFault::Memory,
    }
}

impl From<Memory> for FetchFault {
    ghost use Rattle.std.specs.Prelude.{◌≡◌};
    ghost use Rattle.pn_fetch.specs.declared.fault.FetchFault.TheVariants.{Memory as no_memory};

    ghost from_gives = { λ _ e. e ≡ no_memory };

    fn from(_: Memory) -> Self {
        FetchFault::Memory
    }
}
