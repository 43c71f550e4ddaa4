// Why calls on a store were refused.
ghost use Rattle.std.specs.Prelude.{◌≡◌};
ghost use Rattle.pn_store.specs.Faults.{store_answer};

use pn_digest::Digest;
use pn_text::DevFault;
use thiserror::Error;

/// Why no number was claimed: a call failed, each of the 65,536 numbers is taken, or no memory.
#[derive(Clone, Copy, Debug, PartialEq, Eq, Error)]
pub enum ClaimFault {
    #[error("the store failed")]
    Fault,
    #[error("each number of the store is taken")]
    NumbersFull,
    #[error("out of memory")]
    Memory,
}

/// Why a file or a listing was not put: a call of the store or of the source failed, the file has so many bytes,
/// other bytes with this digest stand there, or no memory.
#[derive(Clone, Copy, Debug, Error)]
pub enum PutFault {
    #[error("the store failed")]
    StoreFault,
    #[error("the source failed")]
    SourceFault,
    #[error("the file has {0} bytes")]
    TooLarge(u64),
    #[error("two files have one digest")]
    Clash(Digest),
    #[error("out of memory")]
    Memory,
}

/// Why a read or a release was refused: a call failed, what stands at the first digest has the second one, or no
/// memory.
#[derive(Clone, Copy, Debug, Error)]
pub enum ReadFault {
    #[error("the store failed")]
    Fault,
    #[error("what the store holds is damaged")]
    Damaged(Digest, Digest),
    #[error("out of memory")]
    Memory,
}

pub(crate) fn of_store(answer: Result<(), DevFault>) -> Result<(), PutFault>
    ensures { result ≡ store_answer answer }
{
    match answer {
        Ok(()) => Ok(()),
        Err(DevFault::Failed) => Err(PutFault::StoreFault),
        Err(DevFault::Memory) => Err(PutFault::Memory),
    }
}
