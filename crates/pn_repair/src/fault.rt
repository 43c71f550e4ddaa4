// Why a planned entry was not made to stand.
use pn_digest::Digest;
use thiserror::Error;

/// A call of the tree or of the store failed, or at the store's address of a planned file something else was read: with
/// another digest, which is named, or nothing, or more than 268,435,456 bytes.
#[derive(Clone, Copy, Debug, Error)]
pub enum RepairFault {
    #[error("a call of the tree failed")]
    Fault,
    #[error("a call of the store failed")]
    StoreFault,
    #[error("the store has another file at an address")]
    Stored(Digest, Option<Digest>),
    #[error("out of memory")]
    Memory,
}
