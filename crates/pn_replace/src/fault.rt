// Why a file was not replaced.

use thiserror::Error;

/// Why a file was not replaced: a call failed, and the count of faults rose, or there was no memory.
#[derive(Clone, Copy, Debug, PartialEq, Eq, Error)]
pub enum ReplaceFault {
    #[error("the device failed")]
    Fault,
    #[error("out of memory")]
    Memory,
}
