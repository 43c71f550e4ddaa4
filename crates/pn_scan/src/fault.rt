// Why managed folders were not scanned.
use pn_text::{AbsPath, Memory};
use std::alloc::{AllocError, AllocFailed};
use thiserror::Error;

/// Why managed folders were not scanned: the entry there, on the path of one of them, is no folder, or it is the folder
/// itself, which isn't empty and lacks its marker; more than 4,194,304 entries stand below the folders; a call failed; or
/// there was no memory.
#[derive(Debug, Drop, Error)]
pub enum ScanFault {
    #[error("{0} is not this installer's")]
    Foreign(AbsPath),
    #[error("there are too many entries")]
    Entries,
    #[error("a call failed")]
    Fault,
    #[error("out of memory")]
    Memory,
}

impl From<Memory> for ScanFault {
    ghost use Rattle.std.specs.Prelude.{◌≡◌};
    ghost use Rattle.pn_scan.specs.declared.fault.ScanFault.TheVariants.{Memory as no_memory};

    ghost from_gives = { λ _ e. e ≡ no_memory };

    fn from(_: Memory) -> Self {
        ScanFault::Memory
    }
}

impl From<AllocError> for ScanFault {
    ghost use Rattle.std.specs.Prelude.{◌≡◌};
    ghost use Rattle.pn_scan.specs.declared.fault.ScanFault.TheVariants.{Memory as no_memory};

    ghost from_gives = { λ _ e. e ≡ no_memory };

    fn from(_: AllocError) -> Self {
        ScanFault::Memory
    }
}

impl<T: Drop> From<AllocFailed<T>> for ScanFault {
    ghost use Rattle.std.specs.Prelude.{◌≡◌};
    ghost use Rattle.pn_scan.specs.declared.fault.ScanFault.TheVariants.{Memory as no_memory};

    ghost from_gives = { λ _ e. e ≡ no_memory };

    fn from(_: AllocFailed<T>) -> Self {
        ScanFault::Memory
    }
}
