// The refusals.
ghost use Rattle.std.specs.Prelude.{◌≡◌};
ghost use Rattle.pn_workspace.specs.declared.fault.StoreFault.TheVariants.{Memory as no_store_memory};
ghost use Rattle.pn_workspace.specs.declared.fault.WorkspaceFault.TheVariants.{Memory as no_memory};

use pn_text::{AbsPath, Memory, Text};
use pn_yaml::Why;
use thiserror::Error;

/// What is wrong with a workspace file.
#[derive(Debug, Drop, Error)]
pub enum WorkspaceWhy {
    /// The bytes are no UTF-8.
    #[error("not UTF-8")]
    NotUtf8,
    /// Scalars, lists and maps are nested more than 64 deep.
    #[error("too deep")]
    TooDeep,
    /// The first line at fault, counted from 1.
    #[error("line {0}: {1}")]
    Line(u32, Why),
    /// The first bad key; it is empty where the file is no map.
    #[error("bad key {0}")]
    BadKey(Text),
}

/// Why there is no workspace.
#[derive(Debug, Drop, Error)]
pub enum WorkspaceFault {
    /// The path of the folder's own workspace file would have so many bytes, past the limit.
    #[error("a path has {0} bytes")]
    Long(u64),
    /// The root's workspace file has so many bytes, past the limit.
    #[error("the workspace file has {0} bytes")]
    TooLarge(u64),
    /// The workspace file at that path is wrong.
    #[error("{1}")]
    Wrong(AbsPath, WorkspaceWhy),
    #[error("the device failed")]
    Fault,
    #[error("out of memory")]
    Memory,
}

/// Why the virtual store has no place: its path has more bytes than the limit, or lies where it must not.
#[derive(Clone, Copy, Debug, PartialEq, Eq, Error)]
pub enum StoreFault {
    #[error("a path is too long")]
    Long,
    #[error("the virtual store lies where something else does")]
    Misplaced,
    #[error("out of memory")]
    Memory,
}

impl From<Memory> for WorkspaceFault {
    ghost from_gives = { λ _ e. e ≡ no_memory };

    fn from(_: Memory) -> Self {
        WorkspaceFault::Memory
    }
}

impl From<Memory> for StoreFault {
    ghost from_gives = { λ _ e. e ≡ no_store_memory };

    fn from(_: Memory) -> Self {
        StoreFault::Memory
    }
}
