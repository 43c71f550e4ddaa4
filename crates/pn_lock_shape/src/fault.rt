// Why data has another form than that of a lockfile.
ghost use Rattle.std.specs.Prelude.{◌≡◌, []};
ghost use Rattle.pn_lock_shape.specs.Answers.{IsWithin};

use pn_text::{Memory, Text};
use sqlite_items::Items;
use std::alloc::{AllocError, AllocFailed, Global};
use thiserror::Error;

/// Where an entry has another form: the keys that lead to it, the last one first.
#[derive(Debug, Drop, Error)]
pub enum ShapeFault {
    #[error("an entry has another form")]
    At(Items<Text>),
    #[error("out of memory")]
    Memory,
}

impl ShapeFault {
    /// This entry.
    pub(crate) fn here(alloc: Global) -> ShapeFault
        ensures { result ≡ ShapeFault.At [] }
    {
        ShapeFault::At(Items::new(alloc))
    }

    /// The same fault, below a key.
    pub(crate) fn within(self, alloc: Global, key: &str) -> ShapeFault
        ensures { IsWithin key.now self result }
    {
        match self {
            ShapeFault::At(keys) => below(alloc, keys, key),
            ShapeFault::Memory => ShapeFault::Memory,
        }
    }
}

fn below(alloc: Global, mut keys: Items<Text>, key: &str) -> ShapeFault
    ensures { IsWithin key.now (ShapeFault.At keys) result }
{
    let Ok(text) = Text::of(alloc, key) else {
        return ShapeFault::Memory;
    };
    match keys.push(text) {
        Ok(()) => ShapeFault::At(keys),
        Err(_) => ShapeFault::Memory,
    }
}

impl From<Memory> for ShapeFault {
    ghost use Rattle.pn_lock_shape.specs.Answers.{no_memory};

    ghost from_gives = { λ _ e. e ≡ no_memory };

    fn from(_: Memory) -> ShapeFault {
        ShapeFault::Memory
    }
}

impl From<AllocError> for ShapeFault {
    ghost use Rattle.pn_lock_shape.specs.Answers.{no_memory};

    ghost from_gives = { λ _ e. e ≡ no_memory };

    fn from(_: AllocError) -> ShapeFault {
        ShapeFault::Memory
    }
}

impl<T: Drop> From<AllocFailed<T>> for ShapeFault {
    ghost use Rattle.pn_lock_shape.specs.Answers.{no_memory};

    ghost from_gives = { λ _ e. e ≡ no_memory };

    fn from(_: AllocFailed<T>) -> ShapeFault {
        ShapeFault::Memory
    }
}
