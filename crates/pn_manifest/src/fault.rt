// Why bytes are no manifest.
ghost use Rattle.std.specs.Prelude.{Some, []};
ghost use Rattle.pn_manifest.specs.Refusals.{IsWrong};

use pn_text::{Memory, Text};
use std::alloc::{AllocFailed, Global};
use thiserror::Error;

/// What is wrong with a manifest: no file where one is asked for, no JSON object, or a field and a key in
/// it (empty where the field itself is wrong).
#[derive(Debug, Drop, Error)]
pub enum ManifestWhy {
    #[error("there is no file")]
    Missing,
    #[error("the text is no JSON object")]
    NotJson,
    #[error("field {0}, key {1}: wrong")]
    BadField(Text, Text),
}

/// Why bytes are no manifest: what is wrong with them, or no memory.
#[derive(Debug, Drop, Error)]
pub enum ManifestFault {
    #[error("{0}")]
    Wrong(ManifestWhy),
    #[error("out of memory")]
    Memory,
}

/// The refusal for a field and a key.
pub fn bad_field(alloc: Global, field: &str, key: &str) -> ManifestFault
    ensures { IsWrong (Some (field.now, key.now)) result }
{
    match (Text::of(alloc, field), Text::of(alloc, key)) {
        (Ok(field), Ok(key)) => ManifestFault::Wrong(ManifestWhy::BadField(field, key)),
        _ => ManifestFault::Memory,
    }
}

impl From<Memory> for ManifestFault {
    ghost use Rattle.std.specs.Prelude.{◌≡◌};
    ghost use Rattle.pn_manifest.specs.declared.fault.ManifestFault.TheVariants.{Memory as no_memory};

    ghost from_gives = { λ _ e. e ≡ no_memory };

    fn from(_: Memory) -> Self {
        ManifestFault::Memory
    }
}

impl<T: Drop> From<AllocFailed<T>> for ManifestFault {
    ghost use Rattle.std.specs.Prelude.{◌≡◌};
    ghost use Rattle.pn_manifest.specs.declared.fault.ManifestFault.TheVariants.{Memory as no_memory};

    ghost from_gives = { λ _ e. e ≡ no_memory };

    fn from(_: AllocFailed<T>) -> Self {
        ManifestFault::Memory
    }
}
