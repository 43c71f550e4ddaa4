// Why there is no plain graph.
use pn_manifest::ManifestWhy;
use pn_text::{Edge, Memory, PkgId, PkgName, Text};
use std::alloc::AllocFailed;
use thiserror::Error;

/// What the registry lacks.
#[derive(Debug, Drop, Error)]
pub enum RegistryLack {
    /// The name's `tags.json` is no object of texts, or has more than 16,777,216 bytes.
    #[error("the file of tags of {0} says none")]
    BadTags(PkgName),
    /// A name's folder has more than 4,194,304 entries.
    #[error("there are too many entries")]
    Entries,
    /// The package's manifest is missing or wrong.
    #[error("the manifest of {0} is wrong: {1}")]
    Wrong(PkgId, ManifestWhy),
    /// The package's manifest has that many bytes, past 16,777,216.
    #[error("the manifest of {0} has {1} bytes")]
    TooLarge(PkgId, u64),
    /// The field of a manifest, or the package's id, is valid and isn't built yet.
    #[error("{0} isn't built yet")]
    Unbuilt(Text),
}

/// Why there is no plain graph.
#[derive(Debug, Drop, Error)]
pub enum ChoiceFault {
    /// The dependency's specifier has none of the forms.
    #[error("{0} is no specifier")]
    Unsupported(Edge),
    /// The form of the dependency's specifier isn't built yet.
    #[error("{0} isn't built yet")]
    Unbuilt(Edge),
    /// No published version is one that the dependency's specifier asks for.
    #[error("there is no version for {0}")]
    NoVersion(Edge),
    /// The registry lacks what a dependency leads to.
    #[error("{0}")]
    Registry(RegistryLack),
    /// There are that many packages, past 16,384.
    #[error("there are {0} packages")]
    Packages(u64),
    /// A call of the registry failed.
    #[error("a call failed")]
    Fault,
    /// An allocation failed.
    #[error("out of memory")]
    Memory,
}

impl From<Memory> for ChoiceFault {
    ghost use Rattle.std.specs.Prelude.{◌≡◌};
    ghost use Rattle.pn_choice.specs.declared.fault.ChoiceFault.TheVariants.{Memory as no_memory};

    ghost from_gives = { λ _ e. e ≡ no_memory };

    fn from(_: Memory) -> Self {
        ChoiceFault::Memory
    }
}

impl<T: Drop> From<AllocFailed<T>> for ChoiceFault {
    ghost use Rattle.std.specs.Prelude.{◌≡◌};
    ghost use Rattle.pn_choice.specs.declared.fault.ChoiceFault.TheVariants.{Memory as no_memory};

    ghost from_gives = { λ _ e. e ≡ no_memory };

    fn from(_: AllocFailed<T>) -> Self {
        ChoiceFault::Memory
    }
}
