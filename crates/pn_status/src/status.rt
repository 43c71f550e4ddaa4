// How a run ends.
ghost use Rattle.std.specs.Prelude.{◌≡◌};
ghost use Rattle.pn_status.specs.Codes.{code_of};

use pn_digest::Digest;
use pn_manifest::ManifestWhy;
use pn_text::{AbsPath, Edge, PkgId, RelPath, Text};
use pn_workspace::WorkspaceWhy;
use thiserror::Error;

/// What is wrong with a file: a manifest or a workspace file, by what is wrong with it; or a file of tags that says none.
#[derive(Debug, Drop, Error)]
pub enum FileWhy {
    #[error("{0}")]
    Manifest(ManifestWhy),
    #[error("{0}")]
    Workspace(WorkspaceWhy),
    #[error("bad tags")]
    BadTags,
}

/// Which integrity isn't the one that is named.
#[derive(Clone, Copy, Debug, Error)]
pub enum IntegrityWhy {
    /// What was read at the address of a digest in the store has the other digest. There is none where nothing stood there,
    /// or a file past 268,435,456 bytes.
    #[error("what is stored at a digest has another one")]
    Stored(Digest, Option<Digest>),
}

/// How a run ends: done, or the first refusal in the order of an install.
#[derive(Drop)]
pub enum Status {
    /// The command did all.
    Done,
    /// There was no memory.
    Memory,
    /// The words are no command's.
    Usage,
    /// The named file isn't in its grammar or is missing, or the virtual store may not lie where it says.
    Manifest(Text, FileWhy),
    /// No published version is one that the edge asks for.
    NoVersion(Edge),
    /// The edge's specifier has none of the forms.
    Unsupported(Edge),
    /// What is read has another integrity than is named.
    Integrity(IntegrityWhy),
    /// What stands at that path isn't this installer's: an entry on the way to a managed folder that is no folder, or a managed
    /// folder that isn't empty and has no marker.
    Foreign(AbsPath),
    /// The count is above the stated number.
    Limit(Which, u64),
    /// That path of the package has a part `node_modules`.
    Bundled(PkgId, RelPath),
    /// Other bytes with this SHA-512 than a package's file are in the store.
    DigestClash(Digest),
    /// A call of the project's tree failed.
    ProjectFault,
    /// A call of the store failed.
    StoreFault,
    /// A call of the registry's tree failed.
    RegistryFault,
    /// The output took the report in part or not at all.
    SinkFault,
    /// The path, field, setting, specifier or package's id is valid and isn't built yet.
    NotYet(Text),
}

/// What is limited: 16,384 packages, 268,435,456 bytes of a package's file, 16,777,216 bytes of a manifest or a workspace
/// file, 4,096 bytes of a path, 4,194,304 entries of a package, of a name's folder or below the managed folders,
/// 65,536 numbers of installers of one store.
#[derive(Clone, Copy, Debug, PartialEq, Eq)]
pub enum Which {
    Packages,
    File,
    Text,
    Path,
    Entries,
    Numbers,
}

impl Status {
    /// The exit status of the process.
    pub fn code(&self) -> u8
        ensures { result ≡ code_of self.now }
    {
        match self {
            Status::Done => 0,
            Status::Memory => 1,
            Status::Usage => 2,
            Status::Manifest(_, _) => 3,
            Status::NoVersion(_) => 6,
            Status::Unsupported(_) => 7,
            Status::Integrity(_) => 9,
            Status::Foreign(_) => 10,
            Status::Limit(_, _) => 11,
            Status::Bundled(_, _) => 13,
            Status::DigestClash(_) => 14,
            Status::ProjectFault => 20,
            Status::StoreFault => 21,
            Status::RegistryFault => 22,
            Status::SinkFault => 23,
            Status::NotYet(_) => 30,
        }
    }
}
