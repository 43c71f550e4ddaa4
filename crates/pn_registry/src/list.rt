// Lists of files.
ghost use Rattle.std.specs.Prelude.{◌≡◌, [], map, length};
ghost use Rattle.pn_registry.specs.Files.{IsRising};
ghost use Rattle.pn_registry.specs.Listed.{file_of};

use pn_text::RelPath;
use std::alloc::Global;
use std::marker::Model;

/// A file of a package: its path from the package's folder, and its length in bytes.
#[derive(Drop)]
pub struct PackageFile {
    pub path: RelPath,
    pub length: u64,
}

/// The files of a package in byte order of their paths, each once.
#[derive(Drop)]
pub struct Files {
    items: Vec<PackageFile>,
}

impl Model for Files {
    ghost use Rattle.std.specs.Prelude.{List, map};
    ghost use Rattle.pn_registry.specs.Files.{File, IsRising};
    ghost use Rattle.pn_registry.specs.Listed.{file_of};

    ghost Value = { List File };

    ghost view = { λ a. map file_of a.items.items };

    ghost invariant = { λ a. IsRising (map file_of a.items.items) };
}

impl Files {
    /// No files.
    pub fn new(alloc: Global) -> Files
        ensures { result ≡ [] }
    {
        Files {
            items: Vec::new(alloc),
        }
    }

    pub fn as_slice(&self) -> &[PackageFile]
        ensures files { map file_of result.now ≡ self.now }
        ensures rising { IsRising self.now }
    {
        self.items.as_slice()
    }

    /// The files themselves, in order.
    pub fn into_items(self) -> Vec<PackageFile>
        ensures files { map file_of result.items ≡ self }
        ensures rising { IsRising self }
    {
        self.items
    }

    pub fn len(&self) -> usize
        ensures { result ≡ length self.now }
    {
        self.items.len()
    }
}

/// Takes files that are in order.
pub fn listed(items: Vec<PackageFile>) -> Files
    requires { IsRising (map file_of items.items) }
    ensures { result ≡ map file_of items.items }
{
    Files { items }
}
