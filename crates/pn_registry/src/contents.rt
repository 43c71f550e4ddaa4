// The files of a package.
ghost use Rattle.std.specs.Prelude.{◌≡◌, ◌≢◌, [], OnOk, IfOk, IfErr, IfSome, Some, None, map, find};
ghost use Rattle.std.specs.Option.{ForSome};
ghost use Rattle.std.specs.List.{All};
ghost use Rattle.pn_fs.specs.Tree.{folder};
ghost use Rattle.pn_fs.specs.Seen.{Keeps, GaveAtMost};
ghost use Rattle.pn_registry.specs.Turns.{GaveListings};
ghost use Rattle.pn_text.specs.declared.limits.TheConstants.{ENTRY_LIMIT};
ghost use Rattle.pn_registry.specs.Places.{package_folder};
ghost use Rattle.pn_registry.specs.Files.{IsFilesOf, IsClean, IsShortBelow, IsOneLine};
ghost use Rattle.pn_registry.specs.Apart.{AreApart};
ghost use Rattle.pn_registry.specs.Below.{HasFew};
ghost use Rattle.pn_registry.specs.Listed.{file_of};
ghost use Rattle.pn_registry.specs.FilesFaults.{FilesRefused, NotWalked, IsModular, IsLong, IsPassed, IsNamed, NamesShort, is_modular, is_large, entry_limit};

use crate::apart::in_order_apart;
use crate::folder::package_folder;
use crate::list::{Files, PackageFile};
use crate::walk::{WalkFault, walk};
use pn_fs::ReadFs;
use pn_text::{AbsPath, ENTRY_LIMIT, FILE_LIMIT, Memory, PkgId, RelPath};
use std::alloc::Global;
use thiserror::Error;

/// Why the files of a package aren't told: the first path in byte order with a part `node_modules`; else
/// the first file of more than 268,435,456 bytes, with its length; more than 4,194,304 entries; a failed
/// call; no memory.
#[derive(Debug, Drop, Error)]
pub enum FilesFault {
    #[error("{0} has a part node_modules")]
    Modules(RelPath),
    #[error("{0} has {1} bytes")]
    TooLarge(RelPath, u64),
    #[error("there are too many entries")]
    Entries,
    #[error("a call failed")]
    Fault,
    #[error("out of memory")]
    Memory,
}

/// All the files at any depth below a package's folder, none below another one. Links are passed over, and so is a
/// file with a line feed in its path there.
pub fn files<R: ReadFs>(alloc: Global, registry: &mut R, id: &PkgId) -> Result<Files, FilesFault>
    requires { ForSome (R.seen registry.old).tree (λ t. t (package_folder id.now) ≡ Some folder) }
    ensures files { IfSome (R.seen registry.old).tree (λ t. IfOk result (IsFilesOf t (package_folder id.now))) }
    ensures few { IfSome (R.seen registry.old).tree (λ t. OnOk result (HasFew t (package_folder id.now) entry_limit)) }
    ensures clean { IfOk result (All IsClean) }
    ensures apart { IfOk result AreApart }
    ensures short { IfOk result (All (IsShortBelow (package_folder id.now))) }
    ensures lines { IfOk result (All IsOneLine) }
    ensures named { IfErr result (NamesShort (package_folder id.now)) }
    ensures gave_few { IfSome (R.seen registry.old).tree (λ t. OnOk result (GaveAtMost (R.seen registry.old) 0 ENTRY_LIMIT (R.seen registry.new))) }
    ensures gave { IfSome (R.seen registry.old).tree (λ t. GaveListings t (package_folder id.now) ENTRY_LIMIT (R.seen registry.old) (R.seen registry.new)) }
    ensures kept { Keeps (R.seen registry.old) (R.seen registry.new) }
    ensures fault { IfErr result (FilesRefused (package_folder id.now) (R.seen registry.old) (R.seen registry.new)) }
{
    match package_folder(alloc, id) {
        Ok(Some(at)) => files_at(alloc, registry, &at),
        Ok(None) => Ok(Files::new(alloc)),
        Err(_) => Err(FilesFault::Memory),
    }
}

fn files_at<R: ReadFs>(alloc: Global, registry: &mut R, at: &AbsPath) -> Result<Files, FilesFault>
    requires folder { ForSome (R.seen registry.old).tree (λ t. t at.now ≡ Some folder) }
    requires deep { at.now ≢ [] }
    ensures files { IfSome (R.seen registry.old).tree (λ t. IfOk result (IsFilesOf t at.now)) }
    ensures few { IfSome (R.seen registry.old).tree (λ t. OnOk result (HasFew t at.now entry_limit)) }
    ensures clean { IfOk result (All IsClean) }
    ensures apart { IfOk result AreApart }
    ensures short { IfOk result (All (IsShortBelow at.now)) }
    ensures lines { IfOk result (All IsOneLine) }
    ensures named { IfErr result (NamesShort at.now) }
    ensures gave_few { IfSome (R.seen registry.old).tree (λ t. OnOk result (GaveAtMost (R.seen registry.old) 0 ENTRY_LIMIT (R.seen registry.new))) }
    ensures gave { IfSome (R.seen registry.old).tree (λ t. GaveListings t at.now ENTRY_LIMIT (R.seen registry.old) (R.seen registry.new)) }
    ensures kept { Keeps (R.seen registry.old) (R.seen registry.new) }
    ensures fault { IfErr result (FilesRefused at.now (R.seen registry.old) (R.seen registry.new)) }
{
    match all_files(alloc, registry, at) {
        Ok(files) => match refuse(alloc, files.as_slice()) {
            Ok(()) => Ok(files),
            Err(fault) => Err(fault),
        },
        Err(stop) => Err(stop),
    }
}

fn all_files<R: ReadFs>(alloc: Global, registry: &mut R, at: &AbsPath) -> Result<Files, FilesFault>
    requires folder { ForSome (R.seen registry.old).tree (λ t. t at.now ≡ Some folder) }
    requires deep { at.now ≢ [] }
    ensures files { IfSome (R.seen registry.old).tree (λ t. IfOk result (IsFilesOf t at.now)) }
    ensures few { IfSome (R.seen registry.old).tree (λ t. OnOk result (HasFew t at.now entry_limit)) }
    ensures apart { IfOk result AreApart }
    ensures short { IfOk result (All (IsShortBelow at.now)) }
    ensures lines { IfOk result (All IsOneLine) }
    ensures gave_few { IfSome (R.seen registry.old).tree (λ t. OnOk result (GaveAtMost (R.seen registry.old) 0 ENTRY_LIMIT (R.seen registry.new))) }
    ensures gave { IfSome (R.seen registry.old).tree (λ t. GaveListings t at.now ENTRY_LIMIT (R.seen registry.old) (R.seen registry.new)) }
    ensures kept { Keeps (R.seen registry.old) (R.seen registry.new) }
    ensures fault { IfErr result (NotWalked at.now (R.seen registry.old) (R.seen registry.new)) }
{
    match walk(alloc, registry, at, ENTRY_LIMIT) {
        Ok(found) => match in_order_apart(alloc, found) {
            Ok(files) => Ok(files),
            Err(_) => Err(FilesFault::Memory),
        },
        Err(WalkFault::Entries) => Err(FilesFault::Entries),
        Err(WalkFault::Fault) => Err(FilesFault::Fault),
        Err(WalkFault::Memory) => Err(FilesFault::Memory),
    }
}

// Refuses the first file with a part `node_modules`, else the first that is too long.
fn refuse(alloc: Global, files: &[PackageFile]) -> Result<(), FilesFault>
    ensures clean { OnOk result (IsPassed (map file_of files.now)) }
    ensures named { IfErr result (IsNamed (map file_of files.now)) }
{
    refuse_modules(alloc, files)?;
    refuse_large(alloc, files)
}

fn refuse_modules(alloc: Global, files: &[PackageFile]) -> Result<(), FilesFault>
    ensures none { OnOk result (find is_modular (map file_of files.now) ≡ None) }
    ensures first { IfErr result (IsModular (find is_modular (map file_of files.now))) }
{
    for file in files {
        if file.path.has_modules() {
            let path = file.path.copy(alloc)?;
            return Err(FilesFault::Modules(path));
        }
    }
    Ok(())
}

fn refuse_large(alloc: Global, files: &[PackageFile]) -> Result<(), FilesFault>
    ensures none { OnOk result (find is_large (map file_of files.now) ≡ None) }
    ensures first { IfErr result (IsLong (find is_large (map file_of files.now))) }
{
    for file in files {
        if file.length > FILE_LIMIT {
            let path = file.path.copy(alloc)?;
            return Err(FilesFault::TooLarge(path, file.length));
        }
    }
    Ok(())
}

impl From<Memory> for FilesFault {
    ghost use Rattle.std.specs.Prelude.{◌≡◌};
    ghost use Rattle.pn_registry.specs.declared.contents.FilesFault.TheVariants.{Memory as no_memory};

    ghost from_gives = { λ _ e. e ≡ no_memory };

    fn from(_: Memory) -> Self {
        FilesFault::Memory
    }
}
