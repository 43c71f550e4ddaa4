// Walks through a folder and all folders below it.
ghost use Rattle.std.specs.Prelude.{◌≡◌, ◌≢◌, ◌+◌, ◌≤◌, ◌++◌, ◌∷◌, [], OnOk, OnErr, IfOk, IfErr, IfSome, Some, length, map, vec_len, drop, ◌^◌, ◌<◌, ℕ, List, if◌then◌else◌};
ghost use Rattle.std.specs.Option.{ForSome};
ghost use Rattle.std.specs.List.{All};
ghost use Rattle.pn_text.specs.Path.{path_text};
ghost use Rattle.pn_text.specs.declared.limits.TheConstants.{PATH_LIMIT};
ghost use Rattle.pn_fs.specs.Tree.{folder};
ghost use Rattle.pn_fs.specs.Seen.{Keeps, GaveNothing, GaveNames, GaveAtMost};
ghost use Rattle.pn_fs.specs.Calls.{IsListing, IsEntryName};
ghost use Rattle.pn_registry.specs.Files.{IsFilesOf, holds_line_feed};
ghost use Rattle.pn_registry.specs.Below.{IsWithin, AllWithin, HasFew};
ghost use Rattle.pn_registry.specs.Listed.{file_of, placed, IsFitFile};
ghost use Rattle.pn_registry.specs.Turns.{path_from, Takes, TakesAll, Lists, ListRefused, CallRefused, WalkRefused, GaveListings};

use crate::list::PackageFile;
use pn_fs::{Kind, ReadFs};
use pn_text::{AbsPath, DevFault, Memory, PathFault, RelPath, Text};
use std::alloc::{AllocFailed, Global};
use thiserror::Error;

/// Why a walk stopped: too many entries, a failed call, no memory.
#[derive(Clone, Copy, Debug, PartialEq, Eq, Error)]
pub enum WalkFault {
    #[error("there are too many entries")]
    Entries,
    #[error("a call failed")]
    Fault,
    #[error("out of memory")]
    Memory,
}

/// All the files below a folder other than `/`, in no order, but for those with a line feed in their path there,
/// where at most `limit` entries are below it.
pub fn walk<R: ReadFs>(
    alloc: Global,
    registry: &mut R,
    at: &AbsPath,
    limit: u64,
) -> Result<Vec<PackageFile>, WalkFault>
    requires folder { ForSome (R.seen registry.old).tree (λ t. t at.now ≡ Some folder) }
    requires deep { at.now ≢ [] }
    requires small { limit < 2 ^ 40 }
    ensures files { IfSome (R.seen registry.old).tree (λ t. IfOk result (λ v. IsFilesOf t at.now (map file_of v.items))) }
    ensures few { IfSome (R.seen registry.old).tree (λ t. OnOk result (HasFew t at.now limit)) }
    ensures fit { IfOk result (λ v. All (IsFitFile at.now) v.items) }
    ensures gave_few { IfSome (R.seen registry.old).tree (λ t. OnOk result (GaveAtMost (R.seen registry.old) 0 limit (R.seen registry.new))) }
    ensures gave { IfSome (R.seen registry.old).tree (λ t. GaveListings t at.now limit (R.seen registry.old) (R.seen registry.new)) }
    ensures kept { Keeps (R.seen registry.old) (R.seen registry.new) }
    ensures fault { IfErr result (WalkRefused (R.seen registry.old) (R.seen registry.new) at.now limit) }
{
    let mut todo = Vec::new(alloc);
    let first = at.copy(alloc)?;
    todo.push(first)?;
    let mut found = Vec::new(alloc);
    let mut listed = 0;
    'folders: while let Some(folder) = todo.pop() {
        let room = limit - listed;
        match list_folder(alloc, registry, at, &folder, room, &mut todo, &mut found) {
            Ok(count) => listed += count,
            Err(fault) => return Err(fault),
        }
    }
    Ok(found)
}

// Lists a folder, and takes each of its entries in.
fn list_folder<R: ReadFs>(
    alloc: Global,
    registry: &mut R,
    at: &AbsPath,
    parent: &AbsPath,
    room: u64,
    todo: &mut Vec<AbsPath>,
    found: &mut Vec<PackageFile>,
) -> Result<u64, WalkFault>
    requires folder { ForSome (R.seen registry.old).tree (λ t. t parent.now ≡ Some folder) }
    requires deep { at.now ≢ [] }
    requires within { IsWithin at.now parent.now }
    requires all_within { AllWithin at.now todo.old.items }
    requires fit { All (IsFitFile at.now) found.old.items }
    ensures lists { IfSome (R.seen registry.old).tree (λ t. IfOk result (λ n. Lists t at.now parent.now n todo.old.items todo.new.items (map (placed at.now) found.old.items) (map (placed at.now) found.new.items))) }
    ensures room { IfOk result (λ n. n ≤ room) }
    ensures grows { IfOk result (λ n. vec_len todo.new ≤ vec_len todo.old + n) }
    ensures all_within { OnOk result (AllWithin at.now todo.new.items) }
    ensures fit { OnOk result (All (IsFitFile at.now) found.new.items) }
    ensures gave_names { IfSome (R.seen registry.old).tree (λ t. IfOk result (λ n. GaveAtMost (R.seen registry.old) 0 n (R.seen registry.new))) }
    ensures gave { IfSome (R.seen registry.old).tree (λ t. GaveListings t at.now 0 (R.seen registry.old) (R.seen registry.new)) }
    ensures kept { Keeps (R.seen registry.old) (R.seen registry.new) }
    ensures fault { IfErr result (ListRefused (R.seen registry.old) (R.seen registry.new) parent.now room) }
{
    let names = names_of(registry, parent)?;
    let count = names.len() as u64;
    if count > room {
        return Err(WalkFault::Entries);
    }
    take_all(alloc, registry, at, parent, names.as_slice(), todo, found)?;
    Ok(count)
}

fn names_of<R: ReadFs>(registry: &mut R, parent: &AbsPath) -> Result<Vec<Text>, WalkFault>
    requires folder { ForSome (R.seen registry.old).tree (λ t. t parent.now ≡ Some folder) }
    ensures names { IfSome (R.seen registry.old).tree (λ t. IfOk result (λ names. IsListing t parent.now names.items)) }
    ensures good { IfOk result (λ names. All (IsEntryName parent.now) names.items) }
    ensures gave_names { IfSome (R.seen registry.old).tree (λ t. IfOk result (λ names. GaveNames (R.seen registry.old) (length names.items) (R.seen registry.new))) }
    ensures gave_none { IfSome (R.seen registry.old).tree (λ t. OnErr result (GaveNothing (R.seen registry.old) (R.seen registry.new))) }
    ensures kept { Keeps (R.seen registry.old) (R.seen registry.new) }
    ensures fault { IfErr result (CallRefused (R.seen registry.old) (R.seen registry.new)) }
{
    match registry.list(parent) {
        Ok(names) => Ok(names),
        Err(DevFault::Failed) => Err(WalkFault::Fault),
        Err(DevFault::Memory) => Err(WalkFault::Memory),
    }
}

fn take_all<R: ReadFs>(
    alloc: Global,
    registry: &mut R,
    at: &AbsPath,
    parent: &AbsPath,
    names: &[Text],
    todo: &mut Vec<AbsPath>,
    found: &mut Vec<PackageFile>,
) -> Result<(), WalkFault>
    requires good { All (IsEntryName parent.now) names.now }
    requires deep { at.now ≢ [] }
    requires within { IsWithin at.now parent.now }
    requires all_within { AllWithin at.now todo.old.items }
    requires fit { All (IsFitFile at.now) found.old.items }
    ensures takes { IfSome (R.seen registry.old).tree (λ t. OnOk result (TakesAll t at.now parent.now names.now todo.old.items todo.new.items (map (placed at.now) found.old.items) (map (placed at.now) found.new.items))) }
    ensures grows { OnOk result (vec_len todo.new ≤ vec_len todo.old + length names.now) }
    ensures all_within { OnOk result (AllWithin at.now todo.new.items) }
    ensures fit { OnOk result (All (IsFitFile at.now) found.new.items) }
    ensures gave { IfSome (R.seen registry.old).tree (λ t. GaveAtMost (R.seen registry.old) 0 0 (R.seen registry.new)) }
    ensures kept { Keeps (R.seen registry.old) (R.seen registry.new) }
    ensures fault { IfErr result (CallRefused (R.seen registry.old) (R.seen registry.new)) }
{
    for name in names {
        take(alloc, registry, at, parent, name.as_str(), todo, found)?;
    }
    Ok(())
}

// A folder is to be listed, a file is found, and a link is passed over, as a file with a line feed in its path is.
fn take<R: ReadFs>(
    alloc: Global,
    registry: &mut R,
    at: &AbsPath,
    parent: &AbsPath,
    name: &str,
    todo: &mut Vec<AbsPath>,
    found: &mut Vec<PackageFile>,
) -> Result<(), WalkFault>
    requires good { IsEntryName parent.now name.now }
    requires deep { at.now ≢ [] }
    requires within { IsWithin at.now parent.now }
    requires all_within { AllWithin at.now todo.old.items }
    requires fit { All (IsFitFile at.now) found.old.items }
    ensures takes { IfSome (R.seen registry.old).tree (λ t. OnOk result (Takes t at.now parent.now name.now todo.old.items todo.new.items (map (placed at.now) found.old.items) (map (placed at.now) found.new.items))) }
    ensures grows { OnOk result (vec_len todo.new ≤ vec_len todo.old + 1) }
    ensures all_within { OnOk result (AllWithin at.now todo.new.items) }
    ensures fit { OnOk result (All (IsFitFile at.now) found.new.items) }
    ensures gave { IfSome (R.seen registry.old).tree (λ t. GaveNothing (R.seen registry.old) (R.seen registry.new)) }
    ensures kept { Keeps (R.seen registry.old) (R.seen registry.new) }
    ensures fault { IfErr result (CallRefused (R.seen registry.old) (R.seen registry.new)) }
{
    let path = child(alloc, parent, name)?;
    match registry.kind(&path) {
        Ok(Kind::Folder) => push_folder(todo, path),
        Ok(Kind::File(length)) => push_file(alloc, at, &path, length, found),
        Ok(_) => Ok(()),
        Err(DevFault::Failed) => Err(WalkFault::Fault),
        Err(DevFault::Memory) => Err(WalkFault::Memory),
    }
}

fn child(alloc: Global, parent: &AbsPath, name: &str) -> Result<AbsPath, WalkFault>
    requires { IsEntryName parent.now name.now }
    ensures path { IfOk result (λ p. p ≡ name.now ∷ parent.now) }
    ensures memory { IfErr result (λ e. e ≡ WalkFault.Memory) }
{
    match parent.child(alloc, name) {
        Ok(path) => Ok(path),
        Err(PathFault::Memory) => Err(WalkFault::Memory),
        Err(_) => unreachable!(),
    }
}

fn push_folder(todo: &mut Vec<AbsPath>, path: AbsPath) -> Result<(), WalkFault>
    ensures items { OnOk result (todo.new.items ≡ todo.old.items ++ path ∷ []) }
    ensures len { OnOk result (vec_len todo.new ≡ vec_len todo.old + 1) }
    ensures memory { IfErr result (λ e. e ≡ WalkFault.Memory) }
{
    todo.push(path)?;
    Ok(())
}

fn push_file(
    alloc: Global,
    at: &AbsPath,
    path: &AbsPath,
    length: u64,
    found: &mut Vec<PackageFile>,
) -> Result<(), WalkFault>
    requires deep { at.now ≢ [] }
    requires within { IsWithin at.now path.now }
    requires below { path.now ≢ at.now }
    requires fit { All (IsFitFile at.now) found.old.items }
    ensures items { OnOk result (map (placed at.now) found.new.items ≡ map (placed at.now) found.old.items ++ (if holds_line_feed (path_from at.now path.now) then [] else (path.now, length) ∷ [])) }
    ensures fit { OnOk result (All (IsFitFile at.now) found.new.items) }
    ensures memory { IfErr result (λ e. e ≡ WalkFault.Memory) }
{
    let path = below(alloc, at, path)?;
    if has_line_feed(&path) {
        return Ok(());
    }
    found.push(PackageFile { path, length })?;
    Ok(())
}

fn has_line_feed(path: &RelPath) -> bool
    ensures { result ≡ holds_line_feed path.now }
{
    path.as_str().as_bytes().contains(&b'\n')
}

// The path of an entry from a folder above it.
fn below(alloc: Global, at: &AbsPath, path: &AbsPath) -> Result<RelPath, WalkFault>
    requires deep { at.now ≢ [] }
    requires within { IsWithin at.now path.now }
    requires below { path.now ≢ at.now }
    ensures path { IfOk result (λ p. path.now ≡ p ++ at.now) }
    ensures short { IfOk result (λ p. length (path_text (p ++ at.now)) ≤ PATH_LIMIT) }
    ensures memory { IfErr result (λ e. e ≡ WalkFault.Memory) }
{
    let rest = behind(path.as_str(), at.as_str().len());
    match RelPath::read(alloc, rest) {
        Ok(path) => Ok(path),
        Err(_) => Err(WalkFault::Memory),
    }
}

// What stands behind the slash at a place of a text.
fn behind(text: &str, at: usize) -> &str
    requires { (rest : List ℕ) × (drop at text.now ≡ 47 ∷ rest) }
    ensures { drop at text.now ≡ 47 ∷ result.now }
{
    let (_, rest) = text.split_at(at);
    match rest.strip_prefix('/') {
        Some(behind) => behind,
        None => rest,
    }
}

impl From<Memory> for WalkFault {
    ghost use Rattle.std.specs.Prelude.{◌≡◌};
    ghost use Rattle.pn_registry.specs.declared.walk.WalkFault.TheVariants.{Memory as no_memory};

    ghost from_gives = { λ _ e. e ≡ no_memory };

    fn from(_: Memory) -> Self {
        WalkFault::Memory
    }
}

impl<T: Drop> From<AllocFailed<T>> for WalkFault {
    ghost use Rattle.std.specs.Prelude.{◌≡◌};
    ghost use Rattle.pn_registry.specs.declared.walk.WalkFault.TheVariants.{Memory as no_memory};

    ghost from_gives = { λ _ e. e ≡ no_memory };

    fn from(_: AllocFailed<T>) -> Self {
        WalkFault::Memory
    }
}
