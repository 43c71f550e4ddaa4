// The versions that a name's folder has.
ghost use Rattle.std.specs.Prelude.{◌≡◌, ◌≤◌, ◌∷◌, ◌++◌, [], IfOk, IfErr, IfSome, OnOk, IsTrue, Some, map, length, vec_len, option_map, option_to_list};
ghost use Rattle.std.specs.List.{All};
ghost use Rattle.semver.specs.Identifiers.{parts_of};
ghost use Rattle.pn_text.specs.declared.limits.TheConstants.{ENTRY_LIMIT};
ghost use Rattle.pn_text.specs.Ids.{parts_text};
ghost use Rattle.pn_fs.specs.Seen.{Keeps, GaveNothing, GaveAtMost};
ghost use Rattle.pn_fs.specs.Calls.{IsListing, IsEntryName};
ghost use Rattle.pn_published.specs.Shelves.{AreVersions, HasFew};
ghost use Rattle.pn_published.specs.Versions.{AreParsed};
ghost use Rattle.pn_published.specs.Folders.{is_folder, version_at, versions_at, ListsOnce};
ghost use Rattle.pn_published.specs.Refusals.{ListRefused, CallRefused};

use crate::fault::PublishedFault;
use crate::order::in_order;
use crate::published::Versions;
use pn_fs::{Kind, ReadFs};
use pn_text::{AbsPath, DevFault, ENTRY_LIMIT, Memory, PathFault, Text};
use semver::Version;
use std::alloc::{AllocError, Global};

/// The versions that folders below this one are called by.
pub fn read_versions<R: ReadFs>(
    alloc: Global,
    registry: &mut R,
    folder: &AbsPath,
) -> Result<Versions, PublishedFault>
    ensures versions { IfSome (R.seen registry.old).tree (λ t. IfOk result (AreVersions t folder.now)) }
    ensures few { IfSome (R.seen registry.old).tree (λ t. OnOk result (HasFew t folder.now)) }
    ensures gave_few { IfSome (R.seen registry.old).tree (λ t. OnOk result (GaveAtMost (R.seen registry.old) 0 ENTRY_LIMIT (R.seen registry.new))) }
    ensures gave { IfSome (R.seen registry.old).tree (λ t. ListsOnce t folder.now 0 (R.seen registry.old) (R.seen registry.new)) }
    ensures kept { Keeps (R.seen registry.old) (R.seen registry.new) }
    ensures fault { IfErr result (ListRefused folder.now (R.seen registry.old) (R.seen registry.new)) }
{
    let names = names_of(alloc, registry, folder)?;
    let found = versions_at(alloc, registry, folder, names.as_slice())?;
    let items = in_order(found)?;
    Ok(Versions::of(items))
}

// The names of the entries; none where no folder stands.
fn names_of<R: ReadFs>(
    alloc: Global,
    registry: &mut R,
    folder: &AbsPath,
) -> Result<Vec<Text>, PublishedFault>
    ensures names { IfSome (R.seen registry.old).tree (λ t. IfOk result (λ names. IsListing t folder.now names.items)) }
    ensures good { IfOk result (λ names. All (IsEntryName folder.now) names.items) }
    ensures few { IfOk result (λ names. length names.items ≤ ENTRY_LIMIT) }
    ensures gave_few { IfSome (R.seen registry.old).tree (λ t. OnOk result (GaveAtMost (R.seen registry.old) 0 ENTRY_LIMIT (R.seen registry.new))) }
    ensures gave { IfSome (R.seen registry.old).tree (λ t. ListsOnce t folder.now 0 (R.seen registry.old) (R.seen registry.new)) }
    ensures kept { Keeps (R.seen registry.old) (R.seen registry.new) }
    ensures fault { IfErr result (ListRefused folder.now (R.seen registry.old) (R.seen registry.new)) }
{
    if !is_folder(registry, folder)? {
        return Ok(Vec::new(alloc));
    }
    match registry.list(folder) {
        Ok(names) if names.len() as u64 <= ENTRY_LIMIT => Ok(names),
        Ok(_) => Err(PublishedFault::Entries),
        Err(DevFault::Failed) => Err(PublishedFault::Fault),
        Err(DevFault::Memory) => Err(PublishedFault::Memory),
    }
}

fn versions_at<R: ReadFs>(
    alloc: Global,
    registry: &mut R,
    folder: &AbsPath,
    names: &[Text],
) -> Result<Vec<Version>, PublishedFault>
    requires good { All (IsEntryName folder.now) names.now }
    ensures versions { IfSome (R.seen registry.old).tree (λ t. IfOk result (λ v. map parts_of v.items ≡ versions_at t folder.now names.now)) }
    ensures few { IfOk result (λ v. vec_len v ≤ length names.now) }
    ensures parsed { IfOk result (λ v. AreParsed (map parts_of v.items)) }
    ensures gave { IfSome (R.seen registry.old).tree (λ t. GaveAtMost (R.seen registry.old) 0 0 (R.seen registry.new)) }
    ensures kept { Keeps (R.seen registry.old) (R.seen registry.new) }
    ensures fault { IfErr result (CallRefused (R.seen registry.old) (R.seen registry.new)) }
{
    let mut found = Vec::new(alloc);
    for name in names {
        let version = version_at(alloc, registry, folder, name.as_str())?;
        put(&mut found, version)?;
    }
    Ok(found)
}

fn put(found: &mut Vec<Version>, version: Option<Version>) -> Result<(), Memory>
    ensures items { OnOk result (found.new.items ≡ found.old.items ++ option_to_list version) }
{
    if let Some(version) = version {
        found.push(version)?;
    }
    Ok(())
}

// The version that a folder is called by.
fn version_at<R: ReadFs>(
    alloc: Global,
    registry: &mut R,
    folder: &AbsPath,
    name: &str,
) -> Result<Option<Version>, PublishedFault>
    requires { IsEntryName folder.now name.now }
    ensures version { IfSome (R.seen registry.old).tree (λ t. IfOk result (λ v. option_map parts_of v ≡ version_at t folder.now name.now)) }
    ensures parsed { IfOk result (λ v. AreParsed (map parts_of (option_to_list v))) }
    ensures gave { IfSome (R.seen registry.old).tree (λ t. GaveNothing (R.seen registry.old) (R.seen registry.new)) }
    ensures kept { Keeps (R.seen registry.old) (R.seen registry.new) }
    ensures fault { IfErr result (CallRefused (R.seen registry.old) (R.seen registry.new)) }
{
    let path = child(alloc, folder, name)?;
    if is_folder(registry, &path)? {
        Ok(parse_version(alloc, name)?)
    } else {
        Ok(None)
    }
}

/// The path of an entry.
pub fn child(alloc: Global, folder: &AbsPath, name: &str) -> Result<AbsPath, Memory>
    requires { IsEntryName folder.now name.now }
    ensures { IfOk result (λ p. p ≡ name.now ∷ folder.now) }
{
    match folder.child(alloc, name) {
        Ok(path) => Ok(path),
        Err(PathFault::Memory) => Err(Memory),
        Err(_) => unreachable!(),
    }
}

fn is_folder<R: ReadFs>(registry: &mut R, path: &AbsPath) -> Result<bool, PublishedFault>
    ensures folder { IfSome (R.seen registry.old).tree (λ t. IfOk result (λ is. is ≡ is_folder (t path.now))) }
    ensures gave { IfSome (R.seen registry.old).tree (λ t. GaveNothing (R.seen registry.old) (R.seen registry.new)) }
    ensures kept { Keeps (R.seen registry.old) (R.seen registry.new) }
    ensures fault { IfErr result (CallRefused (R.seen registry.old) (R.seen registry.new)) }
{
    match registry.kind(path) {
        Ok(Kind::Folder) => Ok(true),
        Ok(_) => Ok(false),
        Err(DevFault::Failed) => Err(PublishedFault::Fault),
        Err(DevFault::Memory) => Err(PublishedFault::Memory),
    }
}

/// The version that a text is, or none.
pub fn parse_version(alloc: Global, text: &str) -> Result<Option<Version>, Memory>
    ensures { IfOk result (λ found. option_map parts_of found ≡ parts_text text.now) }
{
    match Version::parse(alloc, text) {
        Ok(version) => Ok(Some(version)),
        Err(e) if e == semver::Error::from(AllocError) => Err(Memory),
        Err(_) => Ok(None),
    }
}
