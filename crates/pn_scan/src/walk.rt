// A walk through managed folders and all folders below them.
ghost use Rattle.std.specs.Prelude.{◌≡◌, ◌+◌, ◌≤◌, ◌++◌, ◌∷◌, [], OnOk, OnErr, IfOk, IfErr, IfSome, Some, length, vec_len};
ghost use Rattle.std.specs.Option.{ForSome};
ghost use Rattle.std.specs.List.{All};
ghost use Rattle.pn_text.specs.declared.limits.TheConstants.{ENTRY_LIMIT};
ghost use Rattle.pn_fs.specs.Tree.{folder};
ghost use Rattle.pn_fs.specs.Seen.{Keeps, GaveNothing, GaveNames, GaveAtMost};
ghost use Rattle.pn_fs.specs.Calls.{IsListing, IsEntryName};
ghost use Rattle.pn_scan.specs.Managed.{AreApart};
ghost use Rattle.pn_scan.specs.ScanFaults.{IsDistinct};
ghost use Rattle.pn_scan.specs.Looks.{AreLooked, CallRefused, GaveListing, GaveListings};
ghost use Rattle.pn_scan.specs.Turns.{FindsBelow, ListRefused, Lists, Takes, TakesAll, WalkRefused};

use crate::fault::ScanFault;
use crate::ours::{Ours, push_entry, push_path};
use pn_fs::{Kind, ReadFs};
use pn_text::{AbsPath, DevFault, ENTRY_LIMIT, PathFault, Text};
use std::alloc::Global;

/// The managed folders that stand, and all entries below them, in no order, each folder listed once.
pub fn walk<P: ReadFs>(
    alloc: Global,
    fs: &mut P,
    managed: &[(AbsPath, Text)],
    ours: Ours,
) -> Result<Vec<(AbsPath, Kind)>, ScanFault>
    requires apart { AreApart managed.now }
    requires looked { ForSome (P.seen fs.old).tree (λ t. AreLooked t managed.now ours.marked.items ours.standing.items) }
    requires once { ForSome (P.seen fs.old).tree (λ t. IsDistinct ours.marked.items) }
    ensures below { IfSome (P.seen fs.old).tree (λ t. IfOk result (λ v. FindsBelow t managed.now ours.standing.items v.items)) }
    ensures gave_few { IfSome (P.seen fs.old).tree (λ t. OnOk result (GaveAtMost (P.seen fs.old) 0 ENTRY_LIMIT (P.seen fs.new))) }
    ensures gave { IfSome (P.seen fs.old).tree (λ t. GaveListings t managed.now 0 ENTRY_LIMIT (P.seen fs.old) (P.seen fs.new)) }
    ensures kept { Keeps (P.seen fs.old) (P.seen fs.new) }
    ensures fault { IfErr result (WalkRefused managed.now (P.seen fs.old) (P.seen fs.new)) }
{
    let mut todo = ours.marked;
    let mut found = ours.standing;
    let mut listed = 0;
    'folders: while let Some(folder) = todo.pop() {
        let room = ENTRY_LIMIT - listed;
        match list_folder(alloc, fs, &folder, room, &mut todo, &mut found) {
            Ok(count) => listed += count,
            Err(fault) => return Err(fault),
        }
    }
    // the folders are there for the contract alone
    let _ = managed;
    Ok(found)
}

// Lists a folder, and takes each of its entries in.
fn list_folder<P: ReadFs>(
    alloc: Global,
    fs: &mut P,
    parent: &AbsPath,
    room: u64,
    todo: &mut Vec<AbsPath>,
    found: &mut Vec<(AbsPath, Kind)>,
) -> Result<u64, ScanFault>
    requires { ForSome (P.seen fs.old).tree (λ t. t parent.now ≡ Some folder) }
    ensures lists { IfSome (P.seen fs.old).tree (λ t. IfOk result (λ n. Lists t parent.now n todo.old.items todo.new.items found.old.items found.new.items)) }
    ensures room { IfOk result (λ n. n ≤ room) }
    ensures grows { IfOk result (λ n. vec_len todo.new ≤ vec_len todo.old + n) }
    ensures gave_names { IfSome (P.seen fs.old).tree (λ t. IfOk result (λ n. GaveAtMost (P.seen fs.old) 0 n (P.seen fs.new))) }
    ensures gave { IfSome (P.seen fs.old).tree (λ t. GaveListing t parent.now 0 (P.seen fs.old) (P.seen fs.new)) }
    ensures kept { Keeps (P.seen fs.old) (P.seen fs.new) }
    ensures fault { IfErr result (ListRefused parent.now room (P.seen fs.old) (P.seen fs.new)) }
{
    let names = names_of(fs, parent)?;
    let count = names.len() as u64;
    if count > room {
        return Err(ScanFault::Entries);
    }
    take_all(alloc, fs, parent, names.as_slice(), todo, found)?;
    Ok(count)
}

fn names_of<P: ReadFs>(fs: &mut P, parent: &AbsPath) -> Result<Vec<Text>, ScanFault>
    requires { ForSome (P.seen fs.old).tree (λ t. t parent.now ≡ Some folder) }
    ensures names { IfSome (P.seen fs.old).tree (λ t. IfOk result (λ names. IsListing t parent.now names.items)) }
    ensures good { IfOk result (λ names. All (IsEntryName parent.now) names.items) }
    ensures gave_names { IfSome (P.seen fs.old).tree (λ t. IfOk result (λ names. GaveNames (P.seen fs.old) (length names.items) (P.seen fs.new))) }
    ensures gave_none { IfSome (P.seen fs.old).tree (λ t. OnErr result (GaveNothing (P.seen fs.old) (P.seen fs.new))) }
    ensures kept { Keeps (P.seen fs.old) (P.seen fs.new) }
    ensures fault { IfErr result (CallRefused (P.seen fs.old) (P.seen fs.new)) }
{
    match fs.list(parent) {
        Ok(names) => Ok(names),
        Err(DevFault::Failed) => Err(ScanFault::Fault),
        Err(DevFault::Memory) => Err(ScanFault::Memory),
    }
}

fn take_all<P: ReadFs>(
    alloc: Global,
    fs: &mut P,
    parent: &AbsPath,
    names: &[Text],
    todo: &mut Vec<AbsPath>,
    found: &mut Vec<(AbsPath, Kind)>,
) -> Result<(), ScanFault>
    requires good { All (IsEntryName parent.now) names.now }
    ensures takes { IfSome (P.seen fs.old).tree (λ t. OnOk result (TakesAll t parent.now names.now todo.old.items todo.new.items found.old.items found.new.items)) }
    ensures grows { OnOk result (vec_len todo.new ≤ vec_len todo.old + length names.now) }
    ensures gave { IfSome (P.seen fs.old).tree (λ t. GaveAtMost (P.seen fs.old) 0 0 (P.seen fs.new)) }
    ensures kept { Keeps (P.seen fs.old) (P.seen fs.new) }
    ensures fault { IfErr result (CallRefused (P.seen fs.old) (P.seen fs.new)) }
{
    for name in names {
        take(alloc, fs, parent, name.as_str(), todo, found)?;
    }
    Ok(())
}

// An entry is found, and a folder is to be listed besides. A link isn't followed.
fn take<P: ReadFs>(
    alloc: Global,
    fs: &mut P,
    parent: &AbsPath,
    name: &str,
    todo: &mut Vec<AbsPath>,
    found: &mut Vec<(AbsPath, Kind)>,
) -> Result<(), ScanFault>
    requires good { IsEntryName parent.now name.now }
    ensures takes { IfSome (P.seen fs.old).tree (λ t. OnOk result (Takes t parent.now name.now todo.old.items todo.new.items found.old.items found.new.items)) }
    ensures grows { OnOk result (vec_len todo.new ≤ vec_len todo.old + 1) }
    ensures gave { IfSome (P.seen fs.old).tree (λ t. GaveNothing (P.seen fs.old) (P.seen fs.new)) }
    ensures kept { Keeps (P.seen fs.old) (P.seen fs.new) }
    ensures fault { IfErr result (CallRefused (P.seen fs.old) (P.seen fs.new)) }
{
    let path = child(alloc, parent, name)?;
    match fs.kind(&path) {
        Ok(Kind::Absent) => Ok(()),
        Ok(Kind::Folder) => {
            push_path(alloc, &path, todo)?;
            push_entry(path, Kind::Folder, found)
        }
        Ok(kind) => push_entry(path, kind, found),
        Err(DevFault::Failed) => Err(ScanFault::Fault),
        Err(DevFault::Memory) => Err(ScanFault::Memory),
    }
}

fn child(alloc: Global, parent: &AbsPath, name: &str) -> Result<AbsPath, ScanFault>
    requires { IsEntryName parent.now name.now }
    ensures path { IfOk result (λ p. p ≡ name.now ∷ parent.now) }
    ensures memory { IfErr result (λ e. e ≡ ScanFault.Memory) }
{
    match parent.child(alloc, name) {
        Ok(path) => Ok(path),
        Err(PathFault::Memory) => Err(ScanFault::Memory),
        Err(_) => unreachable!(),
    }
}
