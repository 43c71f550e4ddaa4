// Whether managed folders are the installer's.
ghost use Rattle.std.specs.Prelude.{◌≡◌, ◌+◌, ◌++◌, ◌∷◌, [], IfOk, IfErr, IfSome, OnOk, OnErr, Some, None, length, vec_len};
ghost use Rattle.std.specs.Option.{ForSome};
ghost use Rattle.std.specs.Bool.{MatchBool, OnTrue};
ghost use Rattle.pn_fs.specs.Calls.{kind_of};
ghost use Rattle.pn_fs.specs.Seen.{Keeps, GaveNothing, GaveAtMost};
ghost use Rattle.pn_fs.specs.Tree.{folder};
ghost use Rattle.pn_scan.specs.Managed.{AreApart, HasEntry};
ghost use Rattle.pn_scan.specs.Looks.{AreLooked, CallRefused, GaveListing, GaveListings, IsLook, LookRefused, OursRefused, PathRefused, StandsOrNot, marked_at, marker_bytes, standing_at, ups};
ghost use Rattle.pn_scan.specs.ScanFaults.{IsDistinct};

use crate::fault::ScanFault;
use crate::marker::is_marked;
use pn_fs::{Kind, ReadFs};
use pn_text::{AbsPath, DevFault, Text};
use std::alloc::Global;

/// What stands at a managed folder: nothing; a folder that is empty and lacks its marker; or one that has it.
#[derive(Clone, Copy, Debug, PartialEq, Eq)]
pub enum Standing {
    Absent,
    Empty,
    Marked,
}

/// The managed folders whose entries are to be listed, and all of them that stand.
#[derive(Drop)]
pub struct Ours {
    pub marked: Vec<AbsPath>,
    pub standing: Vec<(AbsPath, Kind)>,
}

/// Looks at the folders in their order, and refuses the first that isn't the installer's.
pub fn look_at_all<P: ReadFs>(
    alloc: Global,
    fs: &mut P,
    managed: &[(AbsPath, Text)],
) -> Result<Ours, ScanFault>
    requires apart { AreApart managed.now }
    ensures looked { IfSome (P.seen fs.old).tree (λ t. IfOk result (λ o. AreLooked t managed.now o.marked.items o.standing.items)) }
    ensures once { IfSome (P.seen fs.old).tree (λ t. IfOk result (λ o. IsDistinct o.marked.items)) }
    ensures gave_few { IfSome (P.seen fs.old).tree (λ t. OnOk result (GaveAtMost (P.seen fs.old) (marker_bytes managed.now) 0 (P.seen fs.new))) }
    ensures gave { IfSome (P.seen fs.old).tree (λ t. GaveListings t managed.now (marker_bytes managed.now) 0 (P.seen fs.old) (P.seen fs.new)) }
    ensures kept { Keeps (P.seen fs.old) (P.seen fs.new) }
    ensures fault { IfErr result (OursRefused managed.now (P.seen fs.old) (P.seen fs.new)) }
{
    let mut marked = Vec::new(alloc);
    let mut standing = Vec::new(alloc);
    for one in managed {
        let state = match look_at(alloc, fs, &one.0, one.1.as_str()) {
            Ok(state) => state,
            Err(fault) => return Err(fault),
        };
        take_in(alloc, &one.0, state, &mut marked, &mut standing)?;
    }
    Ok(Ours { marked, standing })
}

fn look_at<P: ReadFs>(
    alloc: Global,
    fs: &mut P,
    folder: &AbsPath,
    text: &str,
) -> Result<Standing, ScanFault>
    ensures looked { IfSome (P.seen fs.old).tree (λ t. IfOk result (IsLook t (folder.now, text.now))) }
    ensures gave_few { IfSome (P.seen fs.old).tree (λ t. OnOk result (GaveAtMost (P.seen fs.old) (length text.now + 1) 0 (P.seen fs.new))) }
    ensures gave { IfSome (P.seen fs.old).tree (λ t. GaveListing t folder.now (length text.now + 1) (P.seen fs.old) (P.seen fs.new)) }
    ensures kept { Keeps (P.seen fs.old) (P.seen fs.new) }
    ensures fault { IfErr result (LookRefused (folder.now, text.now) (P.seen fs.old) (P.seen fs.new)) }
{
    let there = match stands(alloc, fs, folder) {
        Ok(there) => there,
        Err(fault) => return Err(fault),
    };
    if !there {
        return Ok(Standing::Absent);
    }
    let marked = is_marked(alloc, fs, folder, text)?;
    if marked {
        return Ok(Standing::Marked);
    }
    let empty = is_empty(fs, folder)?;
    if empty {
        return Ok(Standing::Empty);
    }
    let path = folder.copy(alloc)?;
    Err(ScanFault::Foreign(path))
}

// Whether a folder stands there: each path above it, from `/` on, and then its own is asked for its kind.
fn stands<P: ReadFs>(alloc: Global, fs: &mut P, path: &AbsPath) -> Result<bool, ScanFault>
    ensures stands { IfSome (P.seen fs.old).tree (λ t. IfOk result (StandsOrNot t path.now)) }
    ensures gave { IfSome (P.seen fs.old).tree (λ t. GaveNothing (P.seen fs.old) (P.seen fs.new)) }
    ensures kept { Keeps (P.seen fs.old) (P.seen fs.new) }
    ensures fault { IfErr result (PathRefused path.now (P.seen fs.old) (P.seen fs.new)) }
{
    let mut ways = ways(alloc, path)?;
    'ways: while let Some(next) = ways.pop() {
        let entry = match fs.kind(&next) {
            Ok(entry) => entry,
            Err(DevFault::Failed) => return Err(ScanFault::Fault),
            Err(DevFault::Memory) => return Err(ScanFault::Memory),
        };
        match entry {
            Kind::Folder => {}
            Kind::Absent => return Ok(false),
            _ => return Err(ScanFault::Foreign(next)),
        }
    }
    Ok(true)
}

// The path and those above it but for `/`, the longest first.
fn ways(alloc: Global, path: &AbsPath) -> Result<Vec<AbsPath>, ScanFault>
    ensures ways { IfOk result (λ v. v.items ≡ ups path.now) }
    ensures memory { IfErr result (λ e. e ≡ ScanFault.Memory) }
{
    let mut ways = Vec::new(alloc);
    let mut at = path.copy(alloc)?;
    'up: while let Some(above) = at.parent(alloc)? {
        ways.push(at)?;
        at = above;
    }
    Ok(ways)
}

fn is_empty<P: ReadFs>(fs: &mut P, path: &AbsPath) -> Result<bool, ScanFault>
    requires { ForSome (P.seen fs.old).tree (λ t. t path.now ≡ Some folder) }
    ensures empty { IfSome (P.seen fs.old).tree (λ t. IfOk result (λ b. MatchBool b (HasEntry t path.now → ⊥) (HasEntry t path.now))) }
    ensures gave_none { IfSome (P.seen fs.old).tree (λ t. IfOk result (λ b. OnTrue b (GaveAtMost (P.seen fs.old) 0 0 (P.seen fs.new)))) }
    ensures gave { IfSome (P.seen fs.old).tree (λ t. GaveListing t path.now 0 (P.seen fs.old) (P.seen fs.new)) }
    ensures kept { Keeps (P.seen fs.old) (P.seen fs.new) }
    ensures fault { IfErr result (CallRefused (P.seen fs.old) (P.seen fs.new)) }
{
    match fs.list(path) {
        Ok(names) => Ok(names.as_slice().is_empty()),
        Err(DevFault::Failed) => Err(ScanFault::Fault),
        Err(DevFault::Memory) => Err(ScanFault::Memory),
    }
}

fn take_in(
    alloc: Global,
    folder: &AbsPath,
    state: Standing,
    marked: &mut Vec<AbsPath>,
    standing: &mut Vec<(AbsPath, Kind)>,
) -> Result<(), ScanFault>
    ensures marked { OnOk result (marked.new.items ≡ marked.old.items ++ marked_at folder.now state) }
    ensures standing { OnOk result (standing.new.items ≡ standing.old.items ++ standing_at folder.now state) }
    ensures memory { IfErr result (λ e. e ≡ ScanFault.Memory) }
{
    if state == Standing::Absent {
        return Ok(());
    }
    if state == Standing::Marked {
        push_path(alloc, folder, marked)?;
    }
    let path = folder.copy(alloc)?;
    push_entry(path, Kind::Folder, standing)
}

/// Adds a path.
pub fn push_path(alloc: Global, path: &AbsPath, paths: &mut Vec<AbsPath>) -> Result<(), ScanFault>
    ensures items { OnOk result (paths.new.items ≡ paths.old.items ++ path.now ∷ []) }
    ensures len { OnOk result (vec_len paths.new ≡ vec_len paths.old + 1) }
    ensures memory { IfErr result (λ e. e ≡ ScanFault.Memory) }
{
    let path = path.copy(alloc)?;
    paths.push(path)?;
    Ok(())
}

/// Adds a path and what stands there.
pub fn push_entry(
    path: AbsPath,
    kind: Kind,
    entries: &mut Vec<(AbsPath, Kind)>,
) -> Result<(), ScanFault>
    ensures items { OnOk result (entries.new.items ≡ entries.old.items ++ (path, kind) ∷ []) }
    ensures memory { IfErr result (λ e. e ≡ ScanFault.Memory) }
{
    entries.push((path, kind))?;
    Ok(())
}
