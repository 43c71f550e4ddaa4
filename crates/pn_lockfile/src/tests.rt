// Lockfiles in trees in memory: read, refused, and written over what stands there.
ghost use Rattle.std.specs.Prelude.{IfSome, OnOk};
ghost use Rattle.pn_fs.specs.Seen.{Keeps};
ghost use Rattle.pn_fs.specs.Tree.{CanCreate};

use crate::{Found, lockfile_text, read_lockfile, write_lockfile};
use pn_fs::{Body, Fs, Kind, MemFs, ReadFs, try_make};
use pn_replace::ReplaceFault;
use pn_text::AbsPath;
use std::alloc::Global;
use std::test::Fail;

const EMPTY: &str = "lockfileVersion: '9.0'

settings:
  autoInstallPeers: true
  excludeLinksFromLockfile: false

importers:

  .: {}
";

const TWO_PACKAGES: &str = "lockfileVersion: '9.0'

settings:
  autoInstallPeers: true
  excludeLinksFromLockfile: false

importers:

  .:
    dependencies:
      a:
        specifier: 1.0.0
        version: 1.0.0

packages:

  a@1.0.0:
    resolution: {integrity: sha512-z4PhNX7vuL3xVChQ1m2AB9Yg5AULVxXcg/SpIdNs6c5H0NE8XYXysP+DGNKHfuwvY7kxvUdBeoGlODJ6+SfaPg==}

  b@1.0.0:
    resolution: {integrity: sha512-z4PhNX7vuL3xVChQ1m2AB9Yg5AULVxXcg/SpIdNs6c5H0NE8XYXysP+DGNKHfuwvY7kxvUdBeoGlODJ6+SfaPg==}

snapshots:

  a@1.0.0:
    dependencies:
      b: 1.0.0

  b@1.0.0: {}
";

// The bytes of a lockfile, and what is read of it: the lock is printed again as these bytes, or as others, or there is none.
const READ: &[(&str, &str)] = &[
    (EMPTY, "printed so"),
    (TWO_PACKAGES, "printed so"),
    ("lockfileVersion: 9.0\nimporters: {.: {}}\n", "a lock"),
    ("", "version "),
    ("lockfileVersion: '6.0'\n", "version 6.0"),
    (
        "lockfileVersion: '9.0'\n\nsettings:\n  autoInstallPeers: true\n  excludeLinksFromLockfile: false\n\nimporters:\n\n  .:\n    dependencies:\n      a:\n        specifier: 1.0.0\n        version: 1.0.0\n\npackages:\n\n  a@1.0.0:\n    resolution: {integrity:",
        "line 18: flow",
    ),
    (
        "a: [[[[[[[[[[[[[[[[[[[[[[[[[[[[[[[[[[[[[[[[[[[[[[[[[[[[[[[[[[[[[[[x]]]]]]]]]]]]]]]]]]]]]]]]]]]]]]]]]]]]]]]]]]]]]]]]]]]]]]]]]]]]]]]",
        "too deep",
    ),
    ("lockfileVersion: '9.0'\n", "shape importers"),
    (
        "lockfileVersion: '9.0'\nimporters: {.: {dependencies: {a: {specifier: '1', version: 1.0.0}}}}\n",
        "dangling . to a@1.0.0",
    ),
];

// Makes a file at a path, by four calls.
fn put<P: Fs>(alloc: Global, fs: &mut P, path: &AbsPath, bytes: &[u8]) -> Result<(), Fail> {
    let bytes = Vec::from_slice(alloc, bytes)?;
    try_make(fs, alloc, path, &Body::File(bytes))?;
    Ok(())
}

// What is read at a path.
fn told<P: ReadFs>(alloc: Global, fs: &mut P, path: &AbsPath) -> Result<String, Fail> {
    match read_lockfile(alloc, fs, path) {
        Ok(Some(found)) => Ok(String::from_str(alloc, again(alloc, &found)?)?),
        Ok(None) => Ok(String::from_str(alloc, "none")?),
        Err(fault) => Ok(format!(in alloc; "{fault}")?),
    }
}

fn again(alloc: Global, found: &Found) -> Result<&'static str, Fail> {
    let Ok(text) = lockfile_text(alloc, &found.lock) else {
        return Err(Fail::from("no text"));
    };
    if text.as_slice() == found.bytes.as_slice() {
        Ok("printed so")
    } else {
        Ok("a lock")
    }
}

// What is read of a file with these bytes.
fn told_of(alloc: Global, bytes: &[u8]) -> Result<String, Fail> {
    let mut fs = MemFs::new(alloc, Vec::new(alloc));
    let path = AbsPath::read(alloc, "/lock")?;
    put(alloc, &mut fs, &path, bytes)?;
    told(alloc, &mut fs, &path)
}

#[test]
fn lockfiles_are_read(rt: HostRuntime) -> Result<(), Fail> {
    let alloc = rt.alloc();
    for (text, wanted) in READ {
        assert_eq!(rt; told_of(alloc, text.as_bytes())?.as_str(), *wanted);
    }
    assert_eq!(rt; told_of(alloc, &[255])?.as_str(), "not UTF-8");
    Ok(())
}

#[test]
fn nothing_is_none_and_a_folder_is_no_lockfile(rt: HostRuntime) -> Result<(), Fail> {
    let alloc = rt.alloc();
    let mut fs = MemFs::new(alloc, Vec::new(alloc));
    let path = AbsPath::read(alloc, "/lock")?;
    assert_eq!(rt; told(alloc, &mut fs, &path)?.as_str(), "none");
    try_make(&mut fs, alloc, &path, &Body::Folder)?;
    assert_eq!(rt; told(alloc, &mut fs, &path)?.as_str(), "version ");
    Ok(())
}

// A file may be made there, by two calls.
fn look<P: ReadFs>(alloc: Global, fs: &mut P, path: &AbsPath) -> Result<(), Fail>
    ensures can { IfSome (P.seen fs.old).tree (λ t. OnOk result (CanCreate t path.now)) }
    ensures kept { Keeps (P.seen fs.old) (P.seen fs.new) }
{
    let Some(parent) = path.parent(alloc)? else {
        return Err(Fail::from("no parent"));
    };
    if fs.kind(&parent)? != Kind::Folder {
        return Err(Fail::from("no folder"));
    }
    match fs.kind(path)? {
        Kind::Absent => Ok(()),
        Kind::File(_) => Ok(()),
        _ => Err(Fail::from("no file")),
    }
}

// Writes `lock` in a folder, by two calls before those of `write_lockfile`.
fn written<P: Fs>(
    alloc: Global,
    fs: &mut P,
    folder: &AbsPath,
    bytes: &[u8],
) -> Result<Result<(), ReplaceFault>, Fail> {
    let path = folder.child(alloc, "lock")?;
    let temp = folder.child(alloc, "temp")?;
    look(alloc, fs, &path)?;
    Ok(write_lockfile(alloc, fs, &path, &temp, bytes))
}

// What is read, and whether something is at the temporary path, where a call fails after something was left there.
fn after(alloc: Global, fail: u64) -> Result<String, Fail> {
    let mut fs = MemFs::new(alloc, vec![in alloc; fail]?);
    let path = AbsPath::read(alloc, "/lock")?;
    let temp = AbsPath::read(alloc, "/temp")?;
    put(alloc, &mut fs, &path, "lockfileVersion: old\n".as_bytes())?;
    try_make(&mut fs, alloc, &temp, &Body::Folder)?;
    put(
        alloc,
        &mut fs,
        &AbsPath::read(alloc, "/temp/x")?,
        "left".as_bytes(),
    )?;
    let root = AbsPath::root(alloc)?;
    let done = written(alloc, &mut fs, &root, EMPTY.as_bytes())?;
    let mut text = told(alloc, &mut fs, &path)?;
    if fs.kind(&temp)? != Kind::Absent {
        text.push_str(", something left")?;
    }
    text.push_str(if done.is_ok() { ", ok" } else { ", failed" })?;
    Ok(text)
}

#[test]
fn a_lockfile_is_written_over_an_old_one(rt: HostRuntime) -> Result<(), Fail> {
    let alloc = rt.alloc();
    assert_eq!(rt;
        after(alloc, 17)?.as_str(),
        "version old, something left, failed"
    );
    assert_eq!(rt; after(alloc, 18)?.as_str(), "version old, failed");
    assert_eq!(rt;
        after(alloc, 20)?.as_str(),
        "version old, something left, failed"
    );
    assert_eq!(rt; after(alloc, 99)?.as_str(), "printed so, ok");
    Ok(())
}
