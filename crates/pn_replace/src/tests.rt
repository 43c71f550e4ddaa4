// Files that are replaced, and entries that are taken away, in trees in memory, and calls that fail.
ghost use Rattle.std.specs.Prelude.{◌≡◌, ◌≢◌, true, IfOk, IfSome, OnOk, length};
ghost use Rattle.pn_fs.specs.Tree.{CanCreate, IsFile};
ghost use Rattle.pn_fs.specs.Seen.{Keeps};

use crate::{ReplaceFault, remove_all, replace};
use pn_fs::{Body, Fs, Kind, MemFs, ReadFs, try_make};
use pn_text::{AbsPath, Text};
use std::alloc::Global;
use std::test::Fail;

// Makes a file with these bytes in `/`, by four calls.
fn put<P: Fs>(alloc: Global, fs: &mut P, path: &AbsPath, bytes: &str) -> Result<(), Fail> {
    let mut all = Vec::new(alloc);
    all.extend_from_slice(bytes.as_bytes())?;
    try_make(fs, alloc, path, &Body::File(all))?;
    Ok(())
}

// A file may be made there, by two calls.
fn look<P: ReadFs>(alloc: Global, fs: &mut P, path: &AbsPath) -> Result<(), Fail>
    ensures can { IfSome (P.seen fs.old).tree (λ t. OnOk result (CanCreate t path.now)) }
    ensures kept { Keeps (P.seen fs.old) (P.seen fs.new) }
{
    let Some(parent) = path.parent(alloc)? else {
        return Err(Fail::from("no parent"));
    };
    if fs.kind(&parent)? != Kind::Folder {
        return Err(Fail::from("no folder"));
    }
    match fs.kind(path)? {
        Kind::Absent => Ok(()),
        Kind::File(_) => Ok(()),
        _ => Err(Fail::from("no file")),
    }
}

// Replaces a file, by four calls before those of `replace`.
fn replaced<P: Fs>(
    alloc: Global,
    fs: &mut P,
    path: &AbsPath,
    temp: &AbsPath,
    bytes: &str,
) -> Result<Result<(), ReplaceFault>, Fail> {
    look(alloc, fs, path)?;
    look(alloc, fs, temp)?;
    if path.is(temp) {
        return Err(Fail::from("one path"));
    }
    Ok(replace(fs, path, temp, bytes.as_bytes()))
}

fn has_file<P: ReadFs>(fs: &mut P, path: &AbsPath) -> Result<bool, Fail>
    ensures file { IfSome (P.seen fs.old).tree (λ t. IfOk result (λ yes. yes ≡ true → IsFile t path.now)) }
    ensures kept { Keeps (P.seen fs.old) (P.seen fs.new) }
{
    match fs.kind(path)? {
        Kind::File(_) => Ok(true),
        _ => Ok(false),
    }
}

// The first bytes of a file, or `-` where none stands.
fn text_of<P: ReadFs>(alloc: Global, fs: &mut P, path: &AbsPath) -> Result<String, Fail> {
    let mut bytes = [0u8; 16];
    if !has_file(fs, path)? {
        return Ok(String::from_str(alloc, "-")?);
    }
    let count = fs.read_piece(path, 0, &mut bytes)?;
    let Some(front) = bytes.get(..count) else {
        return Err(Fail::from("too many bytes"));
    };
    let text = str::from_utf8(front).map_err(|_| Fail::from("no text"))?;
    Ok(String::from_str(alloc, text)?)
}

// What stands at `/lock` and at `/temp`, and `ok` or `failed`, where `old` is replaced by `new` and a call fails.
fn after(alloc: Global, before: &str, left: &str, fail: u64) -> Result<String, Fail> {
    let mut fs = MemFs::new(alloc, vec![in alloc; fail]?);
    let lock = AbsPath::read(alloc, "/lock")?;
    let temp = AbsPath::read(alloc, "/temp")?;
    if before != "" {
        put(alloc, &mut fs, &lock, before)?;
    }
    if left != "" {
        put(alloc, &mut fs, &temp, left)?;
    }
    let done = replaced(alloc, &mut fs, &lock, &temp, "new")?;
    let mut text = text_of(alloc, &mut fs, &lock)?;
    text.push_str(" ")?;
    text.push_str(text_of(alloc, &mut fs, &temp)?.as_str())?;
    text.push_str(if done.is_ok() { " ok" } else { " failed" })?;
    Ok(text)
}

#[test]
fn a_reader_sees_the_old_bytes_or_the_new_ones(rt: HostRuntime) -> Result<(), Fail> {
    let alloc = rt.alloc();
    assert_eq!(rt; after(alloc, "old", "", 8)?.as_str(), "old - failed");
    assert_eq!(rt; after(alloc, "old", "", 9)?.as_str(), "old  failed");
    assert_eq!(rt; after(alloc, "old", "", 10)?.as_str(), "old new failed");
    assert_eq!(rt; after(alloc, "old", "", 99)?.as_str(), "new - ok");
    assert_eq!(rt;
        after(alloc, "old", "from before", 12)?.as_str(),
        "old from before failed"
    );
    assert_eq!(rt;
        after(alloc, "old", "from before", 13)?.as_str(),
        "old  failed"
    );
    assert_eq!(rt;
        after(alloc, "old", "from before", 99)?.as_str(),
        "new - ok"
    );
    assert_eq!(rt; after(alloc, "", "", 99)?.as_str(), "new - ok");
    Ok(())
}

// What is left of a folder with a file, a link and a folder in it, where the call after so many fails, and the answer.
fn left(alloc: Global, fail: u64) -> Result<String, Fail> {
    let mut fs = MemFs::new(alloc, vec![in alloc; fail]?);
    let paths = ["/temp", "/temp/a", "/temp/a/b", "/temp/c", "/temp-d"];
    for path in paths {
        let path = AbsPath::read(alloc, path)?;
        try_make(&mut fs, alloc, &path, &Body::Folder)?;
    }
    let link = AbsPath::read(alloc, "/temp/e")?;
    try_make(
        &mut fs,
        alloc,
        &link,
        &Body::Link(Text::of(alloc, "/temp-d")?),
    )?;
    let temp = AbsPath::read(alloc, "/temp")?;
    if temp.is_root() {
        return Err(Fail::from("the root"));
    }
    let done = remove_all(alloc, &mut fs, &temp);
    let mut text = String::new(alloc);
    for path in [
        "/temp",
        "/temp/a",
        "/temp/a/b",
        "/temp/c",
        "/temp/e",
        "/temp-d",
    ] {
        let path = AbsPath::read(alloc, path)?;
        text.push_str(if fs.kind(&path)? == Kind::Absent {
            "-"
        } else {
            "x"
        })?;
    }
    text.push_str(if done.is_ok() { " ok" } else { " failed" })?;
    Ok(text)
}

#[test]
fn what_stands_below_goes_first(rt: HostRuntime) -> Result<(), Fail> {
    let alloc = rt.alloc();
    assert_eq!(rt; left(alloc, 99)?.as_str(), "-----x ok");
    assert_eq!(rt; left(alloc, 18)?.as_str(), "xxxxxx failed");
    assert_eq!(rt; left(alloc, 26)?.as_str(), "x--xxx failed");
    Ok(())
}
