// Each file system and each sink by its answers.

use crate::{Body, Fs, Kind, MemFs, MemSink, ReadFs, Sink, SureFs, SureSink, try_make};
use pn_text::{AbsPath, DevFault};
use std::alloc::Global;
use std::test::Fail;

// The names of a folder's entries, each with a comma behind it.
fn names<P: Fs>(fs: &mut P, alloc: Global, path: &AbsPath) -> Result<String, Fail> {
    let mut text = String::new(alloc);
    if fs.kind(path)? != Kind::Folder {
        return Ok(text);
    }
    let names = fs.list(path)?;
    for name in &names {
        text.push_str(name.as_str())?;
        text.push_str(",")?;
    }
    Ok(text)
}

fn made<P: Fs>(fs: &mut P, alloc: Global, path: &str) -> Result<bool, Fail> {
    let path = AbsPath::read(alloc, path)?;
    Ok(try_make(fs, alloc, &path, &Body::Folder)?)
}

// A folder's names, where one of them stands between another one and what is below that.
fn listed<P: Fs>(fs: &mut P, alloc: Global) -> Result<String, Fail> {
    for path in ["/w", "/w/a", "/w/a/x", "/w/a-b", "/w/B", "/wa"] {
        if !made(fs, alloc, path)? {
            return Ok(String::new(alloc));
        }
    }
    let folder = AbsPath::read(alloc, "/w")?;
    names(fs, alloc, &folder)
}

#[test]
fn names_are_in_byte_order(rt: HostRuntime) -> Result<(), Fail> {
    let alloc = rt.alloc();
    let mut sure = SureFs::new(alloc);
    assert_eq!(rt; listed(&mut sure, alloc)?.as_str(), "B,a,a-b,");
    let mut mem = MemFs::new(alloc, Vec::new(alloc));
    assert_eq!(rt; listed(&mut mem, alloc)?.as_str(), "B,a,a-b,");
    Ok(())
}

#[test]
fn a_listed_call_fails(rt: HostRuntime) -> Result<(), Fail> {
    let alloc = rt.alloc();
    let fail = vec![in alloc; 9, 2]?;
    let mut fs = MemFs::new(alloc, fail);
    let path = AbsPath::read(alloc, "/w")?;
    assert_eq!(rt;
        try_make(&mut fs, alloc, &path, &Body::Folder),
        Err(DevFault::Failed)
    );
    assert_eq!(rt; fs.calls(), 3);
    assert_eq!(rt; fs.kind(&path)?, Kind::Absent);
    assert!(rt; try_make(&mut fs, alloc, &path, &Body::Folder)?);
    assert_eq!(rt; fs.kind(&path)?, Kind::Folder);
    assert_eq!(rt; fs.kind(&path)?, Kind::Folder);
    assert_eq!(rt; fs.kind(&path), Err(DevFault::Failed));
    Ok(())
}

#[test]
fn sinks_keep_what_they_took(rt: HostRuntime) -> Result<(), Fail> {
    let alloc = rt.alloc();
    let mut sure = SureSink::new(alloc);
    sure.write(b"ab")?;
    sure.write(b"c")?;
    assert_eq!(rt; sure.bytes(), b"abc".as_slice());
    let mut mem = MemSink::new(alloc, vec![in alloc; 1]?);
    mem.write(b"ab")?;
    assert_eq!(rt; mem.write(b"c"), Err(DevFault::Failed));
    assert_eq!(rt; mem.bytes(), b"ab".as_slice());
    assert_eq!(rt; mem.calls(), 2);
    Ok(())
}

#[test]
fn many_entries_are_quick(rt: HostRuntime) -> Result<(), Fail> {
    let alloc = rt.alloc();
    let mut fs = MemFs::new(alloc, Vec::new(alloc));
    assert!(rt; made(&mut fs, alloc, "/w")?);
    for i in 0u64..20000 {
        let path = format!(in alloc; "/w/{i}")?;
        assert!(rt; made(&mut fs, alloc, path.as_str())?);
    }
    let w = AbsPath::read(alloc, "/w")?;
    let all = names(&mut fs, alloc, &w)?;
    assert_eq!(rt; all.len(), 88890 + 20000);
    Ok(())
}
