// Registries in memory, and what they publish.

use crate::{Published, PublishedFault, choose, versions};
use pn_fs::{Body, SureFs, try_make};
use pn_ranges::Range;
use pn_text::{AbsPath, PkgName, VersionIx};
use std::alloc::Global;
use std::test::Fail;

fn put(alloc: Global, fs: &mut SureFs, path: &str, body: &Body) -> Result<(), Fail> {
    let path = AbsPath::read(alloc, path)?;
    try_make(fs, alloc, &path, body)?;
    Ok(())
}

// A registry with folders, a file, and the text of the file of tags, where it has one.
fn registry(alloc: Global, entries: &str, tags: &str) -> Result<SureFs, Fail> {
    let mut fs = SureFs::new(alloc);
    for path in entries.split_whitespace() {
        put(alloc, &mut fs, path, &Body::Folder)?;
    }
    let empty = Body::File(Vec::new(alloc));
    if entries.contains("/a") {
        put(alloc, &mut fs, "/a/9.0.0", &empty)?;
    }
    if !tags.is_empty() {
        let bytes = Vec::from_slice(alloc, tags.as_bytes())?;
        put(alloc, &mut fs, "/a/tags.json", &Body::File(bytes))?;
    }
    Ok(fs)
}

fn place(at: Option<VersionIx>) -> i64 {
    match at {
        Some(at) => at.0 as i64,
        None => -1,
    }
}

// The versions, the place of the latest, and the tags with their places.
fn lines(alloc: Global, published: &Published) -> Result<String, Fail> {
    let mut all = String::new(alloc);
    for version in published.versions.as_slice() {
        all.push_str(format!(in alloc; "{version} ")?.as_str())?;
    }
    let latest = place(published.latest);
    all.push_str(format!(in alloc; "{latest}")?.as_str())?;
    for tag in published.tags.as_slice() {
        all.push_str(" ")?;
        all.push_str(tag.name.as_str())?;
        let at = tag.version.0;
        all.push_str(format!(in alloc; "={at}")?.as_str())?;
    }
    Ok(all)
}

fn told(alloc: Global, entries: &str, tags: &str, name: &str) -> Result<String, Fail> {
    let mut fs = registry(alloc, entries, tags)?;
    let name = PkgName::read(alloc, name)?;
    match versions(alloc, &mut fs, &name) {
        Ok(published) => lines(alloc, &published),
        Err(PublishedFault::BadTags) => Ok(String::from_str(alloc, "bad tags")?),
        Err(_) => Ok(String::from_str(alloc, "refused")?),
    }
}

#[test]
fn versions_rise_and_the_latest_is_told(rt: HostRuntime) -> Result<(), Fail> {
    let alloc = rt.alloc();
    for (entries, tags, name, text) in [
        (
            "/a /a/2.0.0-rc.1 /a/1.10.0 /a/1.9.0",
            "",
            "a",
            "1.9.0 1.10.0 2.0.0-rc.1 1",
        ),
        (
            "/a /a/1.0.0-b /a/1.0.0-a.10 /a/1.0.0-a.9",
            "",
            "a",
            "1.0.0-a.9 1.0.0-a.10 1.0.0-b 2",
        ),
        (
            "/a /a/1.0.0+b /a/1.0.0+a /a/1.0.0",
            "",
            "a",
            "1.0.0 1.0.0+a 1.0.0+b 2",
        ),
        (
            "/a /a/2.0.0 /a/1.0.0",
            r#"{"next":"2.0.0","latest":"1.0.0","old":"0.1.0"}"#,
            "a",
            "1.0.0 2.0.0 0 latest=0 next=1",
        ),
        (
            "/a /a/2.0.0-0 /a/1.0.0",
            r#"{"latest":"9.0.0","x":"^1"}"#,
            "a",
            "1.0.0 2.0.0-0 0",
        ),
        ("/a /a/1.0 /a/v1.0.0 /a/x /a/1.0.0", "{}", "a", "1.0.0 0"),
        ("/@s /@s/b /@s/b/1.0.0", "", "@s/b", "1.0.0 0"),
        ("/a", "", "b", "-1"),
        ("/a", "[]", "a", "bad tags"),
        ("/a /a/1.0.0", r#"{"latest":1}"#, "a", "bad tags"),
        ("/a /a/1.0.0", "{", "a", "bad tags"),
    ] {
        let answer = told(alloc, entries, tags, name)?;
        assert_eq!(rt; answer.as_str(), text);
    }
    Ok(())
}

fn chosen(alloc: Global, range: &str, held: &str) -> Result<i64, Fail> {
    let tags = r#"{"latest":"1.1.0"}"#;
    let mut fs = registry(alloc, "/a /a/1.0.0 /a/1.1.0 /a/1.2.0 /a/2.0.0-rc.1", tags)?;
    let name = PkgName::read(alloc, "a")?;
    let Ok(published) = versions(alloc, &mut fs, &name) else {
        return Ok(-2);
    };
    let mut others = registry(alloc, held, "")?;
    let Ok(held) = versions(alloc, &mut others, &name) else {
        return Ok(-2);
    };
    let Ok(range) = Range::read(alloc, range) else {
        return Ok(-2);
    };
    let ranges = [range];
    Ok(place(choose(&published, held.versions.as_slice(), &ranges)))
}

#[test]
fn a_held_version_goes_before_the_latest(rt: HostRuntime) -> Result<(), Fail> {
    let alloc = rt.alloc();
    for (range, held, at) in [
        ("^1.0.0", "/a /a/1.0.0", 0),
        ("^1.0.0", "/a /a/3.0.0", 1),
        (">1.1.0", "/a", 2),
        (">=2.0.0-rc.0", "/a", 3),
        ("^3.0.0", "/a", -1),
    ] {
        let answer = chosen(alloc, range, held)?;
        assert_eq!(rt; answer, at);
    }
    Ok(())
}
