// Real paths and lookups in trees in memory.

use crate::{find, real};
use pn_fs::{Body, Fs, MemFs, ReadFs, SureFs, try_make};
use pn_text::{AbsPath, DevFault, PkgName, Text};
use std::alloc::Global;
use std::test::Fail;

fn put<P: Fs>(alloc: Global, fs: &mut P, path: &str, body: &Body) -> Result<(), Fail> {
    let path = AbsPath::read(alloc, path)?;
    try_make(fs, alloc, &path, body)?;
    Ok(())
}

fn folders<P: Fs>(alloc: Global, fs: &mut P, paths: &[&str]) -> Result<(), Fail> {
    for path in paths {
        put(alloc, fs, path, &Body::Folder)?;
    }
    Ok(())
}

fn links<P: Fs>(alloc: Global, fs: &mut P, texts: &[(&str, &str)]) -> Result<(), Fail> {
    for (path, text) in texts {
        let text = Text::of(alloc, text)?;
        put(alloc, fs, path, &Body::Link(text))?;
    }
    Ok(())
}

fn file<P: Fs>(alloc: Global, fs: &mut P, path: &str) -> Result<(), Fail> {
    put(alloc, fs, path, &Body::File(Vec::new(alloc)))
}

// The text of what is found, or `-`.
fn told(alloc: Global, found: &Option<AbsPath>) -> Result<String, Fail> {
    let text = match found {
        Some(path) => path.as_str(),
        None => "-",
    };
    Ok(String::from_str(alloc, text)?)
}

fn real_of<R: ReadFs>(alloc: Global, fs: &mut R, path: &str) -> Result<String, Fail> {
    let path = AbsPath::read(alloc, path)?;
    let found = real(alloc, fs, &path)?;
    told(alloc, &found)
}

fn found_from<R: ReadFs>(
    alloc: Global,
    fs: &mut R,
    from: &str,
    name: &str,
) -> Result<String, Fail> {
    let from = AbsPath::read(alloc, from)?;
    let name = PkgName::read(alloc, name)?;
    let found = find(alloc, fs, &from, &name)?;
    told(alloc, &found)
}

fn linked<P: Fs>(alloc: Global, fs: &mut P) -> Result<(), Fail> {
    folders(alloc, fs, &["/d", "/d/e"])?;
    file(alloc, fs, "/d/f")?;
    links(
        alloc,
        fs,
        &[
            ("/x", "y"),
            ("/y", "x"),
            ("/self", "self/d"),
            ("/to_d", "d"),
            ("/d/up", "../../../d/e"),
            ("/empty", ""),
            ("/d/absolute", "/d/e"),
            ("/d/slash", "/"),
            ("/dots", "./d//./e/."),
            ("/around", "d/e/../../to_d/e"),
            ("/file_dot", "d/f/."),
            ("/file_up", "d/f/.."),
            ("/missing", "d/no/.."),
        ],
    )
}

#[test]
fn links_lead_on(rt: HostRuntime) -> Result<(), Fail> {
    let alloc = rt.alloc();
    let mut fs = SureFs::new(alloc);
    linked(alloc, &mut fs)?;
    for (path, want) in [
        ("/", "/"),
        ("/d/e", "/d/e"),
        ("/d/no", "-"),
        ("/x", "-"),
        ("/self", "-"),
        ("/to_d/e", "/d/e"),
        ("/d/up", "/d/e"),
        ("/empty", "-"),
        ("/d/absolute", "/d/e"),
        ("/d/slash/d/e", "/d/e"),
        ("/dots", "/d/e"),
        ("/around", "/d/e"),
        ("/d/f", "/d/f"),
        ("/d/f/x", "-"),
        ("/file_dot", "/d/f"),
        ("/file_up", "-"),
        ("/missing", "-"),
    ] {
        let answer = real_of(alloc, &mut fs, path)?;
        assert_eq!(rt; answer.as_str(), want, "at {path}");
    }
    Ok(())
}

#[test]
fn forty_links_are_followed(rt: HostRuntime) -> Result<(), Fail> {
    let alloc = rt.alloc();
    let mut fs = SureFs::new(alloc);
    folders(alloc, &mut fs, &["/41"])?;
    for i in 0u64..41 {
        let path = format!(in alloc; "/{i}")?;
        let next = i + 1;
        let text = format!(in alloc; "{next}")?;
        links(alloc, &mut fs, &[(path.as_str(), text.as_str())])?;
    }
    let forty = real_of(alloc, &mut fs, "/1")?;
    assert_eq!(rt; forty.as_str(), "/41");
    let forty_one = real_of(alloc, &mut fs, "/0")?;
    assert_eq!(rt; forty_one.as_str(), "-");
    Ok(())
}

// The packages a and @s/c depend on one another, and @s/c on b too. @s/c has a folder `lib/node_modules`.
fn round(alloc: Global, fs: &mut SureFs) -> Result<(), Fail> {
    folders(
        alloc,
        fs,
        &[
            "/v",
            "/v/a@1.0.0",
            "/v/a@1.0.0/node_modules",
            "/v/a@1.0.0/node_modules/a",
            "/v/a@1.0.0/node_modules/a/lib",
            "/v/a@1.0.0/node_modules/@s",
            "/v/@s+c@1.0.0",
            "/v/@s+c@1.0.0/node_modules",
            "/v/@s+c@1.0.0/node_modules/@s",
            "/v/@s+c@1.0.0/node_modules/@s/c",
            "/v/@s+c@1.0.0/node_modules/@s/c/lib",
            "/v/@s+c@1.0.0/node_modules/@s/c/lib/node_modules",
            "/v/@s+c@1.0.0/node_modules/@s/c/lib/node_modules/b",
            "/v/b@1.0.0",
            "/v/b@1.0.0/node_modules",
            "/v/b@1.0.0/node_modules/b",
        ],
    )?;
    file(
        alloc,
        fs,
        "/v/@s+c@1.0.0/node_modules/@s/c/lib/node_modules/a",
    )?;
    links(
        alloc,
        fs,
        &[
            (
                "/v/a@1.0.0/node_modules/@s/c",
                "../../../@s+c@1.0.0/node_modules/@s/c",
            ),
            (
                "/v/@s+c@1.0.0/node_modules/a",
                "../../a@1.0.0/node_modules/a",
            ),
            (
                "/v/@s+c@1.0.0/node_modules/b",
                "../../b@1.0.0/node_modules/b",
            ),
        ],
    )
}

#[test]
fn packages_find_one_another(rt: HostRuntime) -> Result<(), Fail> {
    let alloc = rt.alloc();
    let mut fs = SureFs::new(alloc);
    round(alloc, &mut fs)?;
    let a = "/v/a@1.0.0/node_modules/a";
    let b = "/v/b@1.0.0/node_modules/b";
    let c = "/v/@s+c@1.0.0/node_modules/@s/c";
    let lib = "/v/@s+c@1.0.0/node_modules/@s/c/lib";
    let inner = "/v/@s+c@1.0.0/node_modules/@s/c/lib/node_modules/b";
    for (from, name, want) in [
        (a, "@s/c", c),
        ("/v/a@1.0.0/node_modules/a/lib", "@s/c", c),
        (c, "a", a),
        (c, "@s/c", c),
        (c, "@s/d", "-"),
        (c, "b", b),
        (lib, "b", inner),
        (lib, "a", a),
        (b, "a", "-"),
        ("/v/a@1.0.0/node_modules/@s/c", "b", "-"),
    ] {
        let answer = found_from(alloc, &mut fs, from, name)?;
        assert_eq!(rt; answer.as_str(), want, "{name} from {from}");
    }
    Ok(())
}

// A folder's path of 4,096 bytes leaves no room for a `node_modules` in it.
#[test]
fn a_long_path_has_nothing_below(rt: HostRuntime) -> Result<(), Fail> {
    let alloc = rt.alloc();
    let mut fs = SureFs::new(alloc);
    folders(alloc, &mut fs, &["/node_modules", "/node_modules/b"])?;
    let mut long = String::from_str(alloc, "/")?;
    for _ in 0..4095 {
        long.push_str("a")?;
    }
    folders(alloc, &mut fs, &[long.as_str()])?;
    let below = found_from(alloc, &mut fs, long.as_str(), "b")?;
    assert_eq!(rt; below.as_str(), "/node_modules/b");
    links(alloc, &mut fs, &[("/l", long.as_str()), ("/k", "l/x")])?;
    let walked = real_of(alloc, &mut fs, "/l")?;
    assert_eq!(rt; walked.as_str(), long.as_str());
    let past = real_of(alloc, &mut fs, "/k")?;
    assert_eq!(rt; past.as_str(), "-");
    Ok(())
}

// The real path of `/to_d/e`, where the call after so many others fails.
fn failing(alloc: Global, later: u64) -> Result<Result<Option<AbsPath>, DevFault>, Fail> {
    let mut fs = MemFs::new(alloc, Vec::new(alloc));
    linked(alloc, &mut fs)?;
    let fail = vec![in alloc; fs.calls().saturating_add(later)]?;
    let mut fs = MemFs::new(alloc, fail);
    linked(alloc, &mut fs)?;
    let path = AbsPath::read(alloc, "/to_d/e")?;
    Ok(real(alloc, &mut fs, &path))
}

#[test]
fn a_failing_call_is_told(rt: HostRuntime) -> Result<(), Fail> {
    let alloc = rt.alloc();
    for later in 0u64..4 {
        let answer = failing(alloc, later)?;
        assert!(rt; matches!(answer, Err(DevFault::Failed)), "call {later}");
    }
    let answer = failing(alloc, 4)?;
    assert!(rt; matches!(answer, Ok(Some(_))));
    Ok(())
}
