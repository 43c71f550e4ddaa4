use super::*;
use std::alloc::Global;
use std::cmp::Ordering;
use std::test::Fail;

fn repeated(alloc: Global, text: &str, times: usize) -> Result<String, Fail> {
    let mut all = String::new(alloc);
    for _ in 0..times {
        all.push_str(text)?;
    }
    Ok(all)
}

fn name_fault(alloc: Global, text: &str) -> Option<NameFault> {
    match PkgName::read(alloc, text) {
        Ok(_) => None,
        Err(fault) => Some(fault),
    }
}

fn path_fault(alloc: Global, text: &str) -> Option<PathFault> {
    match AbsPath::read(alloc, text) {
        Ok(_) => None,
        Err(fault) => Some(fault),
    }
}

fn tail_fault(alloc: Global, text: &str) -> Option<PathFault> {
    match RelPath::read(alloc, text) {
        Ok(_) => None,
        Err(fault) => Some(fault),
    }
}

// Whether a name is read, copied and spelled as a path.
fn is_kept(alloc: Global, text: &str) -> Result<bool, Fail> {
    let name = PkgName::read(alloc, text)?;
    let path = name.as_path(alloc)?;
    Ok(name.copy(alloc)?.as_str() == text && path.copy(alloc)?.as_str() == text)
}

fn joined(alloc: Global, path: &str, tail: &str) -> Result<AbsPath, Fail> {
    let path = AbsPath::read(alloc, path)?;
    let tail = RelPath::read(alloc, tail)?;
    Ok(path.join(alloc, &tail)?)
}

fn relative(alloc: Global, from: &str, to: &str) -> Result<Text, Fail> {
    let from = AbsPath::read(alloc, from)?;
    let to = AbsPath::read(alloc, to)?;
    Ok(to.relative_to(alloc, &from)?)
}

fn order(alloc: Global, a: &str, b: &str) -> Result<Ordering, Fail> {
    let a = Text::of(alloc, a)?;
    let b = Text::of(alloc, b)?;
    Ok(byte_cmp(&a, &b.copy(alloc)?))
}

#[test]
fn names_are_read_or_refused(rt: HostRuntime) -> Result<(), Fail> {
    let alloc = rt.alloc();
    for text in [
        "a",
        "@s/x",
        "x.y_z-9",
        "-",
        "A",
        "@s/node_modules_",
        "nod.e_modules",
    ] {
        assert!(rt; is_kept(alloc, text)?, "{text}");
    }
    for (text, fault) in [
        ("", NameFault::Empty),
        ("@", NameFault::BadByte(1)),
        ("@s", NameFault::BadByte(2)),
        ("@s/", NameFault::BadByte(3)),
        ("@s/x/y", NameFault::BadByte(4)),
        ("_x", NameFault::BadByte(0)),
        (".x", NameFault::BadByte(0)),
        ("a/b", NameFault::BadByte(1)),
        ("@s/_x", NameFault::BadByte(3)),
        ("node_modules", NameFault::Reserved),
        ("@s/node_modules", NameFault::Reserved),
        ("@node_modules/x", NameFault::Reserved),
    ] {
        assert_eq!(rt; name_fault(alloc, text), Some(fault), "{text}");
    }
    let longest = repeated(alloc, "a", 214)?;
    assert_eq!(rt; name_fault(alloc, longest.as_str()), None);
    let long = repeated(alloc, "_", 215)?;
    assert_eq!(rt; name_fault(alloc, long.as_str()), Some(NameFault::Long));
    Ok(())
}

#[test]
fn paths_are_read_or_refused(rt: HostRuntime) -> Result<(), Fail> {
    let alloc = rt.alloc();
    for (text, fault) in [
        ("", PathFault::NotAbsolute),
        ("a/..", PathFault::NotAbsolute),
        ("//", PathFault::BadPart(1)),
        ("/a/", PathFault::BadPart(3)),
        ("/a/../b", PathFault::BadPart(3)),
        ("/a/./b", PathFault::BadPart(3)),
    ] {
        assert_eq!(rt; path_fault(alloc, text), Some(fault), "{text}");
    }
    for (text, at) in [("", 0), ("/a", 0), ("a/", 2), ("a/..", 2)] {
        assert_eq!(rt;
            tail_fault(alloc, text),
            Some(PathFault::BadPart(at)),
            "{text}"
        );
    }
    let mut longest = repeated(alloc, "/a", 2048)?;
    assert_eq!(rt; path_fault(alloc, longest.as_str()), None);
    longest.push_str("b")?;
    assert_eq!(rt; path_fault(alloc, longest.as_str()), Some(PathFault::Long));
    Ok(())
}

#[test]
fn paths_are_joined_and_taken_apart(rt: HostRuntime) -> Result<(), Fail> {
    let alloc = rt.alloc();
    let path = joined(alloc, "/a", "x/b")?;
    assert_eq!(rt; path.copy(alloc)?.as_str(), "/a/x/b");
    assert_eq!(rt; path.name(), Some("b"));
    if let Some(parent) = path.parent(alloc)? {
        assert_eq!(rt; parent.as_str(), "/a/x");
        assert_eq!(rt; parent.child(alloc, "c")?.as_str(), "/a/x/c");
    }
    Ok(())
}

#[test]
fn relative_paths_go_up_and_down(rt: HostRuntime) -> Result<(), Fail> {
    let alloc = rt.alloc();
    for (from, to, want) in [
        (
            "/w/node_modules",
            "/w/node_modules/.pnpm/a@1.0.0/node_modules/a",
            ".pnpm/a@1.0.0/node_modules/a",
        ),
        (
            "/w/node_modules/.pnpm/a@1.0.0/node_modules",
            "/w/node_modules/.pnpm/b@1.0.0/node_modules/b",
            "../../b@1.0.0/node_modules/b",
        ),
        ("/a/b", "/a/b", "."),
        ("/", "/", "."),
        ("/", "/a", "a"),
        ("/a/b", "/", "../.."),
        ("/a/b", "/a/bc", "../bc"),
    ] {
        assert_eq!(rt; relative(alloc, from, to)?.as_str(), want);
    }
    for (a, b) in [("", "a"), ("a", "a.b"), ("a.b", "a/b"), ("b", "é")] {
        assert_eq!(rt; order(alloc, a, b)?, Ordering::Less, "{a}");
    }
    Ok(())
}

// Whether a text is read as the id of that name and version, and made of them.
fn is_id(alloc: Global, text: &str, name: &str, version: &str) -> Result<bool, Fail> {
    let name = PkgName::read(alloc, name)?;
    let made = PkgId::of(alloc, &name, version)?;
    match PkgId::read(alloc, text)? {
        Some(id) => Ok(
            id.name() == &name && id.version_text() == version && made == Some(id.copy(alloc)?),
        ),
        None => Ok(false),
    }
}

#[test]
fn ids_have_a_name_and_a_version(rt: HostRuntime) -> Result<(), Fail> {
    let alloc = rt.alloc();
    for (text, name, version) in [
        ("a@1.0.0", "a", "1.0.0"),
        ("@s/a@1.2.3-x.1", "@s/a", "1.2.3-x.1"),
        ("a@0.0.1+b.7", "a", "0.0.1+b.7"),
    ] {
        assert!(rt; is_id(alloc, text, name, version)?, "{text}");
    }
    for text in [
        "",
        "a",
        "a@",
        "@1.0.0",
        "@s/a",
        "a@1.0",
        "a@1.0.0@2.0.0",
        "@s/a/b@1.0.0",
    ] {
        assert!(rt; PkgId::read(alloc, text)?.is_none(), "{text}");
    }
    Ok(())
}
