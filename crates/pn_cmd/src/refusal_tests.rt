// Projects that are refused.

use crate::fixtures::{A, PROJECT, fill, run_in, run_over, shown};
use pn_fs::{SureFs, SureSink};
use std::alloc::Global;
use std::test::Fail;

const LEAF: &str = r#"/a/1.0.0/package.json {"name":"a","version":"1.0.0"}"#;

// What is refused: the words, the project's files and the registry's, and then the exit status and the text.
const REFUSALS: [(&str, &str, &str, u8, &str); 32] = [
    ("", PROJECT, LEAF, 2, "usage: install"),
    ("update", PROJECT, LEAF, 2, "usage: install"),
    ("install --foo", PROJECT, LEAF, 2, "usage: install"),
    (
        "install",
        "/w/package.json {",
        "",
        3,
        "manifest: /w/package.json: not JSON",
    ),
    (
        "install",
        r#"/w/package.json {"dependencies":{"_x":"1"}}"#,
        "",
        3,
        "manifest: /w/package.json: bad field dependencies _x",
    ),
    (
        "install",
        r#"/w/package.json {"dependencies":{"x":"1.0.0"}}"#,
        "",
        6,
        "no version: . needs x@1.0.0",
    ),
    (
        "install",
        r#"/w/package.json {"dependencies":{"x":"^1.0.0"}}"#,
        "",
        6,
        "no version: . needs x@^1.0.0",
    ),
    (
        "install",
        r#"/w/package.json {"dependencies":{"a":"git+ssh://h/r"}}"#,
        LEAF,
        7,
        "unsupported: . has a@git+ssh://h/r",
    ),
    (
        "install",
        r#"/w/package.json {"dependencies":{"a":"workspace:*"}}"#,
        LEAF,
        30,
        "not yet: workspace:*",
    ),
    (
        "install",
        PROJECT,
        "/a/1.0.0/package.json {}\n/a/tags.json []",
        3,
        "manifest: registry:/a/tags.json: bad tags",
    ),
    (
        "install",
        r#"/w/package.json {"pnpm":{"overrides":{"a":"1.0.0"}}}"#,
        LEAF,
        30,
        "not yet: pnpm.overrides",
    ),
    (
        "install",
        r#"/w/package.json {"peerDependencies":{"x":"1.0.0"}}"#,
        "",
        30,
        "not yet: peerDependencies",
    ),
    (
        "install",
        r#"/w/package.json {"devDependencies":{"x":"1.0.0"}}"#,
        "",
        6,
        "no version: . needs x@1.0.0",
    ),
    (
        "install",
        "/w/pnpm-workspace.yaml a: &x 1",
        LEAF,
        3,
        "manifest: /w/pnpm-workspace.yaml: line 1: left out",
    ),
    (
        "install",
        "/w/pnpm-workspace.yaml nodeLinker: hoisted",
        LEAF,
        3,
        "manifest: /w/pnpm-workspace.yaml: bad key nodeLinker",
    ),
    (
        "install",
        "/pnpm-workspace.yaml packages: ['a[b]']",
        LEAF,
        3,
        "manifest: /pnpm-workspace.yaml: bad key packages",
    ),
    (
        "install",
        "/pnpm-workspace.yaml hoist: true",
        LEAF,
        30,
        "not yet: /",
    ),
    (
        "install",
        "/w/pnpm-workspace.yaml {catalog: {a: ^1}, packages: [b]}",
        LEAF,
        30,
        "not yet: packages",
    ),
    (
        "install",
        "/w/pnpm-workspace.yaml {catalog: {a: ^1}, overrides: {a: ^1}}",
        LEAF,
        30,
        "not yet: catalogs",
    ),
    (
        "install",
        "/w/pnpm-workspace.yaml overrides: {a: ^1}",
        LEAF,
        30,
        "not yet: overrides",
    ),
    (
        "install",
        "/w/pnpm-workspace.yaml virtualStoreDir: v\n/w/package.json {}",
        LEAF,
        30,
        "not yet: virtualStoreDir",
    ),
    (
        "install",
        "/w/pnpm-workspace.yaml virtualStoreDir: ../w\n/w/package.json {}",
        LEAF,
        3,
        "manifest: /w/pnpm-workspace.yaml: bad key virtualStoreDir",
    ),
    (
        "install",
        "/w/package.json {}\n/w/pnpm-lock.yaml x",
        LEAF,
        30,
        "not yet: /w/pnpm-lock.yaml",
    ),
    (
        "install",
        "/w/package.json {}\n/w/node_modules/x x",
        LEAF,
        10,
        "foreign: /w/node_modules",
    ),
    (
        "install",
        "/w/package.json {}\n/w/node_modules x",
        LEAF,
        10,
        "foreign: /w/node_modules",
    ),
    (
        "install",
        "/w/x x",
        "",
        3,
        "manifest: /w/package.json: missing",
    ),
    (
        "install",
        PROJECT,
        A,
        6,
        "no version: a@1.0.0 needs b@1.0.0",
    ),
    (
        "install",
        PROJECT,
        "/a/1.0.0/package.json {",
        3,
        "manifest: registry:/a/1.0.0/package.json: not JSON",
    ),
    (
        "install",
        PROJECT,
        "/a/1.0.0/index.js first",
        3,
        "manifest: registry:/a/1.0.0/package.json: missing",
    ),
    (
        "install",
        PROJECT,
        r#"/a/1.0.0/package.json {"name":"a","version":"1.0.1"}"#,
        3,
        "manifest: registry:/a/1.0.0/package.json: bad field version ",
    ),
    (
        "install",
        PROJECT,
        r#"/a/1.0.0/package.json {"name":"a","version":"1.0.0","peerDependencies":{"b":"1.0.0"}}"#,
        30,
        "not yet: peerDependencies",
    ),
    (
        "install",
        PROJECT,
        "/a/1.0.0/package.json {\"name\":\"a\",\"version\":\"1.0.0\"}\n/a/1.0.0/lib/node_modules/x.js x",
        13,
        "bundled: a@1.0.0 lib/node_modules/x.js",
    ),
];

#[test]
fn refusals_are_told_and_nothing_is_written(rt: HostRuntime) -> Result<(), Fail> {
    let alloc = rt.alloc();
    for (words, project, registry, code, text) in REFUSALS {
        let line = format!(in alloc; "pnpm-rs: {text}\n")?;
        let mut ended = run_over(alloc, words, project, registry)?;
        assert_eq!(rt; ended.code, code);
        assert_eq!(rt; ended.out.bytes().len(), 0);
        assert_eq!(rt; ended.err.bytes(), line.as_bytes());
        let store = shown(alloc, &mut ended.project, "/w/node_modules/.pnpm")?;
        assert_eq!(rt; store.as_str(), "nothing");
    }
    Ok(())
}

// A path of parts of 254 bytes and a last one.
fn deep(alloc: Global, parts: usize, last: usize) -> Result<String, Fail> {
    let part = "x".repeat(alloc, 254)?;
    let mut path = String::new(alloc);
    for _ in 0..parts {
        path.push_str("/")?;
        path.push_str(part.as_str())?;
    }
    let last = "x".repeat(alloc, last)?;
    path.push_str("/")?;
    path.push_str(last.as_str())?;
    Ok(path)
}

// What an empty project in a folder is told.
fn told_in(alloc: Global, place: &str) -> Result<(u8, SureSink), Fail> {
    let mut project = SureFs::new(alloc);
    let manifest = format!(in alloc; "{place}/package.json {{}}")?;
    fill(alloc, &mut project, manifest.as_str())?;
    let mut registry = SureFs::new(alloc);
    let mut out = SureSink::new(alloc);
    let mut err = SureSink::new(alloc);
    let code = run_in(
        alloc,
        place,
        "install",
        &mut project,
        &mut registry,
        &mut out,
        &mut err,
    )?;
    Ok((code, err))
}

#[test]
fn a_path_that_is_too_long_is_refused(rt: HostRuntime) -> Result<(), Fail> {
    let alloc = rt.alloc();
    // 15 parts and slashes have 3,825 bytes, so the folders have 4,080 and 4,076; `/pnpm-workspace.yaml`
    // has 20, and `/node_modules/.pnpm-rs` has 22
    for (last, line) in [
        (254, "pnpm-rs: limit: path 4100\n"),
        (250, "pnpm-rs: limit: path 4098\n"),
    ] {
        let place = deep(alloc, 15, last)?;
        let (code, err) = told_in(alloc, place.as_str())?;
        assert_eq!(rt; code, 11);
        assert_eq!(rt; err.bytes(), line.as_bytes());
    }
    Ok(())
}
