// Forms of specifiers, and catalogs.
use crate::{Catalogs, Spec, SpecFault, Want, WsSpec, WsWant};
use pn_text::{PkgName, Text};
use semver::Version;
use std::alloc::{AllocError, Global};
use std::test::Fail;

fn told_want(alloc: Global, name: &str, want: &Want) -> Result<String, AllocError> {
    match want {
        Want::Range(_) => format!(in alloc; "{name}@range"),
        Want::Tag(tag) => {
            let tag = tag.as_str();
            format!(in alloc; "{name}@tag {tag}")
        }
    }
}

fn told_project(alloc: Global, project: &WsSpec) -> Result<String, AllocError> {
    let name = match &project.name {
        Some(name) => name.as_str(),
        None => "project",
    };
    let want = match &project.want {
        WsWant::Any => "*",
        WsWant::Caret => "^",
        WsWant::Tilde => "~",
        WsWant::Range(_) => "range",
    };
    format!(in alloc; "workspace {name} {want}")
}

fn told(alloc: Global, spec: &Spec) -> Result<String, AllocError> {
    match spec {
        Spec::Range(_) => String::from_str(alloc, "range"),
        Spec::Tag(tag) => {
            let tag = tag.as_str();
            format!(in alloc; "tag {tag}")
        }
        Spec::Alias(name, want) => told_want(alloc, name.as_str(), want),
        Spec::Workspace(project) => told_project(alloc, project),
        Spec::Catalog(name) => {
            let name = name.as_str();
            format!(in alloc; "catalog {name}")
        }
    }
}

fn read(alloc: Global, text: &str) -> Result<String, AllocError> {
    match Spec::read(alloc, text) {
        Ok(spec) => told(alloc, &spec),
        Err(SpecFault::Unsupported) => String::from_str(alloc, "unsupported"),
        Err(SpecFault::Memory) => Err(AllocError),
    }
}

const READ: &[(&str, &str)] = &[
    ("workspace:*", "workspace project *"),
    ("workspace:^", "workspace project ^"),
    ("workspace:~", "workspace project ~"),
    ("workspace:^1.2.0", "workspace project range"),
    ("workspace:", "workspace project range"),
    ("workspace: *", "workspace project range"),
    ("workspace:b@*", "workspace b *"),
    ("workspace:@s/b@^", "workspace @s/b ^"),
    ("workspace:@s/b@", "workspace @s/b range"),
    ("workspace:b@>=1 <3", "workspace b range"),
    ("workspace:b", "unsupported"),
    ("workspace:@s/b", "unsupported"),
    ("workspace:./b", "unsupported"),
    ("workspace:../b", "unsupported"),
    ("workspace:/b", "unsupported"),
    ("workspace:latest", "unsupported"),
    ("workspace:b@latest", "unsupported"),
    ("workspace:b@c@*", "unsupported"),
    ("workspace:_b@*", "unsupported"),
    ("catalog:", "catalog default"),
    ("catalog:default", "catalog default"),
    ("catalog:react_18.x", "catalog react_18.x"),
    ("catalog:18", "catalog 18"),
    ("catalog: react", "unsupported"),
    ("catalog:@s", "unsupported"),
    ("npm:b", "b@range"),
    ("npm:b@^1.0.0", "b@range"),
    ("npm:b@", "b@range"),
    ("npm:@s/b", "@s/b@range"),
    ("npm:@s/b@next", "@s/b@tag next"),
    ("npm:", "unsupported"),
    ("npm:_b", "unsupported"),
    ("npm:node_modules@1", "unsupported"),
    ("npm:b@workspace:*", "unsupported"),
    ("npm:b@npm:c@1", "unsupported"),
    ("", "range"),
    (" \t", "range"),
    ("  ^1.2.3 \t", "range"),
    ("1 - 2 || >=4.0.0-rc.1", "range"),
    ("x", "range"),
    ("v1", "range"),
    ("X.x.x", "range"),
    ("latest", "tag latest"),
    ("\tnext-11.x ", "tag next-11.x"),
    ("v1beta", "tag v1beta"),
    ("x.18446744073709551616", "tag x.18446744073709551616"),
    ("18446744073709551616", "unsupported"),
    ("1.2.3beta", "unsupported"),
    ("_x", "unsupported"),
    ("latest\n", "unsupported"),
    ("a b", "unsupported"),
    ("git+ssh://h/r", "unsupported"),
    ("https://h/a.tgz", "unsupported"),
    ("file:../a", "unsupported"),
    ("link:../a", "unsupported"),
    ("user/repo", "unsupported"),
];

#[test]
fn each_form_is_read(rt: HostRuntime) -> Result<(), Fail> {
    let alloc = rt.alloc();
    for &(text, wanted) in READ {
        let found = read(alloc, text)?;
        assert!(rt; found.as_str() == wanted, "{text}");
    }
    Ok(())
}

fn holds(alloc: Global, text: &str, version: &str) -> bool {
    let Ok(version) = Version::parse(alloc, version) else {
        return false;
    };
    let Ok(spec) = Spec::read(alloc, text) else {
        return false;
    };
    match &spec {
        Spec::Range(range) | Spec::Alias(_, Want::Range(range)) => range.holds(&version),
        _ => false,
    }
}

#[test]
fn ranges_are_those_of_the_text(rt: HostRuntime) -> Result<(), Fail> {
    let alloc = rt.alloc();
    assert!(rt; holds(alloc, " ^1.2.3", "1.9.0") && !holds(alloc, " ^1.2.3", "2.0.0"));
    assert!(rt; holds(alloc, "npm:b@~1.2", "1.2.9") && !holds(alloc, "npm:b@~1.2", "1.3.0"));
    assert!(rt; holds(alloc, "npm:b", "9.9.9") && !holds(alloc, "npm:b", "9.9.9-a"));
    Ok(())
}

fn put(
    alloc: Global,
    all: &mut Catalogs,
    catalog: &str,
    name: &str,
    text: &str,
) -> Result<bool, Fail> {
    let catalog = Text::of(alloc, catalog)?;
    let name = PkgName::read(alloc, name)?;
    let text = Text::of(alloc, text)?;
    match all.put(alloc, catalog, name, text) {
        Ok(()) => Ok(true),
        Err(SpecFault::Unsupported) => Ok(false),
        Err(SpecFault::Memory) => Err(Fail::from(AllocError)),
    }
}

fn found(alloc: Global, all: &Catalogs, catalog: &str, name: &str) -> Result<String, Fail> {
    let catalog = Text::of(alloc, catalog)?;
    let name = PkgName::read(alloc, name)?;
    match all.get(&catalog, &name) {
        Some(spec) => Ok(told(alloc, spec)?),
        None => Ok(String::from_str(alloc, "none")?),
    }
}

// A catalog, a name, a text, and whether it is put there.
const PUT: &[(&str, &str, &str, bool)] = &[
    ("old", "react", "^17.0.0", true),
    ("default", "react", "latest", true),
    ("default", "@s/b", "npm:c@next", true),
    ("default", "react", "next", true),
    ("default", "react", "workspace:*", false),
    ("default", "d", "catalog:old", false),
    ("default", "d", "file:../d", false),
];

const FOUND: &[(&str, &str, &str)] = &[
    ("default", "react", "tag next"),
    ("default", "@s/b", "c@tag next"),
    ("old", "react", "range"),
    ("old", "@s/b", "none"),
    ("default", "d", "none"),
];

#[test]
fn catalogs_find_their_entries(rt: HostRuntime) -> Result<(), Fail> {
    let alloc = rt.alloc();
    let mut all = Catalogs::new(alloc);
    for &(catalog, name, text, wanted) in PUT {
        assert!(rt;
            put(alloc, &mut all, catalog, name, text)? == wanted,
            "{text}"
        );
    }
    for &(catalog, name, wanted) in FOUND {
        let found = found(alloc, &all, catalog, name)?;
        assert!(rt; found.as_str() == wanted, "{catalog} {name}");
    }
    assert!(rt; all.as_slice().len() == 3);
    Ok(())
}
