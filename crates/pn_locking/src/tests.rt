// What a manifest asks of a lock.
use crate::{ProjectManifest, asked};
use pn_asked::Asked;
use pn_manifest::Manifest;
use pn_spec::Catalogs;
use pn_text::{PkgName, Text};
use sqlite_items::Items;
use std::alloc::Global;
use std::test::Fail;

fn asks(alloc: Global, auto_peers: bool, text: &str) -> Result<Asked, Fail> {
    let manifest = Manifest::read(alloc, text.as_bytes())?;
    let folder = Text::of(alloc, ".")?;
    let project = ProjectManifest { folder, manifest };
    let overrides = Items::new(alloc);
    let catalogs = Catalogs::new(alloc);
    Ok(asked(alloc, auto_peers, overrides, catalogs, &[project])?)
}

fn put(line: &mut String, rows: &[(PkgName, Text)]) -> Result<(), Fail> {
    for row in rows {
        line.push_str(row.0.as_str())?;
        line.push_str(row.1.as_str())?;
        line.push_str(" ")?;
    }
    line.push_str("| ")?;
    Ok(())
}

fn shown(alloc: Global, asked: &Asked) -> Result<String, Fail> {
    let mut line = String::new(alloc);
    for project in asked.projects() {
        put(&mut line, project.dependencies.as_slice())?;
        put(&mut line, project.dev.as_slice())?;
        put(&mut line, project.optional.as_slice())?;
    }
    Ok(line)
}

#[test]
fn a_name_is_asked_for_in_one_map(rt: HostRuntime) -> Result<(), Fail> {
    let alloc = rt.alloc();
    let text =
        r#"{"name":"app","dependencies":{"app":"1","c":"3","b":"2"},"devDependencies":{"b":"5","f":"7"},"optionalDependencies":{"c":"8"},"peerDependencies":{"a":"^1"}}"#;
    for (auto_peers, line) in [(false, "b2 | f7 | c8 | "), (true, "a^1 b2 | f7 | c8 | ")] {
        let asked = asks(alloc, auto_peers, text)?;
        let answer = shown(alloc, &asked)?;
        assert_eq!(rt; answer.as_str(), line);
    }
    Ok(())
}
