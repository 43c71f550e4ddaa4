// What manifests ask for.

use crate::{Owner, project_wishes, seen, wishes};
use pn_manifest::Manifest;
use pn_walk::Wishes;
use std::alloc::Global;
use std::test::Fail;

// Each wish as `alias specifier`, an optional one with `?`.
fn line(alloc: Global, asked: &Wishes) -> Result<String, Fail> {
    let mut all = String::new(alloc);
    for wish in asked.as_slice() {
        all.push_str(wish.alias.as_str())?;
        all.push_str(" ")?;
        all.push_str(wish.specifier.as_str())?;
        all.push_str(if wish.optional { "? " } else { " " })?;
    }
    Ok(all)
}

// What a package's, or a project's, manifest is seen to ask for, and its peers.
fn asked(alloc: Global, owner: Owner, auto_peers: bool, text: &str) -> Result<String, Fail> {
    let manifest = Manifest::read(alloc, text.as_bytes())?;
    let face = seen(alloc, owner, &manifest)?;
    let list = match owner {
        Owner::Package => wishes(alloc, &face)?,
        Owner::Project => project_wishes(alloc, auto_peers, &face)?,
    };
    let mut all = line(alloc, &list)?;
    for peer in face.peers.as_slice() {
        all.push_str("> ")?;
        all.push_str(peer.name.as_str())?;
    }
    Ok(all)
}

#[test]
fn a_name_counts_once(rt: HostRuntime) -> Result<(), Fail> {
    let alloc = rt.alloc();
    for (owner, auto_peers, text, line) in [
        (
            Owner::Package,
            false,
            r#"{"name":"foo","dependencies":{"foo":"^1","a":"1"},"devDependencies":{"d":"1"}}"#,
            "a 1 ",
        ),
        (
            Owner::Project,
            false,
            r#"{"dependencies":{"b":"2","a":"1"},"optionalDependencies":{"a":"3"},"devDependencies":{"c":"6","b":"5","a":"4"}}"#,
            "a 3? b 2 c 6 ",
        ),
        (
            Owner::Package,
            false,
            r#"{"name":"f","dependencies":{"p":"1"},"peerDependencies":{"p":"^1","q":"2","f":"1"}}"#,
            "p 1 > q",
        ),
        (
            Owner::Project,
            true,
            r#"{"devDependencies":{"z":"1"},"peerDependencies":{"z":"^1","p":"^1","q":"2"},"peerDependenciesMeta":{"q":{"optional":true}}}"#,
            "p ^1 z 1 > p> q",
        ),
    ] {
        let answer = asked(alloc, owner, auto_peers, text)?;
        assert_eq!(rt; answer.as_str(), line);
    }
    Ok(())
}
