// Packages with peers.
use crate::lists::DepList;
use crate::nodes::packages;
use pn_graph::{Packages, Peer};
use pn_manifest::Manifest;
use pn_text::{Memory, PkgId};
use pn_walk::{Node, Wishes};
use semver::Version;
use std::alloc::Global;
use std::test::Fail;

// The package of this manifest, which has no dependencies.
fn package(alloc: Global, id: &str, manifest: &str) -> Result<Packages, Fail> {
    let Manifest { peers, .. } = Manifest::read(alloc, manifest.as_bytes())?;
    let mut nodes = Vec::new(alloc);
    if let Some(id) = PkgId::read(alloc, id)? {
        let wishes = Wishes::of(Vec::new(alloc));
        nodes.push(Node { id, wishes, peers })?;
    }
    let mut lists = Vec::new(alloc);
    for _ in 0..nodes.len() {
        lists.push(DepList::new(alloc))?;
    }
    if lists.len() != nodes.len() {
        return Err(Fail::from(Memory));
    }
    Ok(packages(alloc, nodes, lists)?)
}

// A peer as `name specifier`, an optional one with `?`, and those of some versions that it takes.
fn line(alloc: Global, peer: &Peer) -> Result<String, Fail> {
    let mut line = String::new(alloc);
    line.push_str(peer.name.as_str())?;
    line.push_str(" ")?;
    line.push_str(peer.text.as_str())?;
    line.push_str(if peer.optional { "?" } else { "" })?;
    for text in ["1.0.0", "2.1.0", "3.0.0"] {
        let version = Version::parse(alloc, text)?;
        if peer.range.holds(&version) {
            line.push_str(" ")?;
            line.push_str(text)?;
        }
    }
    Ok(line)
}

#[test]
fn a_peer_keeps_its_name_its_range_and_whether_it_is_optional(rt: HostRuntime) -> Result<(), Fail> {
    let alloc = rt.alloc();
    let text =
        r#"{"peerDependencies":{"p":"^1","q":"2 || 3","r":"next"},"peerDependenciesMeta":{"q":{"optional":true}}}"#;
    let packages = package(alloc, "a@1.0.0", text)?;
    assert_eq!(rt; packages.as_slice().len(), 1);
    for package in packages.as_slice() {
        assert_eq!(rt; package.id.as_str(), "a@1.0.0");
        let peers = package.peers.as_slice();
        assert_eq!(rt; peers.len(), 3);
        for (peer, want) in peers.iter().zip([
            "p ^1 1.0.0",
            "q 2 || 3? 2.1.0 3.0.0",
            "r next 1.0.0 2.1.0 3.0.0",
        ]) {
            let line = line(alloc, peer)?;
            assert_eq!(rt; line.as_str(), want);
        }
    }
    Ok(())
}
