// Projects and packages with their dependencies.
ghost use Rattle.std.specs.Prelude.{◌≡◌, [], IfOk, length};
ghost use Rattle.pn_shape.specs.Shapes.{ArePeersOf, IsPeerOf};
ghost use Rattle.pn_shape.specs.DepLists.{projects_with, ArePackagesWith, IsPackageWith};

use crate::lists::DepList;
use pn_graph::{Autos, Package, Packages, Peer, Peers, Project, Projects};
use pn_manifest::Peer as SaidPeer;
use pn_text::{Memory, Text};
use pn_walk::Node;
use std::alloc::Global;

/// Each folder with its dependencies.
pub fn projects(alloc: Global, folders: Vec<Text>, lists: Vec<DepList>) -> Result<Projects, Memory>
    requires { length folders.items ≡ length lists.items }
    ensures { IfOk result (λ ps. ps ≡ projects_with folders.items lists.items) }
{
    let mut items = Vec::new(alloc);
    let mut lists = lists.into_iter();
    for folder in folders {
        let Some(list) = lists.next() else {
            unreachable!();
        };
        items.push(project(alloc, folder, list))?;
    }
    Ok(Projects::of(items))
}

fn project(alloc: Global, folder: Text, list: DepList) -> Project
    ensures { result ≡ record { folder = folder; deps = list; autos = [] } }
{
    Project {
        folder,
        deps: list.into_deps(),
        autos: Autos::of(Vec::new(alloc)),
    }
}

/// Each package with its dependencies.
pub fn packages(alloc: Global, nodes: Vec<Node>, lists: Vec<DepList>) -> Result<Packages, Memory>
    requires { length nodes.items ≡ length lists.items }
    ensures { IfOk result (ArePackagesWith nodes.items lists.items) }
{
    let mut items = Vec::new(alloc);
    let mut lists = lists.into_iter();
    for node in nodes {
        let Some(list) = lists.next() else {
            unreachable!();
        };
        items.push(of_node(alloc, node, list)?)?;
    }
    Ok(Packages::of(items))
}

fn of_node(alloc: Global, node: Node, list: DepList) -> Result<Package, Memory>
    ensures { IfOk result (IsPackageWith list node) }
{
    let peers = peers(alloc, node.peers.as_slice())?;
    Ok(Package {
        id: node.id,
        deps: list.into_deps(),
        peers,
    })
}

fn peers(alloc: Global, said: &[SaidPeer]) -> Result<Peers, Memory>
    ensures { IfOk result (ArePeersOf said.now) }
{
    let mut items = Vec::new(alloc);
    for one in said {
        items.push(peer(alloc, one)?)?;
    }
    Ok(Peers::of(items))
}

fn peer(alloc: Global, said: &SaidPeer) -> Result<Peer, Memory>
    ensures { IfOk result (IsPeerOf said.now) }
{
    let name = said.name.copy(alloc)?;
    let text = said.text.copy(alloc)?;
    Peer::of(alloc, name, text, said.optional)
}
