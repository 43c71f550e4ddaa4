// Instances as outer pairs are asked of them.
ghost use Rattle.std.specs.Prelude.{◌≡◌, ◌<◌, IfOk, length, true};
ghost use Rattle.std.specs.List.{All};
ghost use Rattle.pn_text.specs.Name.{is_name};
ghost use Rattle.pn_dep_paths.specs.Converted.{alias_links, folders_of, is_alias, outer_goal, outer_instances, outer_link, outer_of, peer_links};
ghost use Rattle.pn_dep_paths.specs.PathsLaw.{HasNames};

use pn_graph::{At, Plain};
use pn_instances::Instances;
use pn_outer::{Goal, Instance, Link, Links};
use pn_text::{Memory, PkgIx, PkgName, Text};
use std::alloc::Global;

/// The instances, with the links of their packages' aliases apart from those of their provided peers.
pub(crate) fn outer_instances(
    alloc: Global,
    plain: &Plain,
    instances: &Instances,
) -> Result<Vec<Instance>, Memory>
    requires { All (λ k. k.0 < length plain.now.packages) instances.now.packages }
    ensures all { IfOk result (λ all. all.items ≡ outer_instances plain.now.packages instances.now.packages instances.now.links) }
    ensures names { IfOk result (λ all. All HasNames all.items) }
{
    let packages = instances.packages.as_slice();
    let links = instances.links.as_slice();
    let mut all = Vec::new(alloc);
    for i in 0..packages.len() {
        let one = outer_of(alloc, plain, packages[i], links[i].as_slice())?;
        all.push(one)?;
    }
    Ok(all)
}

fn outer_of(
    alloc: Global,
    plain: &Plain,
    at: PkgIx,
    links: &[pn_instances::Link],
) -> Result<Instance, Memory>
    requires { at.0 < length plain.now.packages }
    ensures instance { IfOk result (λ i. i ≡ outer_of plain.now.packages at links.now) }
    ensures names { IfOk result HasNames }
{
    let id = plain.id(at);
    let _ = id.as_str(); // it is an id
    let id = id.copy(alloc)?;
    let mut deps = Vec::new(alloc);
    let mut peers = Vec::new(alloc);
    for link in links {
        let copy = outer_link(alloc, link)?;
        if is_alias(plain, at, &link.name) {
            deps.push(copy)?;
        } else {
            peers.push(copy)?;
        }
    }
    Ok(Instance {
        id,
        deps: Links::of(deps),
        peers: Links::of(peers),
    })
}

// Whether a package has a dependency of that alias.
fn is_alias(plain: &Plain, at: PkgIx, name: &PkgName) -> bool
    requires { at.0 < length plain.now.packages }
    ensures { result ≡ is_alias plain.now.packages at name.now }
{
    plain.dep(At::Package(at), name).is_some()
}

fn outer_link(alloc: Global, link: &pn_instances::Link) -> Result<Link, Memory>
    ensures link { IfOk result (λ l. l ≡ outer_link link.now) }
    ensures name { IfOk result (λ l. is_name l.name ≡ true) }
{
    let _ = link.name.as_str(); // it is a name
    let name = link.name.copy(alloc)?;
    Ok(Link {
        name,
        to: outer_goal(link.to),
    })
}

fn outer_goal(to: pn_instances::Goal) -> Goal
    ensures { result ≡ outer_goal to }
{
    match to {
        pn_instances::Goal::Project(q) => Goal::Project(q),
        pn_instances::Goal::Inst(i) => Goal::Inst(i),
    }
}

/// The folders of the projects.
pub(crate) fn folders(alloc: Global, plain: &Plain) -> Result<Vec<Text>, Memory>
    ensures { IfOk result (λ all. all.items ≡ folders_of plain.now.projects) }
{
    let mut all = Vec::new(alloc);
    for project in plain.projects.as_slice() {
        all.push(project.folder.copy(alloc)?)?;
    }
    Ok(all)
}
