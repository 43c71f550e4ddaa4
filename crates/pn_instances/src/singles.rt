// The instances of a graph without peers.
ghost use Rattle.std.specs.Prelude.{◌≡◌, ◌<◌, ◌^◌, IfOk, length, map};
ghost use Rattle.pn_instances.specs.Singles.{goal_of, links_of, package_links, places, project_links};

use crate::goal::Goal;
use crate::instances::Instances;
use crate::links::{Link, LinkLists, Links, Places};
use pn_graph::{At, Dep, Package, Plain, Project};
use pn_text::{InstIx, Memory, PkgIx};
use std::alloc::Global;

/// One instance of each package, in the order of packages, with the links that its dependencies are. Peers link to nothing:
/// the graph is one without peers.
pub fn single(alloc: Global, p: &Plain) -> Result<Instances, Memory>
    ensures packages { IfOk result (λ i. i.packages ≡ places (length p.now.packages)) }
    ensures links { IfOk result (λ i. i.links ≡ map package_links p.now.packages) }
    ensures roots { IfOk result (λ i. i.roots ≡ map project_links p.now.projects) }
{
    let packages = all_places(alloc, p.packages.as_slice().len())?;
    let links = links_of_packages(alloc, p.packages.as_slice())?;
    let roots = links_of_projects(alloc, p.projects.as_slice())?;
    Ok(Instances::of(packages, links, roots))
}

fn all_places(alloc: Global, count: usize) -> Result<Places, Memory>
    requires { count < 2 ^ 32 }
    ensures { IfOk result (λ ps. ps ≡ places count) }
{
    let mut places = Vec::new(alloc);
    for at in 0..count {
        places.push(PkgIx(at as u32))?;
    }
    Ok(Places::of(places))
}

fn links_of_packages(alloc: Global, packages: &[Package]) -> Result<LinkLists, Memory>
    ensures { IfOk result (λ ls. ls ≡ map package_links packages.now) }
{
    let mut lists = Vec::new(alloc);
    for package in packages {
        lists.push(links_of(alloc, package.deps.as_slice())?)?;
    }
    Ok(LinkLists::of(lists))
}

fn links_of_projects(alloc: Global, projects: &[Project]) -> Result<LinkLists, Memory>
    ensures { IfOk result (λ ls. ls ≡ map project_links projects.now) }
{
    let mut lists = Vec::new(alloc);
    for project in projects {
        lists.push(links_of(alloc, project.deps.as_slice())?)?;
    }
    Ok(LinkLists::of(lists))
}

fn links_of(alloc: Global, deps: &[Dep]) -> Result<Links, Memory>
    ensures { IfOk result (λ ls. ls ≡ links_of deps.now) }
{
    let mut links = Vec::new(alloc);
    for dep in deps {
        let name = dep.alias.copy(alloc)?;
        links.push(Link {
            name,
            to: goal_of(dep.to),
        })?;
    }
    Ok(Links::of(links))
}

fn goal_of(at: At) -> Goal
    ensures { result ≡ goal_of at }
{
    match at {
        At::Project(project) => Goal::Project(project),
        At::Package(package) => Goal::Inst(InstIx(package.0)),
    }
}
