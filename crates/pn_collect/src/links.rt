// The links of a graph's nodes to packages.
ghost use Rattle.std.specs.Prelude.{◌≡◌, ◌<◌, ◌++◌, ◌∷◌, [], IfOk, OnOk, length, map, true};
ghost use Rattle.std.specs.List.{All};
ghost use Rattle.pn_graph.specs.Graphs.{are_deps, in_range};
ghost use Rattle.pn_package.specs.Listed.{pair_of};
ghost use Rattle.pn_package.specs.Sound.{AreSoundLinks, IsSoundPair};
ghost use Rattle.pn_collect.specs.Outline.{link_to, links_of, direct_of};

use pn_graph::{At, Dep, Plain};
use pn_package::{Link, Links};
use pn_text::{Memory, PkgIx, PkgName};
use std::alloc::Global;

/// The links of the root project to packages. A dependency that leads to a project has none.
pub fn direct(alloc: Global, plain: &Plain) -> Result<Links, Memory>
    ensures same { IfOk result (λ links. links ≡ direct_of plain.now) }
    ensures sound { IfOk result AreSoundLinks }
{
    let projects = plain.projects.as_slice();
    links(
        alloc,
        plain,
        projects[plain.root.0 as usize].deps.as_slice(),
    )
}

/// The links of these dependencies to packages.
pub fn links(alloc: Global, plain: &Plain, deps: &[Dep]) -> Result<Links, Memory>
    requires { are_deps (length plain.now.projects) (length plain.now.packages) deps.now ≡ true }
    ensures same { IfOk result (λ links. links ≡ links_of plain.now.packages deps.now) }
    ensures sound { IfOk result AreSoundLinks }
{
    let mut all = Vec::new(alloc);
    for dep in deps {
        add_dep(alloc, &mut all, plain, dep)?;
    }
    Ok(Links::of(all))
}

// A link where the dependency leads to a package.
fn add_dep(alloc: Global, all: &mut Vec<Link>, plain: &Plain, dep: &Dep) -> Result<(), Memory>
    requires { in_range (length plain.now.projects) (length plain.now.packages) dep.now.to ≡ true }
    ensures added { OnOk result (map pair_of all.new.items ≡ map pair_of all.old.items ++ link_to plain.now.packages dep.now.alias dep.now.to) }
    ensures sound { OnOk result (All IsSoundPair (link_to plain.now.packages dep.now.alias dep.now.to)) }
{
    match dep.to {
        At::Project(_) => Ok(()),
        At::Package(at) => add_link(alloc, all, plain, &dep.alias, at),
    }
}

fn add_link(
    alloc: Global,
    all: &mut Vec<Link>,
    plain: &Plain,
    alias: &PkgName,
    at: PkgIx,
) -> Result<(), Memory>
    requires { at.0 < length plain.now.packages }
    ensures added { OnOk result (map pair_of all.new.items ≡ map pair_of all.old.items ++ link_to plain.now.packages alias.now (At.Package at)) }
    ensures sound { OnOk result (All IsSoundPair (link_to plain.now.packages alias.now (At.Package at))) }
{
    let alias = alias.copy(alloc)?;
    let _ = alias.as_str(); // a name
    let to = plain.id(at).copy(alloc)?;
    let _ = to.as_str(); // a name and a version
    add(all, Link { alias, to })
}

fn add(all: &mut Vec<Link>, one: Link) -> Result<(), Memory>
    ensures { OnOk result (all.new.items ≡ all.old.items ++ one ∷ []) }
{
    match all.push(one) {
        Ok(()) => Ok(()),
        Err(_) => Err(Memory),
    }
}
