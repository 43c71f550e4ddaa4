// The instances of a small graph.
ghost use Rattle.std.specs.Prelude.{◌≡◌, ◌∷◌, [], codes, IfOk, length};
ghost use Rattle.pn_instances.specs.Rows.{on_b, packages, project};

use crate::{Goal, Instances, single};
use pn_graph::{At, Autos, Dep, Deps, Package, Packages, Peers, Plain, Project, Projects};
use pn_text::{InstIx, PkgId, PkgIx, PkgName, ProjIx, Text};
use std::alloc::Global;
use std::test::Fail;

fn on_b(alloc: Global) -> Result<Deps, Fail>
    ensures { IfOk result (λ ds. ds ≡ on_b ∷ []) }
{
    let alias = PkgName::read(alloc, "b")?;
    let specifier = Text::of(alloc, "1")?;
    let to = At::Package(PkgIx(1));
    let dep = Dep {
        alias,
        specifier,
        to,
        optional: false,
    };
    Ok(Deps::of(vec![in alloc; dep]?))
}

fn of_id(alloc: Global, id: &str, deps: Deps) -> Result<Package, Fail>
    ensures { IfOk result (λ p. p ≡ record { id = id.now; deps = deps; peers = [] }) }
{
    let peers = Peers::of(Vec::new(alloc));
    match PkgId::read(alloc, id)? {
        Some(id) => Ok(Package { id, deps, peers }),
        None => Err(Fail::from("no id")),
    }
}

fn both(alloc: Global) -> Result<Packages, Fail>
    ensures { IfOk result (λ ps. ps ≡ packages) }
{
    let a = of_id(alloc, "a@1.0.0", on_b(alloc)?)?;
    let b = of_id(alloc, "b@1.0.0", Deps::of(Vec::new(alloc)))?;
    Ok(Packages::of(vec![in alloc; a, b]?))
}

fn root(alloc: Global) -> Result<Projects, Fail>
    ensures { IfOk result (λ ps. ps ≡ project ∷ []) }
{
    let deps = on_b(alloc)?;
    let root = Project {
        folder: Text::of(alloc, ".")?,
        deps,
        autos: Autos::of(Vec::new(alloc)),
    };
    Ok(Projects::of(vec![in alloc; root]?))
}

fn small(alloc: Global) -> Result<Instances, Fail>
    ensures packages { IfOk result (λ i. length i.packages ≡ 2) }
    ensures links { IfOk result (λ i. length i.links ≡ 2) }
    ensures roots { IfOk result (λ i. length i.roots ≡ 1) }
{
    let projects = root(alloc)?;
    let packages = both(alloc)?;
    let plain = Plain::of(ProjIx(0), projects, packages);
    Ok(single(alloc, &plain)?)
}

#[test]
fn each_package_has_one_instance_with_its_dependencies(rt: HostRuntime) -> Result<(), Fail> {
    let alloc = rt.alloc();
    let small = small(alloc)?;
    let b = PkgName::read(alloc, "b")?;
    let a = PkgName::read(alloc, "a")?;
    assert!(rt; small.package(InstIx(1)) == PkgIx(1));
    assert!(rt; small.link(InstIx(0), &b) == Some(Goal::Inst(InstIx(1))));
    assert!(rt; small.link(InstIx(1), &b).is_none());
    assert!(rt; small.root(ProjIx(0), &b) == Some(Goal::Inst(InstIx(1))));
    assert!(rt; small.root(ProjIx(0), &a).is_none());
    Ok(())
}
