// The lock of a small graph.
ghost use Rattle.std.specs.Prelude.{◌≡◌, ◌∷◌, [], IfOk, codes, false, true};
ghost use Rattle.pn_asked.specs.Asked.{asked};
ghost use Rattle.pn_lock_make.specs.Rows.{bare, dep, two_packages, two_project, two_root};

use crate::make_single;
use pn_asked::{Asked, AskedProject, first_difference};
use pn_digest::{Digest, Integrity};
use pn_graph::{At, Autos, Dep, Deps, Package, Packages, Peers, Plain, Project, Projects};
use pn_lock::{Lock, LockGoal};
use pn_spec::Catalogs;
use pn_text::{PkgId, PkgIx, PkgName, ProjIx, Text};
use sqlite_items::Items;
use std::alloc::Global;
use std::test::Fail;

fn on(alloc: Global, name: &str, at: u32) -> Result<Deps, Fail>
    ensures { IfOk result (λ ds. ds ≡ dep name.now (codes "1") at false ∷ []) }
{
    let alias = PkgName::read(alloc, name)?;
    let specifier = Text::of(alloc, "1")?;
    let to = At::Package(PkgIx(at));
    let dep = Dep {
        alias,
        specifier,
        to,
        optional: false,
    };
    Ok(Deps::of(vec![in alloc; dep]?))
}

fn bare(alloc: Global, id: &str, deps: Deps) -> Result<Package, Fail>
    ensures { IfOk result (λ p. p ≡ bare id.now deps) }
{
    let peers = Peers::of(Vec::new(alloc));
    match PkgId::read(alloc, id)? {
        Some(id) => Ok(Package { id, deps, peers }),
        None => Err(Fail::from("no id")),
    }
}

fn two_packages(alloc: Global) -> Result<Packages, Fail>
    ensures { IfOk result (λ ps. ps ≡ two_packages) }
{
    let z = bare(alloc, "z@1.0.0", on(alloc, "b", 1)?)?;
    let b = bare(alloc, "b@1.0.0", Deps::of(Vec::new(alloc)))?;
    Ok(Packages::of(vec![in alloc; z, b]?))
}

fn two_root(alloc: Global) -> Result<Projects, Fail>
    ensures { IfOk result (λ ps. ps ≡ two_root ∷ []) }
{
    let deps = on(alloc, "z", 0)?;
    let root = Project {
        folder: Text::of(alloc, ".")?,
        deps,
        autos: Autos::of(Vec::new(alloc)),
    };
    Ok(Projects::of(vec![in alloc; root]?))
}

fn row(alloc: Global, name: &str) -> Result<Items<(PkgName, Text)>, Fail>
    ensures { IfOk result (λ rows. rows ≡ (name.now, codes "1") ∷ []) }
{
    let name = PkgName::read(alloc, name)?;
    let specifier = Text::of(alloc, "1")?;
    let mut rows = Items::new(alloc);
    rows.push((name, specifier))?;
    Ok(rows)
}

fn two_project(alloc: Global) -> Result<Items<AskedProject>, Fail>
    ensures { IfOk result (λ ps. ps ≡ two_project ∷ []) }
{
    let dependencies = row(alloc, "z")?;
    let project = AskedProject {
        folder: Text::of(alloc, ".")?,
        dependencies,
        dev: Items::new(alloc),
        optional: Items::new(alloc),
    };
    let mut projects = Items::new(alloc);
    projects.push(project)?;
    Ok(projects)
}

fn asked(alloc: Global) -> Result<Asked, Fail>
    ensures { IfOk result (λ a. a ≡ asked true [] [] (two_project ∷ [])) }
{
    let projects = two_project(alloc)?;
    Ok(Asked::of(true, Items::new(alloc), Catalogs::new(alloc), projects))
}

fn made(alloc: Global, asked: &Asked) -> Result<Lock, Fail>
    requires { asked.now.projects ≡ two_project ∷ [] }
{
    let projects = two_root(alloc)?;
    let packages = two_packages(alloc)?;
    let plain = Plain::of(ProjIx(0), projects, packages);
    let integrity = Integrity::of(Digest::of([7; 64]));
    let integrities = [integrity, integrity];
    Ok(make_single(alloc, asked, &plain, &integrities)?)
}

fn place(to: LockGoal) -> &'static str {
    match to {
        LockGoal::Snapshot(0) => " > first",
        LockGoal::Snapshot(1) => " > second",
        LockGoal::Snapshot(_) => " > other",
        LockGoal::Importer(_) => " > project",
    }
}

// The ids, then the snapshots, then the project, each with what it leads to.
fn shown(alloc: Global, lock: &Lock) -> Result<String, Fail> {
    let mut text = String::new(alloc);
    for package in lock.packages() {
        text.push_str(package.id.as_str())?;
        text.push_str(" ")?;
    }
    for snapshot in lock.snapshots() {
        text.push_str(snapshot.path.as_str())?;
        for link in snapshot.dependencies.as_slice() {
            text.push_str(place(link.to))?;
        }
        text.push_str(" ")?;
    }
    for importer in lock.importers() {
        text.push_str(importer.folder.as_str())?;
        for dependency in importer.dependencies.as_slice() {
            text.push_str(place(dependency.to))?;
        }
    }
    Ok(text)
}

#[test]
fn lists_are_in_byte_order_and_links_lead_on(rt: HostRuntime) -> Result<(), Fail> {
    let alloc = rt.alloc();
    let asked = asked(alloc)?;
    let lock = made(alloc, &asked)?;
    let text = shown(alloc, &lock)?;
    assert!(rt; text.as_str() == "b@1.0.0 z@1.0.0 b@1.0.0 z@1.0.0 > first . > second");
    assert!(rt; first_difference(alloc, &lock, &asked)?.is_none());
    Ok(())
}
