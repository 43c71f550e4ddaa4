// Look-ups in a small graph, and what is reached.
ghost use Rattle.std.specs.Prelude.{◌≡◌, ◌∷◌, List, [], true, length, IfOk, codes};
ghost use Rattle.pn_graph.specs.Graphs.{Peer as ThePeer, peer_names, in_range};
ghost use Rattle.pn_graph.specs.Rows.{auto, on, package_at, project, first_packages, last_packages, projects};

use crate::{
    At, Auto, Autos, Dep, Deps, Package, Packages, Peer, Peers, Plain, Project, Projects,
    free_names, reach,
};
use pn_text::{PkgId, PkgIx, PkgName, ProjIx, Text};
use std::alloc::Global;
use std::test::Fail;

const Q: At = At::Project(ProjIx(1));

fn name(alloc: Global, text: &str) -> Result<PkgName, Fail>
    ensures { IfOk result (λ n. n ≡ text.now) }
{
    Ok(PkgName::read(alloc, text)?)
}

fn on(alloc: Global, alias: &str, to: At) -> Result<Dep, Fail>
    ensures { IfOk result (λ d. d ≡ on alias.now to) }
{
    let alias = name(alloc, alias)?;
    let specifier = Text::of(alloc, "*")?;
    Ok(Dep {
        alias,
        specifier,
        to,
        optional: false,
    })
}

fn auto(alloc: Global, text: &str, to: u32) -> Result<Autos, Fail>
    ensures { IfOk result (λ a. a ≡ record { name = text.now; to = record { 0 = to } } ∷ []) }
{
    let name = name(alloc, text)?;
    let to = PkgIx(to);
    Ok(Autos::of(vec![in alloc; Auto { name, to }]?))
}

fn peer(alloc: Global, text: &str) -> Result<Peers, Fail>
    ensures { IfOk result (λ p. peer_names p ≡ text.now ∷ []) }
{
    let name = name(alloc, text)?;
    let specifier = Text::of(alloc, "^1 || 2")?;
    let peer = Peer::of(alloc, name, specifier, true)?;
    Ok(Peers::of(vec![in alloc; peer]?))
}

fn both(alloc: Global, a: Dep, b: Dep) -> Result<Deps, Fail>
    ensures { IfOk result (λ ds. ds ≡ a ∷ b ∷ []) }
{
    Ok(Deps::of(vec![in alloc; a, b]?))
}

fn none(alloc: Global) -> Deps
    ensures { result ≡ [] }
{
    Deps::of(Vec::new(alloc))
}

fn package(alloc: Global, id: &str, deps: Deps, peers: Peers) -> Result<Package, Fail>
    ensures { IfOk result (λ p. p ≡ record { id = id.now; deps = deps; peers = peers }) }
{
    match PkgId::read(alloc, id)? {
        Some(id) => Ok(Package { id, deps, peers }),
        None => Err(Fail::from("no id")),
    }
}

fn alone(alloc: Global, id: &str) -> Result<Package, Fail>
    ensures { IfOk result (λ p. p ≡ record { id = id.now; deps = []; peers = [] }) }
{
    package(alloc, id, none(alloc), Peers::of(Vec::new(alloc)))
}

fn with_peer(alloc: Global, id: &str, name: &str) -> Result<Package, Fail>
    ensures { IfOk result (λ p. (peers : List ThePeer) × (peer_names peers ≡ name.now ∷ []) × (p ≡ record { id = id.now; deps = []; peers = peers })) }
{
    let peers = peer(alloc, name)?;
    package(alloc, id, none(alloc), peers)
}

fn with_two(alloc: Global, id: &str, a: Dep, b: Dep) -> Result<Package, Fail>
    ensures { IfOk result (λ p. p ≡ record { id = id.now; deps = a ∷ b ∷ []; peers = [] }) }
{
    let deps = both(alloc, a, b)?;
    package(alloc, id, deps, Peers::of(Vec::new(alloc)))
}

fn package_a(alloc: Global) -> Result<Package, Fail>
    ensures { IfOk result (λ p. p ≡ record { id = codes "a@1.0.0"; deps = on (codes "b") (package_at 1) ∷ on (codes "q") (project 1) ∷ []; peers = [] }) }
{
    let b = on(alloc, "b", At::Package(PkgIx(1)))?;
    with_two(alloc, "a@1.0.0", b, on(alloc, "q", Q)?)
}

fn package_b(alloc: Global) -> Result<Package, Fail>
    ensures { IfOk result (λ p. p ≡ record { id = codes "b@1.0.0"; deps = on (codes "a") (package_at 0) ∷ on (codes "c") (package_at 2) ∷ []; peers = [] }) }
{
    let a = on(alloc, "a", At::Package(PkgIx(0)))?;
    with_two(alloc, "b@1.0.0", a, on(alloc, "c", At::Package(PkgIx(2)))?)
}

fn packages(alloc: Global) -> Result<Packages, Fail>
    ensures { IfOk result (λ ps. (peers : List ThePeer) × (peer_names peers ≡ codes "p" ∷ []) × (ps ≡ first_packages (last_packages peers))) }
{
    let a = package_a(alloc)?;
    let b = package_b(alloc)?;
    let c = with_peer(alloc, "c@1.0.0", "p")?;
    let p = alone(alloc, "p@1.0.0")?;
    Ok(Packages::of(vec![in alloc; a, b, c, p]?))
}

fn folder(alloc: Global, text: &str, deps: Deps, autos: Autos) -> Result<Project, Fail>
    ensures { IfOk result (λ p. p ≡ record { folder = text.now; deps = deps; autos = autos }) }
{
    let folder = Text::of(alloc, text)?;
    Ok(Project {
        folder,
        deps,
        autos,
    })
}

fn root(alloc: Global) -> Result<Project, Fail>
    ensures { IfOk result (λ p. p ≡ record { folder = codes "."; deps = on (codes "a") (package_at 0) ∷ on (codes "q") (project 1) ∷ []; autos = auto (codes "p") 3 ∷ [] }) }
{
    let a = on(alloc, "a", At::Package(PkgIx(0)))?;
    let deps = both(alloc, a, on(alloc, "q", Q)?)?;
    let autos = auto(alloc, "p", 3)?;
    folder(alloc, ".", deps, autos)
}

fn project_q(alloc: Global) -> Result<Project, Fail>
    ensures { IfOk result (λ p. p ≡ record { folder = codes "q"; deps = on (codes "p") (package_at 3) ∷ []; autos = [] }) }
{
    let p = on(alloc, "p", At::Package(PkgIx(3)))?;
    let deps = Deps::of(vec![in alloc; p]?);
    folder(alloc, "q", deps, Autos::of(Vec::new(alloc)))
}

fn projects(alloc: Global) -> Result<Projects, Fail>
    ensures { IfOk result (λ ps. ps ≡ projects) }
{
    let root = root(alloc)?;
    let q = project_q(alloc)?;
    Ok(Projects::of(vec![in alloc; root, q]?))
}

fn small(alloc: Global) -> Result<Plain, Fail>
    ensures projects { IfOk result (λ p. length p.projects ≡ 2) }
    ensures packages { IfOk result (λ p. length p.packages ≡ 4) }
{
    let projects = projects(alloc)?;
    let packages = packages(alloc)?;
    Ok(Plain::of(ProjIx(0), projects, packages))
}

fn leads(alloc: Global, p: &Plain, at: At, alias: &str) -> Result<Option<At>, Fail>
    requires { in_range (length p.now.projects) (length p.now.packages) at ≡ true }
{
    Ok(p.dep(at, &name(alloc, alias)?))
}

#[test]
fn aliases_and_automatic_peers_lead_to_their_nodes(rt: HostRuntime) -> Result<(), Fail> {
    let alloc = rt.alloc();
    let p = small(alloc)?;
    let a = At::Package(PkgIx(0));
    assert!(rt; leads(alloc, &p, At::Project(ProjIx(0)), "a")? == Some(a));
    assert!(rt; leads(alloc, &p, a, "q")? == Some(Q));
    assert!(rt; leads(alloc, &p, a, "p")?.is_none());
    assert!(rt; p.automatic(ProjIx(0), &name(alloc, "p")?) == Some(PkgIx(3)));
    assert!(rt; p.automatic(ProjIx(1), &name(alloc, "p")?).is_none());
    assert_eq!(rt; p.id(PkgIx(2)).as_str(), "c@1.0.0");
    assert!(rt; p.peers(PkgIx(0)).is_empty());
    let peers = p.peers(PkgIx(2));
    assert!(rt; peers.len() == 1 && peers[0].optional);
    Ok(())
}

#[test]
fn no_project_is_on_the_way_to_what_is_reached(rt: HostRuntime) -> Result<(), Fail> {
    let alloc = rt.alloc();
    let p = small(alloc)?;
    let from_b = reach(alloc, &p, PkgIx(1))?;
    assert!(rt; from_b.as_slice() == [PkgIx(0), PkgIx(1), PkgIx(2)].as_slice());
    let from_c = reach(alloc, &p, PkgIx(2))?;
    assert!(rt; from_c.as_slice() == [PkgIx(2)].as_slice());
    Ok(())
}

#[test]
fn a_peer_is_free_in_those_that_depend_on_its_package(rt: HostRuntime) -> Result<(), Fail> {
    let alloc = rt.alloc();
    let p = small(alloc)?;
    let of_a = free_names(alloc, &p, PkgIx(0))?;
    assert!(rt; of_a.len() == 1 && of_a[0].as_str() == "p");
    assert!(rt; free_names(alloc, &p, PkgIx(3))?.is_empty());
    Ok(())
}

#[test]
fn a_peer_whose_specifier_is_no_range_is_read(rt: HostRuntime) -> Result<(), Fail> {
    let alloc = rt.alloc();
    for text in ["latest", "workspace:*", "npm:b@1"] {
        let peer = Peer::of(alloc, name(alloc, "p")?, Text::of(alloc, text)?, false)?;
        assert_eq!(rt; peer.text.as_str(), text);
    }
    Ok(())
}
