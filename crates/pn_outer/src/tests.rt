// Outer pairs of small graphs.
use crate::{Goal, Instance, Link, Links, are_in_range, outer_pairs};
use pn_text::{InstIx, PkgId, PkgName, ProjIx};
use std::alloc::Global;
use std::test::Fail;

fn links(alloc: Global, pairs: &[(&str, Goal)]) -> Result<Links, Fail> {
    let mut items = Vec::new(alloc);
    for (name, to) in pairs {
        let name = PkgName::read(alloc, name)?;
        items.push(Link { name, to: *to })?;
    }
    Ok(Links::of(items))
}

fn instance(
    alloc: Global,
    id: &str,
    deps: &[(&str, Goal)],
    peers: &[(&str, Goal)],
) -> Result<Instance, Fail> {
    let read = PkgId::read(alloc, id)?;
    let Some(id) = read else {
        return Err(Fail::from("no id"));
    };
    let deps = links(alloc, deps)?;
    let peers = links(alloc, peers)?;
    Ok(Instance { id, deps, peers })
}

fn at(place: u32) -> Goal {
    Goal::Inst(InstIx(place))
}

// x with two peer contexts and y with two, each of which depends on the other; z on x, with a project as its peer.
fn graph(alloc: Global) -> Result<Vec<Instance>, Fail> {
    let mut all = Vec::new(alloc);
    add(&mut all, alloc, "p@1.0.0", &[], &[])?;
    add(&mut all, alloc, "p@2.0.0", &[], &[])?;
    add(&mut all, alloc, "x@1.0.0", &[("y", at(5))], &[("p", at(0))])?;
    add(&mut all, alloc, "x@1.0.0", &[("y", at(4))], &[("p", at(1))])?;
    add(
        &mut all,
        alloc,
        "y@1.0.0",
        &[("p", at(1)), ("x", at(3))],
        &[],
    )?;
    add(
        &mut all,
        alloc,
        "y@1.0.0",
        &[("p", at(1)), ("x", at(2))],
        &[],
    )?;
    let project = Goal::Project(ProjIx(0));
    add(
        &mut all,
        alloc,
        "z@1.0.0",
        &[("x", at(2))],
        &[("q", project)],
    )?;
    Ok(all)
}

fn add(
    all: &mut Vec<Instance>,
    alloc: Global,
    id: &str,
    deps: &[(&str, Goal)],
    peers: &[(&str, Goal)],
) -> Result<(), Fail> {
    let one = instance(alloc, id, deps, peers)?;
    all.push(one)?;
    Ok(())
}

const ROWS: [&[usize]; 7] = [&[], &[], &[0], &[1], &[], &[], &[0, 2]];

#[test]
fn a_pair_stops_where_its_name_is_an_alias(rt: HostRuntime) -> Result<(), Fail> {
    let alloc = rt.alloc();
    let graph = graph(alloc)?;
    let instances = graph.as_slice();
    if instances.len() != 7 {
        return Err(Fail::from("another count"));
    }
    if !are_in_range(instances, 1) {
        return Err(Fail::from("out of range"));
    }
    let outer = outer_pairs(alloc, instances)?;
    assert!(rt; outer.rows.len() == 7);
    for (i, row) in ROWS.iter().enumerate() {
        assert!(rt; outer.rows[i].as_slice() == *row, "{i}");
    }
    Ok(())
}
