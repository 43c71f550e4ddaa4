// Dep paths of small graphs.
use crate::base::base_texts;
use pn_deppath::with_ordinals;
use pn_outer::{Goal, Instance, Link, Links, are_in_range};
use pn_text::{InstIx, PkgId, PkgName, ProjIx, Text};
use std::alloc::Global;
use std::test::Fail;

// Where a name leads: the place of an instance, or the project.
type Pair = (&'static str, u32);

const Q: u32 = 99;

// An instance: its package, the links of the package's aliases, its provided peers, and its dep path.
struct Row {
    id: &'static str,
    deps: &'static [Pair],
    peers: &'static [Pair],
    path: &'static str,
}

// a package in two peer contexts
const CONTEXTS: [Row; 7] = [
    Row {
        id: "m@1.0.0",
        deps: &[("bar", 2), ("baz", 4), ("foo", 3)],
        peers: &[],
        path: "m@1.0.0",
    },
    Row {
        id: "n@1.0.0",
        deps: &[("bar", 2), ("baz", 5), ("foo", 6)],
        peers: &[],
        path: "n@1.0.0",
    },
    Row {
        id: "bar@1.0.0",
        deps: &[],
        peers: &[],
        path: "bar@1.0.0",
    },
    Row {
        id: "foo@1.0.0",
        deps: &[],
        peers: &[("bar", 2), ("baz", 4)],
        path: "foo@1.0.0(bar@1.0.0)(baz@1.0.0)",
    },
    Row {
        id: "baz@1.0.0",
        deps: &[],
        peers: &[],
        path: "baz@1.0.0",
    },
    Row {
        id: "baz@1.1.0",
        deps: &[],
        peers: &[],
        path: "baz@1.1.0",
    },
    Row {
        id: "foo@1.0.0",
        deps: &[],
        peers: &[("bar", 2), ("baz", 5)],
        path: "foo@1.0.0(bar@1.0.0)(baz@1.1.0)",
    },
];

// peers of each other, and one that has both
const CYCLE: [Row; 3] = [
    Row {
        id: "a@1.0.0",
        deps: &[],
        peers: &[("b", 1)],
        path: "a@1.0.0(b@1.0.0)",
    },
    Row {
        id: "b@1.0.0",
        deps: &[],
        peers: &[("a", 0)],
        path: "b@1.0.0(a@1.0.0)",
    },
    Row {
        id: "c@1.0.0",
        deps: &[],
        peers: &[("a", 0)],
        path: "c@1.0.0(a@1.0.0(b@1.0.0))",
    },
];

// two instances with one base text, and a project that is a peer
const SAME: [Row; 7] = [
    Row {
        id: "p@1.0.0",
        deps: &[],
        peers: &[],
        path: "p@1.0.0",
    },
    Row {
        id: "p@2.0.0",
        deps: &[],
        peers: &[],
        path: "p@2.0.0",
    },
    Row {
        id: "x@1.0.0",
        deps: &[("y", 5)],
        peers: &[("p", 0)],
        path: "x@1.0.0(p@1.0.0)",
    },
    Row {
        id: "x@1.0.0",
        deps: &[("y", 4)],
        peers: &[("p", 1)],
        path: "x@1.0.0(p@2.0.0)",
    },
    Row {
        id: "y@1.0.0",
        deps: &[("p", 1), ("x", 3)],
        peers: &[],
        path: "y@1.0.0",
    },
    Row {
        id: "y@1.0.0",
        deps: &[("p", 1), ("x", 2)],
        peers: &[],
        path: "y@1.0.0(~2)",
    },
    Row {
        id: "z@1.0.0",
        deps: &[("x", 2)],
        peers: &[("q", Q)],
        path: "z@1.0.0(p@1.0.0)(q@link:packages+q+r)",
    },
];

// groups as they stand in parentheses, each once
const ORDER: [Row; 4] = [
    Row {
        id: "b@1.0.0",
        deps: &[],
        peers: &[],
        path: "b@1.0.0",
    },
    Row {
        id: "a@1.0.0",
        deps: &[],
        peers: &[],
        path: "a@1.0.0",
    },
    Row {
        id: "a@1.0.0",
        deps: &[],
        peers: &[("b", 0)],
        path: "a@1.0.0(b@1.0.0)",
    },
    Row {
        id: "d@1.0.0",
        deps: &[],
        peers: &[("c", 1), ("e", 2), ("f", 1)],
        path: "d@1.0.0(a@1.0.0(b@1.0.0))(a@1.0.0)",
    },
];

fn links(alloc: Global, pairs: &[Pair]) -> Result<Links, Fail> {
    let mut items = Vec::new(alloc);
    for (name, to) in pairs {
        let name = PkgName::read(alloc, name)?;
        let to = if *to == Q {
            Goal::Project(ProjIx(0))
        } else {
            Goal::Inst(InstIx(*to))
        };
        items.push(Link { name, to })?;
    }
    Ok(Links::of(items))
}

fn instance(alloc: Global, id: &str, deps: Links, peers: Links) -> Result<Instance, Fail> {
    let read = PkgId::read(alloc, id)?;
    match read {
        Some(id) => Ok(Instance { id, deps, peers }),
        None => Err(Fail::from("no id")),
    }
}

fn instances(alloc: Global, rows: &[Row]) -> Result<Vec<Instance>, Fail> {
    let mut all = Vec::new(alloc);
    for row in rows {
        let deps = links(alloc, row.deps)?;
        let peers = links(alloc, row.peers)?;
        let one = instance(alloc, row.id, deps, peers)?;
        all.push(one)?;
    }
    Ok(all)
}

fn paths_of(alloc: Global, instances: &[Instance]) -> Result<Vec<Text>, Fail> {
    let folders = vec![in alloc; Text::of(alloc, "packages/q r")?]?;
    if instances.len() > 200 {
        return Err(Fail::from("too many"));
    }
    if !are_in_range(instances, folders.len()) {
        return Err(Fail::from("out of range"));
    }
    let texts = base_texts(alloc, instances, &folders)?;
    Ok(with_ordinals(alloc, &texts)?)
}

#[test]
fn dep_paths_name_the_peers_of_instances(rt: HostRuntime) -> Result<(), Fail> {
    let alloc = rt.alloc();
    let tables: [&[Row]; 4] = [&CONTEXTS, &CYCLE, &SAME, &ORDER];
    for rows in &tables {
        let instances = instances(alloc, rows)?;
        let paths = paths_of(alloc, &instances)?;
        assert!(rt; paths.len() == rows.len());
        for (i, path) in paths.iter().enumerate() {
            assert_eq!(rt; path.as_str(), rows[i].path);
        }
    }
    Ok(())
}

#[test]
fn long_groups_become_digits(rt: HostRuntime) -> Result<(), Fail> {
    let alloc = rt.alloc();
    let mut all = Vec::new(alloc);
    let mut peers = Vec::new(alloc);
    for k in 0..100u32 {
        let n = k + 100;
        let name = format!(in alloc; "p{n}")?;
        let id = format!(in alloc; "p{n}@1.0.0")?;
        let none = Links::of(Vec::new(alloc));
        let one = instance(alloc, id.as_str(), none, Links::of(Vec::new(alloc)))?;
        all.push(one)?;
        let name = PkgName::read(alloc, name.as_str())?;
        peers.push(Link {
            name,
            to: Goal::Inst(InstIx(k)),
        })?;
    }
    let none = Links::of(Vec::new(alloc));
    let last = instance(alloc, "x@1.0.0", none, Links::of(peers))?;
    all.push(last)?;
    let mut paths = paths_of(alloc, &all)?;
    let path = paths.pop();
    let Some(path) = path else {
        return Err(Fail::from("no path"));
    };
    assert_eq!(rt; path.as_str(), "x@1.0.0(ef875e13385636e9b8904fa3e4cb42ca)");
    Ok(())
}
