// Walks over what an object in memory tells.
ghost use Rattle.std.specs.Prelude.{◌≡◌, ◌<◌, ◌^◌, IfOk, length};
ghost use Rattle.pn_walk.specs.Keeps.{Keeps};

use crate::{Aim, Asks, Node, Queue, WalkFault, Ways, Wish, Wishes, walked};
use pn_manifest::Peers;
use pn_text::{Memory, PkgId, PkgName, Text};
use std::alloc::Global;
use std::test::Fail;
use thiserror::Error;

// Who asks, under which alias and for what: a package's id, `?` which comes to nothing, or `!` which leads nowhere.
const ASKED: [(&str, &str, &str); 8] = [
    ("one", "a", "a@1.0.0"),
    ("one", "b", "b@1.0.0"),
    ("two", "d", "d@1.0.0"),
    ("three", "c", "c@1.0.0"),
    ("three", "n", "?"),
    ("a@1.0.0", "x", "!"),
    ("b@1.0.0", "y", "!"),
    ("c@1.0.0", "c", "c@1.0.0"),
];

#[derive(Debug, Drop, Error)]
enum Lost {
    #[error("leads nowhere")]
    Nowhere,
    #[error("isn't told")]
    Unread,
    #[error("out of memory")]
    Memory,
}

fn wish(alloc: Global, alias: &str, specifier: &str) -> Result<Wish, Memory> {
    let Ok(alias) = PkgName::read(alloc, alias) else {
        return Err(Memory);
    };
    let specifier = Text::of(alloc, specifier)?;
    Ok(Wish {
        alias,
        specifier,
        optional: false,
        chosen: None,
    })
}

fn asked(alloc: Global, by: &str) -> Result<Wishes, Memory> {
    let mut items = Vec::new(alloc);
    for (who, alias, specifier) in ASKED {
        if who == by {
            items.push(wish(alloc, alias, specifier)?)?;
        }
    }
    Ok(Wishes::of(items))
}

fn package(alloc: Global, id: &PkgId) -> Result<Node, Memory>
    ensures { IfOk result (λ n. n.id ≡ id.now) }
{
    let wishes = asked(alloc, id.as_str())?;
    let id = id.copy(alloc)?;
    let peers = Peers::of(Vec::new(alloc));
    Ok(Node { id, wishes, peers })
}

#[derive(Drop)]
struct Shelf;

impl Ways for Shelf {
    type Fault = Lost;

    ghost good = { λ s. Unit {0} };

    ghost leads = { λ s w a. Unit {0} };

    ghost node = { λ s n. Unit {0} };

    ghost lost = { λ s w f. Unit {0} };

    ghost unread = { λ s i f. Unit {0} };

    ghost follows = { λ s ws ids t. Unit {0} };

    ghost stops = { λ s ws ids t. Unit {0} };

    ghost broke = { λ s t f. Unit {0} };

    ghost rests = { λ s. tt };

    ghost goes_on = { λ a b c ws vs is js h k. tt };

    ghost may_stop = { λ a b ws is h. tt };

    ghost stops_later = { λ a b c ws vs is js h k. tt };

    ghost broke_later = { λ a b c ws is f h k. tt };

    fn follow(&mut self, alloc: Global, wish: &Wish) -> Result<Option<Aim>, Lost> {
        if wish.specifier.as_str() == "?" {
            return Ok(None);
        }
        match PkgId::read(alloc, wish.specifier.as_str()) {
            Ok(Some(id)) => Ok(Some(Aim::Package(id))),
            Ok(None) => Err(Lost::Nowhere),
            Err(_) => Err(Lost::Memory),
        }
    }

    fn read(&mut self, alloc: Global, id: &PkgId) -> Result<Node, Lost> {
        if id.as_str() == "d@1.0.0" {
            return Err(Lost::Unread);
        }
        match package(alloc, id) {
            Ok(node) => Ok(node),
            Err(_) => Err(Lost::Memory),
        }
    }
}

fn walk(alloc: Global, folders: &[&str]) -> Result<Result<Queue, WalkFault<Lost>>, Fail> {
    let mut projects = Vec::new(alloc);
    for folder in folders {
        let from = Text::of(alloc, folder)?;
        let wishes = asked(alloc, folder)?;
        projects.push(Asks { from, wishes })?;
    }
    let mut shelf = Shelf;
    if projects.len() > 3 {
        return Err(Fail::from(Memory));
    }
    Ok(walked(alloc, &mut shelf, projects.as_slice()))
}

#[test]
fn the_first_edge_that_is_refused_is_named(rt: HostRuntime) -> Result<(), Fail> {
    let alloc = rt.alloc();
    for (folders, want) in [
        (["three", "one"], "a@1.0.0 > x@!: leads nowhere"),
        (["one", "two"], "two > d@d@1.0.0: isn't told"),
    ] {
        match walk(alloc, folders.as_slice())? {
            Ok(_) => assert!(rt; false, "{want}"),
            Err(fault) => {
                let text = format!(in alloc; "{fault}")?;
                assert_eq!(rt; text.as_str(), want);
            }
        }
    }
    Ok(())
}

#[test]
fn a_package_is_met_once(rt: HostRuntime) -> Result<(), Fail> {
    let alloc = rt.alloc();
    match walk(alloc, ["three", "three"].as_slice())? {
        Ok(queue) => {
            assert_eq!(rt; queue.nodes.len(), 1);
            assert_eq!(rt; queue.links.len(), 5);
            assert!(rt; queue.links[1].to.is_none());
        }
        Err(fault) => assert!(rt; false, "{fault}"),
    }
    Ok(())
}
