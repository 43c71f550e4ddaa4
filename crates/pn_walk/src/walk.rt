// The walk from what projects ask for.
ghost use Rattle.std.specs.Prelude.{◌≡◌, ◌≤◌, ◌<◌, [], ◌^◌, Option, OnOk, OnErr, IfOk, IfErr, length, map};
ghost use Rattle.pn_walk.specs.Keeps.{Keeps};
ghost use Rattle.pn_walk.specs.Places.{IsTied};
ghost use Rattle.pn_walk.specs.Reads.{HasRead, ReadsOnce};
ghost use Rattle.pn_walk.specs.Walks.{start, IsWalked};
ghost use Rattle.pn_walk.specs.Calls.{at, Stops, OnWays, TookAll, StopsIn};
ghost use Rattle.pn_walk.specs.Starts.{turns_from, asked_of, folders_of};

use crate::fault::WalkFault;
use crate::node::Asks;
use crate::state::Queue;
use crate::ways::Ways;
use crate::wish::Place;
use std::alloc::Global;
use std::collections::BTreeMap;

/// Takes the edges of the projects in order, and then those of the packages as they are met. The first edge that can't be
/// taken is the refusal, by the asker's text, alias and specifier. The wishes of the edges that are taken are followed, and the
/// packages that are met are read, each once, and no others; of the edge that is refused too.
pub fn walked<W: Ways>(
    alloc: Global,
    ways: &mut W,
    projects: &[Asks],
) -> Result<Queue, WalkFault<W::Fault>>
    requires good { W.good ways.old }
    requires few { length projects.now < 2 ^ 32 }
    ensures walked { IfOk result (λ q. IsWalked (W.leads ways.old) (W.node ways.old) (start (turns_from 0 (asked_of projects.now))) (at [] q)) }
    ensures tied { IfOk result IsTied }
    ensures refused { IfErr result (Stops (W.leads ways.old) (W.node ways.old) (W.lost ways.old) (W.unread ways.old) (folders_of projects.now) (start (turns_from 0 (asked_of projects.now)))) }
    ensures read { IfOk result (λ q. HasRead (λ ws ids. W.follows ways.old ws ids ways.new) (start []) (at [] q)) }
    ensures once { OnErr result (ReadsOnce (W.leads ways.old) (W.node ways.old) (λ ws ids. W.stops ways.old ws ids ways.new) (start (turns_from 0 (asked_of projects.now)))) }
    ensures good { W.good ways.new }
    ensures broke { IfErr result (OnWays (W.broke ways.old ways.new)) }
{
    let mut queue = empty(alloc);
    if let Err(fault) = take_projects(alloc, ways, projects, &mut queue) {
        return Err(fault);
    }
    match queue.take_rest(alloc, ways) {
        Ok(()) => Ok(queue),
        Err(fault) => Err(fault),
    }
}

fn empty(alloc: Global) -> Queue
    ensures nodes { result.nodes.items ≡ [] }
    ensures links { result.links.items ≡ [] }
    ensures tied { IsTied result }
{
    Queue {
        nodes: Vec::new(alloc),
        links: Vec::new(alloc),
        places: BTreeMap::new(alloc),
    }
}

// Takes the edges of the projects.
fn take_projects<W: Ways>(
    alloc: Global,
    ways: &mut W,
    projects: &[Asks],
    queue: &mut Queue,
) -> Result<(), WalkFault<W::Fault>>
    requires good { W.good ways.old }
    requires tied { IsTied queue.old }
    requires few { length projects.now < 2 ^ 32 }
    ensures took { OnOk result (TookAll (W.leads ways.old) (W.node ways.old) (turns_from 0 (asked_of projects.now)) queue.old queue.new) }
    ensures refused { IfErr result (StopsIn (W.leads ways.old) (W.node ways.old) (W.lost ways.old) (W.unread ways.old) (folders_of projects.now) (turns_from 0 (asked_of projects.now)) queue.old) }
    ensures good { W.good ways.new }
    ensures tied { OnOk result (IsTied queue.new) }
    ensures kept { Keeps (W.leads ways.old) (W.leads ways.new) (W.node ways.old) (W.node ways.new) (W.lost ways.old) (W.lost ways.new) (W.unread ways.old) (W.unread ways.new) }
    ensures read { OnOk result (HasRead (λ ws ids. W.follows ways.old ws ids ways.new) (at [] queue.old) (at [] queue.new)) }
    ensures once { OnErr result (ReadsOnce (W.leads ways.old) (W.node ways.old) (λ ws ids. W.stops ways.old ws ids ways.new) (at (turns_from 0 (asked_of projects.now)) queue.old)) }
    ensures broke { IfErr result (OnWays (W.broke ways.old ways.new)) }
{
    for q in 0..projects.len() {
        let project = &projects[q];
        if let Err(fault) = queue.take_all(
            alloc,
            ways,
            Place::Project(q as u32),
            project.from.as_str(),
            project.wishes.as_slice(),
        ) {
            return Err(fault);
        }
    }
    Ok(())
}
