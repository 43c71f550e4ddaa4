// Where links lead to.
ghost use Rattle.std.specs.Prelude.{◌≡◌, true, length};
ghost use Rattle.std.specs.List.{list_all};
ghost use Rattle.pn_outer.specs.Instances.{AreInRange, ArePeersThere, are_there, is_there};

use crate::instance::{Goal, Instance, Link};

/// Whether each link leads to one of the instances, or to one of that many projects.
pub fn are_in_range(instances: &[Instance], projects: usize) -> bool
    ensures dependencies { result ≡ true → AreInRange instances.now }
    ensures peers { result ≡ true → ArePeersThere projects instances.now }
{
    all_there(instances, instances.len(), projects)
}

fn all_there(instances: &[Instance], count: usize, projects: usize) -> bool
    ensures { result ≡ list_all (are_there count projects) instances.now }
{
    for instance in instances {
        if !links_there(instance.deps.as_slice(), count, projects) {
            return false;
        }
        if !links_there(instance.peers.as_slice(), count, projects) {
            return false;
        }
    }
    true
}

fn links_there(links: &[Link], count: usize, projects: usize) -> bool
    ensures { result ≡ list_all (is_there count projects) links.now }
{
    for link in links {
        if !is_there(link, count, projects) {
            return false;
        }
    }
    true
}

fn is_there(link: &Link, count: usize, projects: usize) -> bool
    ensures { result ≡ is_there count projects link.now }
{
    match link.to {
        Goal::Project(q) => (q.0 as usize) < projects,
        Goal::Inst(i) => (i.0 as usize) < count,
    }
}
