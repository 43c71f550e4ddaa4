// Instances.
ghost use Rattle.std.specs.Prelude.{◌≡◌, true};
ghost use Rattle.pn_instances.specs.Instances.{are_instances};

use crate::links::{LinkLists, Places};

/// The package of each instance, its links, and the links of each project: each instance has a list of links, every target is
/// in range, and names rise.
#[derive(Drop)]
pub struct Instances {
    pub packages: Places,
    pub links: LinkLists,
    pub roots: LinkLists,
    pub ghost right: { are_instances packages links roots ≡ true },
}

impl Instances {
    pub fn of(packages: Places, links: LinkLists, roots: LinkLists) -> Instances
        requires { are_instances packages links roots ≡ true }
        ensures packages { result.packages ≡ packages }
        ensures links { result.links ≡ links }
        ensures roots { result.roots ≡ roots }
    {
        Instances {
            packages,
            links,
            roots,
        }
    }
}
