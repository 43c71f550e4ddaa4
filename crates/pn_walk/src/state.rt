// The packages that were met, and the edges that were taken.
ghost use Rattle.std.specs.Prelude.{◌≤◌, length};
ghost use Rattle.pn_text.specs.declared.limits.TheConstants.{PACKAGE_LIMIT};

use crate::node::Node;
use crate::wish::{Place, Wish};
use pn_text::PACKAGE_LIMIT;
use std::collections::BTreeMap;

/// An edge that was taken, and where it leads.
#[derive(Drop)]
pub struct Taken {
    pub who: Place,
    pub wish: Wish,
    pub to: Option<Place>,
}

/// The packages that were met, the edges that were taken, and the place of each package under its id's text.
#[derive(Drop)]
pub struct Queue {
    pub nodes: Vec<Node>,
    pub links: Vec<Taken>,
    pub places: BTreeMap<String, u32>,
    pub ghost few: { length nodes.items ≤ PACKAGE_LIMIT },
}
