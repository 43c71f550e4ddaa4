// Instances and their links.
ghost use Rattle.std.specs.Prelude.{◌≡◌, true};
ghost use Rattle.pn_outer.specs.Instances.{has_alias};

use pn_text::{InstIx, PkgId, PkgName, ProjIx};
use std::marker::Model;

/// Where a link leads: to a project, or to an instance.
#[derive(Clone, Copy, Debug, PartialEq, Eq)]
pub enum Goal {
    Project(ProjIx),
    Inst(InstIx),
}

/// A name, and where it leads.
#[derive(Drop)]
pub struct Link {
    pub name: PkgName,
    pub to: Goal,
}

/// Links in byte order of names, each once.
#[derive(Drop)]
pub struct Links {
    items: Vec<Link>,
}

impl Model for Links {
    ghost use Rattle.std.specs.Prelude.{List};
    ghost use Rattle.pn_outer.specs.declared.instance.Link.{Link};

    ghost Value = { List Link };

    ghost view = { λ a. a.items.items };
}

impl Links {
    pub fn of(items: Vec<Link>) -> Links
        ensures { result ≡ items.items }
    {
        Links { items }
    }

    pub fn as_slice(&self) -> &[Link]
        ensures { result.now ≡ self.now }
    {
        self.items.as_slice()
    }
}

/// An instance: its package, the links of the package's aliases, and its provided peers.
#[derive(Drop)]
pub struct Instance {
    pub id: PkgId,
    pub deps: Links,
    pub peers: Links,
}

/// Whether a link has that name.
pub(crate) fn has_alias(links: &[Link], name: &PkgName) -> bool
    ensures { result ≡ has_alias name.now links.now }
{
    for link in links {
        if name.as_str() == link.name.as_str() {
            return true;
        }
    }
    false
}
