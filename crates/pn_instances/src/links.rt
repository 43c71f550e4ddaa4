// Links by their names, and lists of them.
ghost use Rattle.std.specs.Prelude.{◌≡◌};

use crate::goal::Goal;
use pn_text::{PkgIx, PkgName};
use std::marker::Model;

/// A name, and what it leads to.
#[derive(Drop)]
pub struct Link {
    pub name: PkgName,
    pub to: Goal,
}

/// Links in byte order of names, each once.
#[derive(Drop)]
pub struct Links {
    items: Vec<Link>,
}

impl Model for Links {
    ghost use Rattle.std.specs.Prelude.{List};
    ghost use Rattle.pn_instances.specs.declared.links.Link.{Link};

    ghost Value = { List Link };

    ghost view = { λ a. a.items.items };
}

impl Links {
    pub fn of(items: Vec<Link>) -> Links
        ensures { result ≡ items.items }
    {
        Links { items }
    }

    pub fn as_slice(&self) -> &[Link]
        ensures { result.now ≡ self.now }
    {
        self.items.as_slice()
    }
}

/// Links of each of several instances, or of several projects.
#[derive(Drop)]
pub struct LinkLists {
    items: Vec<Links>,
}

impl Model for LinkLists {
    ghost use Rattle.std.specs.Prelude.{List};
    ghost use Rattle.pn_instances.specs.declared.links.Link.{Link};

    ghost Value = { List (List Link) };

    ghost view = { λ a. a.items.items };
}

impl LinkLists {
    pub fn of(items: Vec<Links>) -> LinkLists
        ensures { result ≡ items.items }
    {
        LinkLists { items }
    }

    pub fn as_slice(&self) -> &[Links]
        ensures { result.now ≡ self.now }
    {
        self.items.as_slice()
    }
}

/// Places of packages.
#[derive(Drop)]
pub struct Places {
    items: Vec<PkgIx>,
}

impl Model for Places {
    ghost use Rattle.std.specs.Prelude.{List};
    ghost use Rattle.pn_text.specs.declared.index.PkgIx.{PkgIx};

    ghost Value = { List PkgIx };

    ghost view = { λ a. a.items.items };
}

impl Places {
    pub fn of(items: Vec<PkgIx>) -> Places
        ensures { result ≡ items.items }
    {
        Places { items }
    }

    pub fn as_slice(&self) -> &[PkgIx]
        ensures { result.now ≡ self.now }
    {
        self.items.as_slice()
    }
}
