// Projects and packages with their links.
ghost use Rattle.std.specs.Prelude.{◌≡◌};

use crate::peer::Peers;
use pn_text::{PkgId, PkgIx, PkgName, ProjIx, Text};
use std::marker::Model;

/// A project or a package.
#[derive(Clone, Copy, Debug, PartialEq, Eq)]
pub enum At {
    Project(ProjIx),
    Package(PkgIx),
}

/// A dependency under an alias: its seen specifier, where it leads, and whether it is optional.
#[derive(Drop)]
pub struct Dep {
    pub alias: PkgName,
    pub specifier: Text,
    pub to: At,
    pub optional: bool,
}

/// Dependencies in byte order of aliases, each once.
#[derive(Drop)]
pub struct Deps {
    items: Vec<Dep>,
}

impl Model for Deps {
    ghost use Rattle.std.specs.Prelude.{List};
    ghost use Rattle.pn_graph.specs.declared.links.Dep.{Dep};

    ghost Value = { List Dep };

    ghost view = { λ a. a.items.items };
}

impl Deps {
    pub fn of(items: Vec<Dep>) -> Deps
        ensures { result ≡ items.items }
    {
        Deps { items }
    }

    pub fn as_slice(&self) -> &[Dep]
        ensures { result.now ≡ self.now }
    {
        self.items.as_slice()
    }
}

/// A package that is an automatic peer of a project.
#[derive(Drop)]
pub struct Auto {
    pub name: PkgName,
    pub to: PkgIx,
}

/// Automatic peers in byte order of names, each once.
#[derive(Drop)]
pub struct Autos {
    items: Vec<Auto>,
}

impl Model for Autos {
    ghost use Rattle.std.specs.Prelude.{List};
    ghost use Rattle.pn_graph.specs.declared.links.Auto.{Auto};

    ghost Value = { List Auto };

    ghost view = { λ a. a.items.items };
}

impl Autos {
    pub fn of(items: Vec<Auto>) -> Autos
        ensures { result ≡ items.items }
    {
        Autos { items }
    }

    pub fn as_slice(&self) -> &[Auto]
        ensures { result.now ≡ self.now }
    {
        self.items.as_slice()
    }
}

/// A project by its folder.
#[derive(Drop)]
pub struct Project {
    pub folder: Text,
    pub deps: Deps,
    pub autos: Autos,
}

/// Projects in byte order of folders.
#[derive(Drop)]
pub struct Projects {
    items: Vec<Project>,
}

impl Model for Projects {
    ghost use Rattle.std.specs.Prelude.{List};
    ghost use Rattle.pn_graph.specs.declared.links.Project.{Project};

    ghost Value = { List Project };

    ghost view = { λ a. a.items.items };
}

impl Projects {
    pub fn of(items: Vec<Project>) -> Projects
        ensures { result ≡ items.items }
    {
        Projects { items }
    }

    pub fn as_slice(&self) -> &[Project]
        ensures { result.now ≡ self.now }
    {
        self.items.as_slice()
    }
}

/// A package.
#[derive(Drop)]
pub struct Package {
    pub id: PkgId,
    pub deps: Deps,
    pub peers: Peers,
}

/// Packages in the order in which they were met.
#[derive(Drop)]
pub struct Packages {
    items: Vec<Package>,
}

impl Model for Packages {
    ghost use Rattle.std.specs.Prelude.{List};
    ghost use Rattle.pn_graph.specs.declared.links.Package.{Package};

    ghost Value = { List Package };

    ghost view = { λ a. a.items.items };
}

impl Packages {
    pub fn of(items: Vec<Package>) -> Packages
        ensures { result ≡ items.items }
    {
        Packages { items }
    }

    pub fn as_slice(&self) -> &[Package]
        ensures { result.now ≡ self.now }
    {
        self.items.as_slice()
    }
}
