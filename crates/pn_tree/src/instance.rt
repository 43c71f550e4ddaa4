// Packages and links of a planned tree.
ghost use Rattle.std.specs.Prelude.{◌≡◌};

use pn_digest::Listing;
use pn_text::{AbsPath, PkgName, Text};
use std::marker::Model;

/// A name, and the folder that its link leads to.
#[derive(Drop)]
pub struct Target {
    pub name: PkgName,
    pub to: AbsPath,
}

/// The links of an instance. Contracts see the list of targets.
#[derive(Drop)]
pub struct Targets {
    items: Vec<Target>,
}

impl Model for Targets {
    ghost use Rattle.std.specs.Prelude.{List};
    ghost use Rattle.pn_tree.specs.declared.instance.Target.{Target};

    ghost Value = { List Target };

    ghost view = { λ a. a.items.items };
}

impl Targets {
    pub fn of(items: Vec<Target>) -> Targets
        ensures { result ≡ items.items }
    {
        Targets { items }
    }

    pub fn as_slice(&self) -> &[Target]
        ensures { result.now ≡ self.now }
    {
        self.items.as_slice()
    }
}

/// An instance of a package: the name of its folder in the virtual store, the package's name, its files by content, and
/// the links beside it.
#[derive(Drop)]
pub struct Instance {
    pub dir: Text,
    pub name: PkgName,
    pub files: Listing,
    pub links: Targets,
}

/// A link in a `node_modules` outside the instances: a project's, or one of hoisting.
#[derive(Drop)]
pub struct Top {
    pub holder: AbsPath,
    pub name: PkgName,
    pub to: AbsPath,
}
