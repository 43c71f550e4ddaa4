// What a run asks of a lock.
ghost use Rattle.std.specs.Prelude.{◌≡◌};
ghost use Rattle.pn_spec.specs.Entries.{AreCatalogs};
ghost use Rattle.pn_asked.specs.Asked.{IsAsked, asked};

use pn_spec::{CatalogEntry, Catalogs};
use pn_text::{PkgName, Text};
use sqlite_items::Items;
use std::marker::Model;

/// A project: its folder, and the names of its three maps with their specifiers.
#[derive(Drop)]
pub struct AskedProject {
    pub folder: Text,
    pub dependencies: Items<(PkgName, Text)>,
    pub dev: Items<(PkgName, Text)>,
    pub optional: Items<(PkgName, Text)>,
}

/// What a run asks for: settings, overrides, catalogs and projects, each list in byte order of its keys.
#[derive(Drop)]
pub struct Asked {
    auto_install_peers: bool,
    overrides: Items<(Text, Text)>,
    catalogs: Catalogs,
    projects: Items<AskedProject>,
}

impl Model for Asked {
    ghost use Rattle.pn_asked.specs.Asked.{AskedLists, IsAsked, asked};

    ghost Value = { AskedLists };

    ghost view = { λ a. asked a.auto_install_peers a.overrides a.catalogs a.projects };

    ghost invariant = { λ a. IsAsked (asked a.auto_install_peers a.overrides a.catalogs a.projects) };
}

impl Asked {
    /// What these lists ask for.
    pub fn of(
        auto_install_peers: bool,
        overrides: Items<(Text, Text)>,
        catalogs: Catalogs,
        projects: Items<AskedProject>,
    ) -> Asked
        requires { IsAsked (asked auto_install_peers overrides catalogs projects) }
        ensures { result ≡ asked auto_install_peers overrides catalogs projects }
    {
        Asked {
            auto_install_peers,
            overrides,
            catalogs,
            projects,
        }
    }

    /// Whether peers that are in no manifest are to be installed.
    pub fn auto_install_peers(&self) -> bool
        ensures { result ≡ self.now.auto }
    {
        self.auto_install_peers
    }

    /// The overrides, by selector.
    pub fn overrides(&self) -> &[(Text, Text)]
        ensures list { result.now ≡ self.now.overrides }
        ensures kept { IsAsked self.now }
    {
        self.overrides.as_slice()
    }

    /// The entries of the catalogs.
    pub fn catalogs(&self) -> &[CatalogEntry]
        ensures list { result.now ≡ self.now.catalogs }
        ensures kept { AreCatalogs self.now.catalogs }
    {
        self.catalogs.as_slice()
    }

    /// The projects, by folder.
    pub fn projects(&self) -> &[AskedProject]
        ensures list { result.now ≡ self.now.projects }
        ensures kept { IsAsked self.now }
    {
        self.projects.as_slice()
    }
}
