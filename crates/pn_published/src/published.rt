// The published versions of a name.
ghost use Rattle.std.specs.Prelude.{◌≡◌, ◌≤◌, length, map};
ghost use Rattle.semver.specs.Identifiers.{parts_of};
ghost use Rattle.pn_text.specs.declared.limits.TheConstants.{ENTRY_LIMIT};
ghost use Rattle.pn_published.specs.Versions.{IsRising, AreParsed};
ghost use Rattle.pn_published.specs.Tags.{AreRisingTags};
ghost use Rattle.pn_published.specs.Listed.{tagged};

use pn_text::{Text, VersionIx};
use semver::Version;
use std::alloc::Global;
use std::marker::Model;

/// Versions that rise, at most 4,194,304. Contracts see their parts.
#[derive(Drop)]
pub struct Versions {
    items: Vec<Version>,
}

impl Model for Versions {
    ghost use Rattle.std.specs.Prelude.{◌≤◌, List, length, map};
    ghost use Rattle.semver.specs.Parse.{Parts};
    ghost use Rattle.semver.specs.Identifiers.{parts_of};
    ghost use Rattle.pn_text.specs.declared.limits.TheConstants.{ENTRY_LIMIT};
    ghost use Rattle.pn_published.specs.Versions.{IsRising, AreParsed};

    ghost Value = { List Parts };

    ghost view = { λ a. map parts_of a.items.items };

    ghost invariant = { λ a. IsRising (map parts_of a.items.items) × (length a.items.items ≤ ENTRY_LIMIT) × AreParsed (map parts_of a.items.items) };
}

impl Versions {
    pub(crate) fn of(items: Vec<Version>) -> Versions
        requires rising { IsRising (map parts_of items.items) }
        requires few { length items.items ≤ ENTRY_LIMIT }
        requires parsed { AreParsed (map parts_of items.items) }
        ensures { result ≡ map parts_of items.items }
    {
        Versions { items }
    }

    pub fn as_slice(&self) -> &[Version]
        ensures versions { map parts_of result.now ≡ self.now }
        ensures rising { IsRising self.now }
        ensures few { length result.now ≤ ENTRY_LIMIT }
        ensures parsed { AreParsed self.now }
    {
        self.items.as_slice()
    }
}

/// A tag, and the place of its version.
#[derive(Drop)]
pub struct Tag {
    pub name: Text,
    pub version: VersionIx,
}

/// Tags in byte order, each once.
#[derive(Drop)]
pub struct Tags {
    items: Vec<Tag>,
}

impl Model for Tags {
    ghost use Rattle.std.specs.Prelude.{List, map};
    ghost use Rattle.pn_published.specs.Tags.{Tagged, AreRisingTags};
    ghost use Rattle.pn_published.specs.Listed.{tagged};

    ghost Value = { List Tagged };

    ghost view = { λ a. map tagged a.items.items };

    ghost invariant = { λ a. AreRisingTags (map tagged a.items.items) };
}

impl Tags {
    pub(crate) fn of(items: Vec<Tag>) -> Tags
        requires { AreRisingTags (map tagged items.items) }
        ensures { result ≡ map tagged items.items }
    {
        Tags { items }
    }

    pub fn as_slice(&self) -> &[Tag]
        ensures tags { map tagged result.now ≡ self.now }
        ensures rising { AreRisingTags self.now }
    {
        self.items.as_slice()
    }
}

/// The published versions of a name, the place of the latest of them, and the tags whose version is published.
#[derive(Drop)]
pub struct Published {
    pub versions: Versions,
    pub latest: Option<VersionIx>,
    pub tags: Tags,
}
