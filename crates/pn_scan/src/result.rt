// What a scan found.
ghost use Rattle.std.specs.Prelude.{◌≡◌};
ghost use Rattle.pn_scan.specs.Managed.{AreApart};
ghost use Rattle.pn_scan.specs.Scans.{Scanned, IsRising};

use pn_fs::Kind;
use pn_text::{AbsPath, Text};
use std::marker::Model;

/// What stands at and below managed folders, in byte order of the paths. Contracts see the folders, each with its marker's
/// text, and the list of paths with their kinds.
#[derive(Drop)]
pub struct Scan {
    managed: Vec<(AbsPath, Text)>,
    entries: Vec<(AbsPath, Kind)>,
}

impl Model for Scan {
    ghost use Rattle.pn_scan.specs.Managed.{AreApart};
    ghost use Rattle.pn_scan.specs.Scans.{Scanned, IsRising};

    ghost Value = { Scanned };

    ghost view = { λ a. record { managed = a.managed.items; entries = a.entries.items } };

    ghost invariant = { λ a. IsRising a.entries.items × AreApart a.managed.items };
}

impl Scan {
    /// The managed folders with their markers' texts, in the order in which they were given.
    pub fn managed(&self) -> &[(AbsPath, Text)]
        ensures list { result.now ≡ self.now.managed }
        ensures apart { AreApart result.now }
    {
        self.managed.as_slice()
    }

    /// What stands there, in byte order of the paths: a folder before its entries.
    pub fn entries(&self) -> &[(AbsPath, Kind)]
        ensures list { result.now ≡ self.now.entries }
        ensures rising { IsRising result.now }
    {
        self.entries.as_slice()
    }
}

/// Takes folders that are apart, and entries that are in order.
pub fn scanned(managed: Vec<(AbsPath, Text)>, entries: Vec<(AbsPath, Kind)>) -> Scan
    requires apart { AreApart managed.items }
    requires rising { IsRising entries.items }
    ensures managed { result.managed ≡ managed.items }
    ensures entries { result.entries ≡ entries.items }
{
    Scan { managed, entries }
}
