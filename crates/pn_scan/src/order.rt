// Entries in byte order of their paths.
ghost use Rattle.std.specs.Prelude.{◌≡◌, IfOk};
ghost use Rattle.std.specs.Cmp.Lexicographic.{slice_cmp};
ghost use Rattle.std.specs.Ordering.{nat_cmp, is_eq};
ghost use Rattle.pn_text.specs.Path.{path_text};
ghost use Rattle.pn_scan.specs.Scans.{IsRising};
ghost use Rattle.pn_scan.specs.Turns.{KeepsPaths};

use pn_fs::Kind;
use pn_text::{AbsPath, Memory};
use std::cmp::Ordering;

/// Puts entries in order, each path once.
pub fn in_order(mut entries: Vec<(AbsPath, Kind)>) -> Result<Vec<(AbsPath, Kind)>, Memory>
    ensures rising { IfOk result (λ v. IsRising v.items) }
    ensures keeps { IfOk result (λ v. KeepsPaths entries.items v.items) }
{
    entries.sort_by(|a, b| by_path(a, b))?;
    entries.dedup_by(|a, b| same_path(a, b));
    Ok(entries)
}

fn by_path(a: &(AbsPath, Kind), b: &(AbsPath, Kind)) -> Ordering
    ensures { result ≡ slice_cmp nat_cmp (path_text a.now.0) (path_text b.now.0) }
{
    a.0.as_str().cmp(b.0.as_str())
}

fn same_path(a: &(AbsPath, Kind), b: &(AbsPath, Kind)) -> bool
    ensures { result ≡ is_eq (slice_cmp nat_cmp (path_text a.now.0) (path_text b.now.0)) }
{
    by_path(a, b).is_eq()
}
