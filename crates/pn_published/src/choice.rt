// The choice among published versions.
ghost use Rattle.std.specs.Prelude.{◌≡◌, ◌≤◌, ◌&&◌, Some, length, map, option_map, if◌then◌else◌};
ghost use Rattle.semver.specs.Identifiers.{parts_of};
ghost use Rattle.std.specs.List.{list_any};
ghost use Rattle.pn_published.specs.Versions.{same_version};
ghost use Rattle.pn_published.specs.Choice.{fits, is_held, if_passes, chosen};
ghost use Rattle.pn_published.specs.Listed.{number};
ghost use Rattle.pn_published.specs.Places.{last_place};
ghost use Rattle.pn_text.specs.declared.limits.TheConstants.{ENTRY_LIMIT};

use crate::order::version_cmp;
use crate::published::Published;
use crate::shelf::newer;
use pn_ranges::Range;
use pn_text::VersionIx;
use semver::Version;

/// Of the published versions that satisfy all ranges: the greatest that is held, else the latest, else the greatest.
pub fn choose(list: &Published, held: &[Version], ranges: &[Range]) -> Option<VersionIx>
    ensures { option_map number result ≡ chosen list.now.versions (option_map number list.now.latest) (map parts_of held.now) ranges.now }
{
    let versions = list.versions.as_slice();
    if let Some(at) = last_held(versions, held, ranges) {
        return Some(at);
    }
    if let Some(at) = if_fits(versions, list.latest, ranges) {
        return Some(at);
    }
    last_fitting(versions, ranges)
}

fn fits(version: &Version, ranges: &[Range]) -> bool
    ensures { result ≡ fits ranges.now (parts_of version.now) }
{
    ranges.iter().all(|range| range.holds(version))
}

fn is_held(version: &Version, held: &[Version]) -> bool
    ensures { result ≡ is_held (map parts_of held.now) (parts_of version.now) }
{
    any_same(version, held)
}

fn any_same(version: &Version, held: &[Version]) -> bool
    ensures { result ≡ list_any (λ u. same_version (parts_of u) (parts_of version.now)) held.now }
{
    held.iter().any(|one| version_cmp(one, version).is_eq())
}

fn fits_held(version: &Version, held: &[Version], ranges: &[Range]) -> bool
    ensures { result ≡ (fits ranges.now (parts_of version.now) && is_held (map parts_of held.now) (parts_of version.now)) }
{
    fits(version, ranges) && is_held(version, held)
}

fn last_held(versions: &[Version], held: &[Version], ranges: &[Range]) -> Option<VersionIx>
    requires { length versions.now ≤ ENTRY_LIMIT }
    ensures { option_map number result ≡ last_place (λ v. fits ranges.now v && is_held (map parts_of held.now) v) (map parts_of versions.now) }
{
    let mut last = None;
    for at in 0..versions.len() {
        last = newer(fits_held(&versions[at], held, ranges), at as u32, last);
    }
    last
}

fn last_fitting(versions: &[Version], ranges: &[Range]) -> Option<VersionIx>
    requires { length versions.now ≤ ENTRY_LIMIT }
    ensures { option_map number result ≡ last_place (fits ranges.now) (map parts_of versions.now) }
{
    let mut last = None;
    for at in 0..versions.len() {
        last = newer(fits(&versions[at], ranges), at as u32, last);
    }
    last
}

fn if_fits(versions: &[Version], at: Option<VersionIx>, ranges: &[Range]) -> Option<VersionIx>
    ensures { option_map number result ≡ if_passes (fits ranges.now) (map parts_of versions.now) (option_map number at) }
{
    let at = at?;
    let version = versions.get(at.0 as usize)?;
    if fits(version, ranges) {
        Some(at)
    } else {
        None
    }
}
