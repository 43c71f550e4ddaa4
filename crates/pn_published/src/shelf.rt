// The tags whose version is published, and the latest version.
ghost use Rattle.std.specs.Prelude.{◌≡◌, ◌≤◌, ◌++◌, ◌∷◌, [], IfOk, IfErr, OnOk, map, length, option_map, if◌then◌else◌, Some, codes};
ghost use Rattle.semver.specs.Identifiers.{parts_of};
ghost use Rattle.pn_text.specs.declared.limits.TheConstants.{ENTRY_LIMIT};
ghost use Rattle.pn_text.specs.Ids.{parts_text};
ghost use Rattle.pn_ranges.specs.Limits.{is_release};
ghost use Rattle.pn_published.specs.Versions.{same_version};
ghost use Rattle.pn_published.specs.Tags.{AreRising, place_by, placed, tags_of, tag_at, latest_of};
ghost use Rattle.pn_published.specs.Places.{last_place, last_of};
ghost use Rattle.pn_published.specs.Shelves.{shelf_with};
ghost use Rattle.pn_published.specs.Listed.{number, tagged, said};
ghost use Rattle.pn_published.specs.Shown.{shelf_of};

use crate::entries::parse_version;
use crate::fault::PublishedFault;
use crate::order::same_version;
use crate::published::{Published, Tag, Tags, Versions};
use crate::tags::SaidTag;
use pn_text::{Memory, VersionIx};
use semver::Version;
use std::alloc::Global;

/// The versions with their tags and the latest of them.
pub fn shelf(
    alloc: Global,
    versions: Versions,
    texts: &[SaidTag],
) -> Result<Published, PublishedFault>
    requires { AreRising (map said texts.now) }
    ensures shelf { IfOk result (λ p. shelf_of p ≡ shelf_with versions (map said texts.now)) }
    ensures fault { IfErr result (λ e. e ≡ PublishedFault.Memory) }
{
    let tags = tags_of(alloc, versions.as_slice(), texts)?;
    let latest = latest_of(versions.as_slice(), tags.as_slice());
    Ok(Published {
        versions,
        latest,
        tags: Tags::of(tags),
    })
}

fn tags_of(alloc: Global, versions: &[Version], texts: &[SaidTag]) -> Result<Vec<Tag>, Memory>
    requires { length versions.now ≤ ENTRY_LIMIT }
    ensures { IfOk result (λ v. map tagged v.items ≡ tags_of (map parts_of versions.now) (map said texts.now)) }
{
    let mut all = Vec::new(alloc);
    for one in texts {
        let at = place_by(alloc, versions, one.text.as_str())?;
        put(alloc, &mut all, one, at)?;
    }
    Ok(all)
}

fn put(
    alloc: Global,
    all: &mut Vec<Tag>,
    one: &SaidTag,
    at: Option<VersionIx>,
) -> Result<(), Memory>
    ensures { OnOk result (map tagged all.new.items ≡ map tagged all.old.items ++ placed one.now.name (option_map number at) []) }
{
    if let Some(version) = at {
        let name = one.name.copy(alloc)?;
        all.push(Tag { name, version })?;
    }
    Ok(())
}

// The place of the version that a text is.
fn place_by(alloc: Global, versions: &[Version], text: &str) -> Result<Option<VersionIx>, Memory>
    requires { length versions.now ≤ ENTRY_LIMIT }
    ensures { IfOk result (λ at. option_map number at ≡ place_by (map parts_of versions.now) (parts_text text.now)) }
{
    match parse_version(alloc, text)? {
        Some(version) => Ok(place_of(versions, &version)),
        None => Ok(None),
    }
}

/// This place where a test passes, else the last one before it.
pub fn newer(passes: bool, at: u32, last: Option<VersionIx>) -> Option<VersionIx>
    ensures { option_map number result ≡ (if passes then Some at else option_map number last) }
{
    if passes { Some(VersionIx(at)) } else { last }
}

fn place_of(versions: &[Version], version: &Version) -> Option<VersionIx>
    requires { length versions.now ≤ ENTRY_LIMIT }
    ensures { option_map number result ≡ last_place (λ u. same_version u (parts_of version.now)) (map parts_of versions.now) }
{
    let mut last = None;
    for at in 0..versions.len() {
        last = newer(same_version(&versions[at], version), at as u32, last);
    }
    last
}

fn latest_of(versions: &[Version], tags: &[Tag]) -> Option<VersionIx>
    requires { length versions.now ≤ ENTRY_LIMIT }
    ensures { option_map number result ≡ latest_of (map parts_of versions.now) (map tagged tags.now) }
{
    if let Some(at) = tagged_latest(tags) {
        return Some(at);
    }
    if let Some(at) = last_release(versions) {
        return Some(at);
    }
    last_of(versions)
}

fn tagged_latest(tags: &[Tag]) -> Option<VersionIx>
    ensures { option_map number result ≡ tag_at (codes "latest") (map tagged tags.now) }
{
    for tag in tags {
        if tag.name.as_str() == "latest" {
            return Some(tag.version);
        }
    }
    None
}

fn last_release(versions: &[Version]) -> Option<VersionIx>
    requires { length versions.now ≤ ENTRY_LIMIT }
    ensures { option_map number result ≡ last_place is_release (map parts_of versions.now) }
{
    let mut last = None;
    for at in 0..versions.len() {
        last = newer(is_release(&versions[at]), at as u32, last);
    }
    last
}

fn is_release(version: &Version) -> bool
    ensures { result ≡ is_release (parts_of version.now) }
{
    version.pre.as_str().is_empty()
}

fn last_of(versions: &[Version]) -> Option<VersionIx>
    requires { length versions.now ≤ ENTRY_LIMIT }
    ensures { option_map number result ≡ last_of (map parts_of versions.now) }
{
    if versions.is_empty() {
        return None;
    }
    Some(VersionIx((versions.len() - 1) as u32))
}
