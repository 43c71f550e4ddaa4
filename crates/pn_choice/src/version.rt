// The version that is chosen.
ghost use Rattle.std.specs.Prelude.{◌≡◌, ◌++◌, [], IfOk, OnOk, Some, map, option_map, codes, slice_get};
ghost use Rattle.semver.specs.Identifiers.{parts_of};
ghost use Rattle.pn_published.specs.Listed.{number, tagged};
ghost use Rattle.pn_published.specs.Shown.{shelf_of};
ghost use Rattle.pn_published.specs.Tags.{tag_at};
ghost use Rattle.pn_published.specs.Versions.{AreParsed, IsParsed};
ghost use Rattle.pn_plain.specs.Aims.{id_at};
ghost use Rattle.pn_plain.specs.Given.{held_of, tag_place, choice_of, version_of};
ghost use Rattle.pn_choice.specs.Given.{held_by, held_as};

use crate::asked::NamedWant;
use pn_published::{Published, Tag, choose};
use pn_spec::Want;
use pn_text::{Memory, PkgId, PkgName, Text, VersionIx};
use semver::Version;
use std::alloc::Global;

/// The package of the version that is chosen of a name.
pub fn chosen(
    alloc: Global,
    list: &Published,
    held: &[PkgId],
    asked: NamedWant,
) -> Result<Option<PkgId>, Memory>
    ensures { IfOk result (λ id. id ≡ option_map (id_at asked.name) (version_of (shelf_of list.now) (held_of asked.name (held_by held.now)) asked.want)) }
{
    let NamedWant { name, want } = asked;
    let held = held_versions(alloc, held, &name)?;
    match choice(list, held.as_slice(), want) {
        Some(at) => id_at(alloc, &name, list.versions.as_slice(), at),
        None => Ok(None),
    }
}

// The place of the version that is chosen.
fn choice(list: &Published, held: &[Version], want: Want) -> Option<VersionIx>
    ensures { option_map number result ≡ choice_of (shelf_of list.now) (map parts_of held.now) want }
{
    match want {
        Want::Range(range) => choose(list, held, &[range]),
        Want::Tag(tag) => tag_place(list, &tag),
    }
}

// The place of a tag's version. The latest is no tag's alone.
fn tag_place(list: &Published, tag: &Text) -> Option<VersionIx>
    ensures { option_map number result ≡ tag_place (shelf_of list.now) tag.now }
{
    if tag.as_str() == "latest" {
        return list.latest;
    }
    tag_at(list.tags.as_slice(), tag)
}

fn tag_at(tags: &[Tag], tag: &Text) -> Option<VersionIx>
    ensures { option_map number result ≡ tag_at tag.now (map tagged tags.now) }
{
    for one in tags {
        if one.name.as_str() == tag.as_str() {
            return Some(one.version);
        }
    }
    None
}

// The held versions of a name.
#[tactic(auto, using(crate::proofs::VersionLemmas::held_next))]
fn held_versions(alloc: Global, held: &[PkgId], name: &PkgName) -> Result<Vec<Version>, Memory>
    ensures { IfOk result (λ v. map parts_of v.items ≡ held_of name.now (held_by held.now)) }
{
    let mut versions = Vec::new(alloc);
    for id in held {
        put(&mut versions, id, name)?;
    }
    Ok(versions)
}

fn put(versions: &mut Vec<Version>, id: &PkgId, name: &PkgName) -> Result<(), Memory>
    ensures { OnOk result (map parts_of versions.new.items ≡ map parts_of versions.old.items ++ held_as name.now id.now) }
{
    if id.name().as_str() != name.as_str() {
        return Ok(());
    }
    let version = copy_of(id.version())?;
    versions.push(version)?;
    Ok(())
}

// An equal version.
fn copy_of(version: &Version) -> Result<Version, Memory>
    ensures { IfOk result (λ v. parts_of v ≡ parts_of version.now) }
{
    Ok(version.clone()?)
}

// The package of the version at a place.
fn id_at(
    alloc: Global,
    name: &PkgName,
    versions: &[Version],
    at: VersionIx,
) -> Result<Option<PkgId>, Memory>
    requires { AreParsed (map parts_of versions.now) }
    ensures { IfOk result (λ id. id ≡ option_map (id_at name.now) (slice_get (map parts_of versions.now) (number at))) }
{
    match versions.get(at.0 as usize) {
        Some(version) => id_of(alloc, name, version),
        None => Ok(None),
    }
}

fn id_of(alloc: Global, name: &PkgName, version: &Version) -> Result<Option<PkgId>, Memory>
    requires { IsParsed (parts_of version.now) }
    ensures { IfOk result (λ id. id ≡ Some (id_at name.now (parts_of version.now))) }
{
    let text = version.to_string(alloc)?;
    PkgId::of(alloc, name, text.as_str())
}
