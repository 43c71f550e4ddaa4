// The fields of a manifest, a few at a time.
ghost use Rattle.std.specs.Prelude.{◌≡◌, IfOk, IfErr, OnOk, None, codes, option_map, option_and_then};
ghost use Rattle.serde_json.specs.View.{view};
ghost use Rattle.semver.specs.Identifiers.{parts_of};
ghost use Rattle.pn_text.specs.Ids.{parts_text};
ghost use Rattle.pn_manifest.specs.Commands.{bin_field};
ghost use Rattle.pn_manifest.specs.Fields.{name_of, version_of, wrong_own, wrong_maps, wrong_commands, wrong_notes};
ghost use Rattle.pn_manifest.specs.FlagMaps.{flag_field};
ghost use Rattle.pn_manifest.specs.Overrides.{overrides_in};
ghost use Rattle.pn_manifest.specs.Refusals.{IsWrong};
ghost use Rattle.pn_manifest.specs.TextMaps.{map_field};
ghost use Rattle.pn_manifest.specs.Values.{field};

use crate::commands::read_bins;
use crate::dependencies::Dependencies;
use crate::fault::ManifestFault;
use crate::flag_map::read_flags;
use crate::map::read_map;
use crate::object::{read_name, read_version};
use crate::overrides::read_overrides;
use crate::text_map::read_texts;
use crate::texts::{Entries, Names};
use pn_text::PkgName;
use semver::Version;
use serde_json::Value;
use std::alloc::Global;

/// A package's own name and version.
#[derive(Drop)]
pub struct Own {
    pub name: Option<PkgName>,
    pub version: Option<Version>,
}

/// The dependency maps, and the peers that are declared.
#[derive(Drop)]
pub struct Maps {
    pub dependencies: Dependencies,
    pub dev: Dependencies,
    pub optional: Dependencies,
    pub peers: Dependencies,
}

#[derive(Drop)]
pub struct Commands {
    pub scripts: Entries,
    pub bins: Entries,
}

/// What is said of other fields' names: which peers are optional, what is injected, and the overrides.
#[derive(Drop)]
pub struct Notes {
    pub optional: Names,
    pub injected: Names,
    pub overrides: Entries,
}

pub fn read_own(alloc: Global, object: &Value) -> Result<Own, ManifestFault>
    ensures name { IfOk result (λ o. o.name ≡ name_of (view object.now)) }
    ensures version { IfOk result (λ o. option_map parts_of o.version ≡ option_and_then parts_text (version_of (view object.now))) }
    ensures right { OnOk result (wrong_own (view object.now) ≡ None) }
    ensures fault { IfErr result (IsWrong (wrong_own (view object.now))) }
{
    let name = read_name(alloc, object)?;
    let version = read_version(alloc, object)?;
    Ok(Own { name, version })
}

pub fn read_maps(alloc: Global, object: &Value) -> Result<Maps, ManifestFault>
    ensures dependencies { IfOk result (λ m. m.dependencies ≡ map_field (field (codes "dependencies") (view object.now))) }
    ensures dev { IfOk result (λ m. m.dev ≡ map_field (field (codes "devDependencies") (view object.now))) }
    ensures optional { IfOk result (λ m. m.optional ≡ map_field (field (codes "optionalDependencies") (view object.now))) }
    ensures peers { IfOk result (λ m. m.peers ≡ map_field (field (codes "peerDependencies") (view object.now))) }
    ensures right { OnOk result (wrong_maps (view object.now) ≡ None) }
    ensures fault { IfErr result (IsWrong (wrong_maps (view object.now))) }
{
    let dependencies = read_map(alloc, object, "dependencies")?;
    let dev = read_map(alloc, object, "devDependencies")?;
    let optional = read_map(alloc, object, "optionalDependencies")?;
    let peers = read_map(alloc, object, "peerDependencies")?;
    Ok(Maps {
        dependencies,
        dev,
        optional,
        peers,
    })
}

pub fn read_commands(
    alloc: Global,
    object: &Value,
    name: &Option<PkgName>,
) -> Result<Commands, ManifestFault>
    ensures scripts { IfOk result (λ c. c.scripts ≡ map_field (field (codes "scripts") (view object.now))) }
    ensures bins { IfOk result (λ c. c.bins ≡ bin_field name.now (field (codes "bin") (view object.now))) }
    ensures right { OnOk result (wrong_commands (view object.now) ≡ None) }
    ensures fault { IfErr result (IsWrong (wrong_commands (view object.now))) }
{
    let scripts = read_texts(alloc, object, "scripts", "scripts")?;
    let bins = read_bins(alloc, object, name)?;
    Ok(Commands { scripts, bins })
}

pub fn read_notes(alloc: Global, object: &Value) -> Result<Notes, ManifestFault>
    ensures optional { IfOk result (λ n. n.optional ≡ flag_field (codes "optional") (field (codes "peerDependenciesMeta") (view object.now))) }
    ensures injected { IfOk result (λ n. n.injected ≡ flag_field (codes "injected") (field (codes "dependenciesMeta") (view object.now))) }
    ensures overrides { IfOk result (λ n. n.overrides ≡ map_field (overrides_in (field (codes "pnpm") (view object.now)))) }
    ensures right { OnOk result (wrong_notes (view object.now) ≡ None) }
    ensures fault { IfErr result (IsWrong (wrong_notes (view object.now))) }
{
    let optional = read_flags(alloc, object, "peerDependenciesMeta", "optional")?;
    let injected = read_flags(alloc, object, "dependenciesMeta", "injected")?;
    let overrides = read_overrides(alloc, object)?;
    Ok(Notes {
        optional,
        injected,
        overrides,
    })
}
