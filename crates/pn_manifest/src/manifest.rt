// Manifests.
ghost use Rattle.std.specs.Prelude.{◌≡◌, None, IfOk, IfErr, OnOk, option_map};
ghost use Rattle.serde_json.specs.View.{view};
ghost use Rattle.semver.specs.Identifiers.{parts_of};
ghost use Rattle.pn_manifest.specs.Fields.{first_wrong, said};
ghost use Rattle.pn_manifest.specs.Said.{IsRisingSaid};
ghost use Rattle.pn_manifest.specs.Says.{Reads, said_of};
ghost use Rattle.pn_manifest.specs.Refusals.{IsWrong, ManifestRefused};

use crate::dependencies::Dependencies;
use crate::fault::ManifestFault;
use crate::object::read_object;
use crate::parts::{Own, read_commands, read_maps, read_notes, read_own};
use crate::peer_list::peers_of;
use crate::peers::Peers;
use crate::texts::{Entries, Names};
use pn_text::{Memory, PkgName};
use semver::Version;
use serde_json::Value;
use std::alloc::Global;

/// What a `package.json` says.
#[derive(Drop)]
pub struct Manifest {
    pub name: Option<PkgName>,
    pub version: Option<Version>,
    pub dependencies: Dependencies,
    /// `devDependencies`.
    pub dev: Dependencies,
    /// `optionalDependencies`.
    pub optional: Dependencies,
    /// `peerDependencies`, with what `peerDependenciesMeta` says of them.
    pub peers: Peers,
    pub scripts: Entries,
    /// The commands of `bin`, each with its path in the package.
    pub bins: Entries,
    /// The names that `dependenciesMeta` says are injected.
    pub injected: Names,
    /// `pnpm.overrides`: selectors with specifiers.
    pub overrides: Entries,
}

impl Manifest {
    /// Reads the text of a JSON object. The first wrong field is named, in the order of the fields above, with the first
    /// wrong key in it in byte order.
    pub fn read(alloc: Global, bytes: &[u8]) -> Result<Manifest, ManifestFault>
        ensures ok { IfOk result (Reads bytes.now) }
        ensures rising { IfOk result (λ m. IsRisingSaid (said_of m)) }
        ensures fault { IfErr result (ManifestRefused bytes.now) }
    {
        let value = read_object(alloc, bytes)?;
        let manifest = read_fields(alloc, &value)?;
        Ok(manifest)
    }

    /// The manifest once more.
    pub fn copy(&self, alloc: Global) -> Result<Manifest, Memory>
        ensures { IfOk result (λ m. said_of m ≡ said_of self.now) }
    {
        let own = copy_own(alloc, self)?;
        let edges = copy_edges(alloc, self)?;
        let texts = copy_texts(alloc, self)?;
        Ok(Manifest {
            name: own.name,
            version: own.version,
            dependencies: edges.dependencies,
            dev: edges.dev,
            optional: edges.optional,
            peers: edges.peers,
            scripts: texts.scripts,
            bins: texts.bins,
            injected: texts.injected,
            overrides: texts.overrides,
        })
    }
}

// What the object says.
fn read_fields(alloc: Global, object: &Value) -> Result<Manifest, ManifestFault>
    ensures ok { IfOk result (λ m. said_of m ≡ said (view object.now)) }
    ensures right { OnOk result (first_wrong (view object.now) ≡ None) }
    ensures fault { IfErr result (IsWrong (first_wrong (view object.now))) }
{
    let own = read_own(alloc, object)?;
    let maps = read_maps(alloc, object)?;
    let commands = read_commands(alloc, object, &own.name)?;
    let notes = read_notes(alloc, object)?;
    let peers = peers_of(alloc, &maps.peers, &notes.optional)?;
    Ok(Manifest {
        name: own.name,
        version: own.version,
        dependencies: maps.dependencies,
        dev: maps.dev,
        optional: maps.optional,
        peers,
        scripts: commands.scripts,
        bins: commands.bins,
        injected: notes.injected,
        overrides: notes.overrides,
    })
}

fn copy_own(alloc: Global, manifest: &Manifest) -> Result<Own, Memory>
    ensures name { IfOk result (λ o. o.name ≡ manifest.now.name) }
    ensures version { IfOk result (λ o. option_map parts_of o.version ≡ option_map parts_of manifest.now.version) }
{
    let name = copy_name(alloc, &manifest.name)?;
    let version = copy_version(&manifest.version)?;
    Ok(Own { name, version })
}

fn copy_name(alloc: Global, name: &Option<PkgName>) -> Result<Option<PkgName>, Memory>
    ensures { IfOk result (λ n. n ≡ name.now) }
{
    match name {
        Some(name) => Ok(Some(name.copy(alloc)?)),
        None => Ok(None),
    }
}

fn copy_version(version: &Option<Version>) -> Result<Option<Version>, Memory>
    ensures { IfOk result (λ v. option_map parts_of v ≡ option_map parts_of version.now) }
{
    match version {
        Some(version) => Ok(Some(version.clone()?)),
        None => Ok(None),
    }
}

#[derive(Drop)]
struct Edges {
    dependencies: Dependencies,
    dev: Dependencies,
    optional: Dependencies,
    peers: Peers,
}

fn copy_edges(alloc: Global, manifest: &Manifest) -> Result<Edges, Memory>
    ensures dependencies { IfOk result (λ e. e.dependencies ≡ manifest.now.dependencies) }
    ensures dev { IfOk result (λ e. e.dev ≡ manifest.now.dev) }
    ensures optional { IfOk result (λ e. e.optional ≡ manifest.now.optional) }
    ensures peers { IfOk result (λ e. e.peers ≡ manifest.now.peers) }
{
    let dependencies = manifest.dependencies.copy(alloc)?;
    let dev = manifest.dev.copy(alloc)?;
    let optional = manifest.optional.copy(alloc)?;
    let peers = manifest.peers.copy(alloc)?;
    Ok(Edges {
        dependencies,
        dev,
        optional,
        peers,
    })
}

#[derive(Drop)]
struct Texts {
    scripts: Entries,
    bins: Entries,
    injected: Names,
    overrides: Entries,
}

fn copy_texts(alloc: Global, manifest: &Manifest) -> Result<Texts, Memory>
    ensures scripts { IfOk result (λ t. t.scripts ≡ manifest.now.scripts) }
    ensures bins { IfOk result (λ t. t.bins ≡ manifest.now.bins) }
    ensures injected { IfOk result (λ t. t.injected ≡ manifest.now.injected) }
    ensures overrides { IfOk result (λ t. t.overrides ≡ manifest.now.overrides) }
{
    let scripts = manifest.scripts.copy(alloc)?;
    let bins = manifest.bins.copy(alloc)?;
    let injected = manifest.injected.copy(alloc)?;
    let overrides = manifest.overrides.copy(alloc)?;
    Ok(Texts {
        scripts,
        bins,
        injected,
        overrides,
    })
}
