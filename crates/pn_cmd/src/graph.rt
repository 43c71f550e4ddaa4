// The point at which the project's plain graph is found.
ghost use Rattle.std.specs.Prelude.{◌≡◌, ◌⊎◌, ◌++◌, IfOk, IfErr, codes, string_bytes};
ghost use Rattle.pn_text.specs.Name.{name_path};
ghost use Rattle.pn_fs.specs.Seen.{Seen, Taken, Keeps};
ghost use Rattle.pn_manifest.specs.Said.{IsRisingSaid};
ghost use Rattle.pn_manifest.specs.Says.{said_of};
ghost use Rattle.pn_published.specs.Shelves.{tags_path};
ghost use Rattle.pn_registry.specs.Places.{manifest_path};
ghost use Rattle.pn_choice.specs.Graphs.{IsGraphOf};
ghost use Rattle.pn_choice.specs.declared.fault.RegistryLack.TheVariants.{BadTags as LackTags, Wrong as LackManifest};
ghost use Rattle.pn_storecore.specs.Seen.{Seen as Stored};
ghost use Rattle.pn_cmd.specs.World.{world};
ghost use Rattle.pn_cmd.specs.Points.{Refuses};
ghost use Rattle.pn_collect.specs.Packages.{AreShort, FoldersStand};
ghost use Rattle.pn_cmd.specs.Graph.{HasNoGraph, inputs_of, root, registry_text, lack_status, choice_status};

use pn_choice::{ChoiceFault, ProjectAt, RegistryLack, Sources, no_shelves, plain};
use pn_fs::ReadFs;
use pn_graph::Plain;
use pn_manifest::{Manifest, ManifestWhy};
use pn_status::{FileWhy, Status, Which};
use pn_text::{ENTRY_LIMIT, Memory, PkgId, PkgName, ProjIx, Text};
use std::alloc::{AllocError, Global};

/// The plain graph of what the project's manifest asks for.
pub fn graph<R: ReadFs>(
    alloc: Global,
    manifest: Manifest,
    registry: &mut R,
) -> Result<Plain, Status>
    requires { IsRisingSaid (said_of manifest) }
    ensures graph { IfOk result (IsGraphOf (R.seen registry.old).tree (inputs_of (said_of manifest)) root) }
    ensures stand { IfOk result (FoldersStand (R.seen registry.old).tree) }
    ensures short { IfOk result AreShort }
    ensures refused { (project : Seen) (store : Stored) (out : Taken) → IfErr result (Refuses (HasNoGraph (said_of manifest)) (world project (R.seen registry.old) store out) (world project (R.seen registry.new) store out)) }
    ensures kept { Keeps (R.seen registry.old) (R.seen registry.new) }
{
    let folder = Text::of(alloc, ".")?;
    let project = ProjectAt { folder, manifest };
    let mut shelves = no_shelves(alloc);
    let mut sources = Sources::new(registry, &[], &mut shelves);
    match plain(alloc, &mut sources, &[project], ProjIx(0), true) {
        Ok(plain) => Ok(plain),
        Err(fault) => Err(ungraphed(alloc, fault)),
    }
}

// The status where there is no graph.
fn ungraphed(alloc: Global, fault: ChoiceFault) -> Status
    ensures { (result ≡ choice_status fault) ⊎ (result ≡ Status.Memory) }
{
    match fault {
        ChoiceFault::Unsupported(edge) => Status::Unsupported(edge),
        ChoiceFault::Unbuilt(edge) => Status::NotYet(edge.specifier),
        ChoiceFault::NoVersion(edge) => Status::NoVersion(edge),
        ChoiceFault::Registry(lack) => lacking(alloc, lack),
        ChoiceFault::Packages(count) => Status::Limit(Which::Packages, count),
        ChoiceFault::Fault => Status::RegistryFault,
        ChoiceFault::Memory => Status::Memory,
    }
}

// The status where the registry lacks what the graph asks for.
fn lacking(alloc: Global, lack: RegistryLack) -> Status
    ensures { (result ≡ lack_status lack) ⊎ (result ≡ Status.Memory) }
{
    match lack {
        RegistryLack::BadTags(name) => bad_tags(alloc, &name),
        RegistryLack::Entries => Status::Limit(Which::Entries, ENTRY_LIMIT + 1),
        RegistryLack::Wrong(id, why) => bad_manifest(alloc, &id, why),
        RegistryLack::TooLarge(_, length) => Status::Limit(Which::Text, length),
        RegistryLack::Unbuilt(text) => Status::NotYet(text),
    }
}

// The status for a wrong manifest of a package.
fn bad_manifest(alloc: Global, id: &PkgId, why: ManifestWhy) -> Status
    ensures { (result ≡ lack_status (LackManifest id.now why)) ⊎ (result ≡ Status.Memory) }
{
    match manifest_text(alloc, id) {
        Ok(text) => Status::Manifest(text, FileWhy::Manifest(why)),
        Err(_) => Status::Memory,
    }
}

// The status for a name's file of tags.
fn bad_tags(alloc: Global, name: &PkgName) -> Status
    ensures { (result ≡ lack_status (LackTags name.now)) ⊎ (result ≡ Status.Memory) }
{
    match tags_text(alloc, name) {
        Ok(text) => Status::Manifest(text, FileWhy::BadTags),
        Err(_) => Status::Memory,
    }
}

// The path of a package's manifest in the registry, as it is told.
fn manifest_text(alloc: Global, id: &PkgId) -> Result<Text, Memory>
    ensures { IfOk result (λ text. text ≡ registry_text (manifest_path id.now)) }
{
    let name = id.name().as_path(alloc)?;
    let Ok(line) = manifest_line(alloc, name.as_str(), id.version_text()) else {
        return Err(Memory);
    };
    Text::of(alloc, line.as_str())
}

// The path of a name's file of tags in the registry, as it is told.
fn tags_text(alloc: Global, name: &PkgName) -> Result<Text, Memory>
    ensures { IfOk result (λ text. text ≡ registry_text (tags_path (name_path name.now))) }
{
    let name = name.as_path(alloc)?;
    let Ok(line) = tags_line(alloc, name.as_str()) else {
        return Err(Memory);
    };
    Text::of(alloc, line.as_str())
}

fn manifest_line(alloc: Global, name: &str, version: &str) -> Result<String, AllocError>
    ensures { IfOk result (λ s. string_bytes s ≡ codes "registry:/" ++ name.now ++ codes "/" ++ version.now ++ codes "/package.json") }
{
    let mut line = String::from_str(alloc, "registry:/")?;
    line.push_str(name)?;
    line.push_str("/")?;
    line.push_str(version)?;
    line.push_str("/package.json")?;
    Ok(line)
}

fn tags_line(alloc: Global, name: &str) -> Result<String, AllocError>
    ensures { IfOk result (λ s. string_bytes s ≡ codes "registry:/" ++ name.now ++ codes "/tags.json") }
{
    let mut line = String::from_str(alloc, "registry:/")?;
    line.push_str(name)?;
    line.push_str("/tags.json")?;
    Ok(line)
}
