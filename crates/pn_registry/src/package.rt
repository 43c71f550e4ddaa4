// A package's own manifest.
ghost use Rattle.std.specs.Prelude.{◌≡◌, ◌+◌, OnOk, IfOk, IfErr, IfSome, Some, None, [], option_map};
ghost use Rattle.serde_json.specs.Data.{Data};
ghost use Rattle.semver.specs.Identifiers.{parts_of};
ghost use Rattle.pn_text.specs.declared.limits.TheConstants.{TEXT_LIMIT};
ghost use Rattle.pn_fs.specs.Seen.{Keeps, GaveAtMost};
ghost use Rattle.pn_registry.specs.Places.{manifest_path};
ghost use Rattle.pn_registry.specs.Package.{IsRead, IsFound, states, has_text, stated_other};
ghost use Rattle.pn_manifest.specs.Said.{IsRisingSaid};
ghost use Rattle.pn_manifest.specs.Says.{said_of};
ghost use Rattle.pn_manifest.specs.Text.{IsObjectText};
ghost use Rattle.pn_registry.specs.PackageFaults.{PackageRefused, TextRefused, IsOther};

use crate::folder::manifest_path;
use pn_fs::ReadFs;
use pn_manifest::{Manifest, ManifestFault, ManifestWhy};
use pn_read::{SmallFault, read_small};
use pn_text::{AbsPath, Memory, PkgId, PkgName, TEXT_LIMIT, Text};
use semver::Version;
use std::alloc::Global;
use thiserror::Error;

/// Why a package has no manifest: what is wrong with its `package.json`, where `name` and `version` are wrong
/// fields too if they state another one or none; a file of that many bytes, past 16,777,216; a failed call; no
/// memory.
#[derive(Debug, Drop, Error)]
pub enum PackageFault {
    #[error("{0}")]
    Wrong(ManifestWhy),
    #[error("the file has {0} bytes")]
    TooLarge(u64),
    #[error("a call failed")]
    Fault,
    #[error("out of memory")]
    Memory,
}

/// Reads the manifest of a package. It states the package's name and version.
pub fn manifest<R: ReadFs>(
    alloc: Global,
    registry: &mut R,
    id: &PkgId,
) -> Result<Manifest, PackageFault>
    ensures found { IfSome (R.seen registry.old).tree (λ t. IfOk result (IsFound id.now (t (manifest_path id.now)))) }
    ensures read { IfOk result (λ m. (d : Data) × IsRead id.now d m) }
    ensures rising { IfOk result (λ m. IsRisingSaid (said_of m)) }
    ensures gave { IfSome (R.seen registry.old).tree (λ t. GaveAtMost (R.seen registry.old) (TEXT_LIMIT + 1) 0 (R.seen registry.new)) }
    ensures kept { Keeps (R.seen registry.old) (R.seen registry.new) }
    ensures fault { IfErr result (PackageRefused id.now (R.seen registry.old) (R.seen registry.new)) }
{
    match manifest_path(alloc, id) {
        Ok(Some(path)) => read_at(alloc, registry, id, &path),
        Ok(None) => Err(PackageFault::Wrong(ManifestWhy::Missing)),
        Err(_) => Err(PackageFault::Memory),
    }
}

fn read_at<R: ReadFs>(
    alloc: Global,
    registry: &mut R,
    id: &PkgId,
    path: &AbsPath,
) -> Result<Manifest, PackageFault>
    requires { path.now ≡ manifest_path id.now }
    ensures found { IfSome (R.seen registry.old).tree (λ t. IfOk result (IsFound id.now (t (manifest_path id.now)))) }
    ensures read { IfOk result (λ m. (d : Data) × IsRead id.now d m) }
    ensures rising { IfOk result (λ m. IsRisingSaid (said_of m)) }
    ensures gave { IfSome (R.seen registry.old).tree (λ t. GaveAtMost (R.seen registry.old) (TEXT_LIMIT + 1) 0 (R.seen registry.new)) }
    ensures kept { Keeps (R.seen registry.old) (R.seen registry.new) }
    ensures fault { IfErr result (PackageRefused id.now (R.seen registry.old) (R.seen registry.new)) }
{
    match read_small(alloc, registry, path, TEXT_LIMIT) {
        Ok(bytes) => parse(alloc, id, bytes.as_slice()),
        Err(SmallFault::Missing) => Err(PackageFault::Wrong(ManifestWhy::Missing)),
        Err(SmallFault::TooLarge(length)) => Err(PackageFault::TooLarge(length)),
        Err(SmallFault::Fault) => Err(PackageFault::Fault),
        Err(SmallFault::Memory) => Err(PackageFault::Memory),
    }
}

// The manifest that the bytes say.
fn parse(alloc: Global, id: &PkgId, bytes: &[u8]) -> Result<Manifest, PackageFault>
    ensures read { IfOk result (λ m. (d : Data) × IsObjectText bytes.now d × IsRead id.now d m) }
    ensures rising { IfOk result (λ m. IsRisingSaid (said_of m)) }
    ensures refused { IfErr result (TextRefused id.now bytes.now) }
{
    match Manifest::read(alloc, bytes) {
        Ok(manifest) => match states_own(alloc, id, &manifest) {
            Ok(()) => Ok(manifest),
            Err(fault) => Err(fault),
        },
        Err(ManifestFault::Wrong(why)) => Err(PackageFault::Wrong(why)),
        Err(ManifestFault::Memory) => Err(PackageFault::Memory),
    }
}

// Refuses a manifest of another name or version.
fn states_own(alloc: Global, id: &PkgId, manifest: &Manifest) -> Result<(), PackageFault>
    ensures own { OnOk result (stated_other id.now manifest.now.name (option_map parts_of manifest.now.version) ≡ None) }
    ensures other { IfErr result (IsOther (stated_other id.now manifest.now.name (option_map parts_of manifest.now.version))) }
{
    if !has_name(&manifest.name, id.name()) {
        return Err(bad_field(alloc, "name"));
    }
    if !has_version(alloc, &manifest.version, id.version_text())? {
        return Err(bad_field(alloc, "version"));
    }
    Ok(())
}

// Whether a name that is stated is this one.
fn has_name(stated: &Option<PkgName>, name: &PkgName) -> bool
    ensures { result ≡ states stated.now name.now }
{
    match stated {
        Some(own) => own.as_str() == name.as_str(),
        None => false,
    }
}

// Whether a version has this text.
fn has_version(alloc: Global, version: &Option<Version>, text: &str) -> Result<bool, PackageFault>
    ensures is { IfOk result (λ is. is ≡ has_text (option_map parts_of version.now) text.now) }
    ensures memory { IfErr result (λ e. e ≡ PackageFault.Memory) }
{
    match version {
        Some(version) => match version.to_string(alloc) {
            Ok(stated) => Ok(stated.as_str() == text),
            Err(_) => Err(PackageFault::Memory),
        },
        None => Ok(false),
    }
}

fn bad_field(alloc: Global, field: &str) -> PackageFault
    ensures { IsOther (Some (field.now, [])) result }
{
    match (Text::of(alloc, field), Text::of(alloc, "")) {
        (Ok(field), Ok(key)) => PackageFault::Wrong(ManifestWhy::BadField(field, key)),
        _ => PackageFault::Memory,
    }
}

impl From<Memory> for PackageFault {
    ghost use Rattle.std.specs.Prelude.{◌≡◌};
    ghost use Rattle.pn_registry.specs.declared.package.PackageFault.TheVariants.{Memory as no_memory};

    ghost from_gives = { λ _ e. e ≡ no_memory };

    fn from(_: Memory) -> Self {
        PackageFault::Memory
    }
}
