// Packages by their manifests.
ghost use Rattle.std.specs.Prelude.{◌≡◌, ◌⊎◌, ◌+◌, IfOk, OnOk, IfErr, IfSome};
ghost use Rattle.pn_text.specs.declared.limits.TheConstants.{TEXT_LIMIT};
ghost use Rattle.pn_fs.specs.Seen.{Keeps, GaveAtMost};
ghost use Rattle.pn_manifest.specs.Says.{said_of};
ghost use Rattle.pn_choice.specs.Built.{IsBuilt};
ghost use Rattle.pn_choice.specs.Shows.{HasManifest, IsNodeOf};
ghost use Rattle.pn_choice.specs.Ways.{IsUntold, IsUnbuiltIn, Broke};

use crate::built::unbuilt_field;
use crate::face::face;
use crate::fault::RegistryLack;
use crate::way::WayFault;
use pn_fs::ReadFs;
use pn_manifest::{Manifest, ManifestWhy};
use pn_registry::{PackageFault, manifest};
use pn_text::{PkgId, Text};
use pn_walk::Node;
use std::alloc::Global;

/// The package of an id, by its manifest.
pub fn package<R: ReadFs>(alloc: Global, registry: &mut R, id: &PkgId) -> Result<Node, WayFault>
    ensures node { IfOk result (IsNodeOf (R.seen registry.old).tree) }
    ensures here { IfOk result (λ n. n.id ≡ id.now) }
    ensures untold { IfErr result (IsUntold (R.seen registry.old).tree id.now) }
    ensures gave { IfSome (R.seen registry.old).tree (λ t. GaveAtMost (R.seen registry.old) (TEXT_LIMIT + 1) 0 (R.seen registry.new)) }
    ensures kept { Keeps (R.seen registry.old) (R.seen registry.new) }
    ensures broke { IfErr result (Broke (R.seen registry.old) (R.seen registry.new)) }
{
    let manifest = read(alloc, registry, id)?;
    match refuse_unbuilt(alloc, id, &manifest) {
        Ok(()) => Ok(face(alloc, id, &manifest)?),
        Err(fault) => Err(fault),
    }
}

// What the manifest of a package says.
fn read<R: ReadFs>(alloc: Global, registry: &mut R, id: &PkgId) -> Result<Manifest, WayFault>
    ensures has { IfOk result (λ m. HasManifest (R.seen registry.old).tree id.now (said_of m)) }
    ensures untold { IfErr result (IsUntold (R.seen registry.old).tree id.now) }
    ensures gave { IfSome (R.seen registry.old).tree (λ t. GaveAtMost (R.seen registry.old) (TEXT_LIMIT + 1) 0 (R.seen registry.new)) }
    ensures kept { Keeps (R.seen registry.old) (R.seen registry.new) }
    ensures broke { IfErr result (Broke (R.seen registry.old) (R.seen registry.new)) }
{
    match manifest(alloc, registry, id) {
        Ok(manifest) => Ok(manifest),
        Err(PackageFault::Wrong(why)) => Err(wrong(alloc, id, why)),
        Err(PackageFault::TooLarge(length)) => Err(too_large(alloc, id, length)),
        Err(PackageFault::Fault) => Err(WayFault::Fault),
        Err(PackageFault::Memory) => Err(WayFault::Memory),
    }
}

// Refuses what isn't built yet.
fn refuse_unbuilt(alloc: Global, id: &PkgId, manifest: &Manifest) -> Result<(), WayFault>
    ensures built { OnOk result (IsBuilt id.now (said_of manifest.now)) }
    ensures unbuilt { IfErr result (IsUnbuiltIn id.now (said_of manifest.now)) }
{
    if let Some(field) = unbuilt_field(manifest) {
        return Err(unbuilt(alloc, field));
    }
    if !id.is_short() {
        return Err(unbuilt(alloc, id.as_str()));
    }
    Ok(())
}

fn wrong(alloc: Global, id: &PkgId, why: ManifestWhy) -> WayFault
    ensures { (result ≡ WayFault.Registry (RegistryLack.Wrong id.now why)) ⊎ (result ≡ WayFault.Memory) }
{
    match id.copy(alloc) {
        Ok(id) => WayFault::Registry(RegistryLack::Wrong(id, why)),
        Err(_) => WayFault::Memory,
    }
}

fn too_large(alloc: Global, id: &PkgId, length: u64) -> WayFault
    ensures { (result ≡ WayFault.Registry (RegistryLack.TooLarge id.now length)) ⊎ (result ≡ WayFault.Memory) }
{
    match id.copy(alloc) {
        Ok(id) => WayFault::Registry(RegistryLack::TooLarge(id, length)),
        Err(_) => WayFault::Memory,
    }
}

fn unbuilt(alloc: Global, text: &str) -> WayFault
    ensures { (result ≡ WayFault.Registry (RegistryLack.Unbuilt text.now)) ⊎ (result ≡ WayFault.Memory) }
{
    match Text::of(alloc, text) {
        Ok(text) => WayFault::Registry(RegistryLack::Unbuilt(text)),
        Err(_) => WayFault::Memory,
    }
}
