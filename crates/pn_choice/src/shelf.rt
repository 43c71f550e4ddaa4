// What the registry publishes under a name.
ghost use Rattle.std.specs.Prelude.{◌≡◌, ◌⊎◌, ◌+◌, Option, Some, IfOk, OnOk, IfErr, IfSome, IsSome};
ghost use Rattle.std.specs.BTreeMap.{get_by_text};
ghost use Rattle.pn_text.specs.Name.{name_path};
ghost use Rattle.pn_text.specs.declared.limits.TheConstants.{TEXT_LIMIT};
ghost use Rattle.pn_fs.specs.Seen.{Keeps};
ghost use Rattle.pn_fs.specs.Tree.{Tree};
ghost use Rattle.pn_published.specs.Folders.{ListsOnce};
ghost use Rattle.pn_published.specs.Shown.{shelf_of};
ghost use Rattle.pn_choice.specs.Cached.{AreShown, KeepsShelves};
ghost use Rattle.pn_choice.specs.Shows.{Publishes};
ghost use Rattle.pn_choice.specs.Ways.{IsUnlisted, Broke};

use crate::fault::RegistryLack;
use crate::way::WayFault;
use pn_fs::ReadFs;
use pn_published::{Published, PublishedFault, versions};
use pn_text::{Memory, PkgName};
use std::alloc::Global;
use std::collections::BTreeMap;

/// What the registry publishes under a name.
pub fn shelf<R: ReadFs>(
    alloc: Global,
    registry: &mut R,
    name: &PkgName,
) -> Result<Published, WayFault>
    ensures publishes { IfOk result (λ p. Publishes (R.seen registry.old).tree name.now (shelf_of p)) }
    ensures unlisted { IfErr result (IsUnlisted (R.seen registry.old).tree name.now) }
    ensures gave { IfSome (R.seen registry.old).tree (λ t. ListsOnce t (name_path name.now) (TEXT_LIMIT + 1) (R.seen registry.old) (R.seen registry.new)) }
    ensures kept { Keeps (R.seen registry.old) (R.seen registry.new) }
    ensures broke { IfErr result (Broke (R.seen registry.old) (R.seen registry.new)) }
{
    match versions(alloc, registry, name) {
        Ok(shelf) => Ok(shelf),
        Err(PublishedFault::BadTags) => Err(bad_tags(alloc, name)),
        Err(PublishedFault::Entries) => Err(WayFault::Registry(RegistryLack::Entries)),
        Err(PublishedFault::Fault) => Err(WayFault::Fault),
        Err(PublishedFault::Memory) => Err(WayFault::Memory),
    }
}

fn bad_tags(alloc: Global, name: &PkgName) -> WayFault
    ensures { (result ≡ WayFault.Registry (RegistryLack.BadTags name.now)) ⊎ (result ≡ WayFault.Memory) }
{
    match name.copy(alloc) {
        Ok(name) => WayFault::Registry(RegistryLack::BadTags(name)),
        Err(_) => WayFault::Memory,
    }
}

/// Keeps what is published under a name.
pub fn keep(
    alloc: Global,
    shelves: &mut BTreeMap<String, Published>,
    name: &PkgName,
    shelf: Published,
) -> Result<(), Memory>
    ensures shown { (r : Option Tree) → AreShown r shelves.old → Publishes r name.now (shelf_of shelf) → AreShown r shelves.new }
    ensures known { KeepsShelves shelves.old shelves.new }
    ensures listed { OnOk result (IsSome (get_by_text shelves.new name.now)) }
{
    let key = String::from_str(alloc, name.as_str())?;
    shelves.insert(key, shelf)?;
    Ok(())
}
