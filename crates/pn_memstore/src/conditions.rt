// What steps ask of a world in memory.
ghost use Rattle.std.specs.Prelude.{◌≡◌, ℕ, Some, None};
ghost use Rattle.std.specs.Bool.{Decides};
ghost use Rattle.std.specs.Option.{option_copied};
ghost use Rattle.sha2.specs.Sha512.{sha512};
ghost use Rattle.pn_storecore.specs.Stored.{IsStoredFile, AllStand};
ghost use Rattle.pn_storecore.specs.World.{owner_of, content, first_byte};
ghost use Rattle.pn_storecore.specs.Lawful.{CanCreate, CanAppend, CanPublishFile, CanDrop};
ghost use Rattle.pn_memstore.specs.Kept.{objects_in, world_in};

use crate::objects::ObjectMap;
use crate::world::StoreWorld;
use pn_digest::Digest;
use pn_storecore::Bytes;
use pn_text::{FILE_LIMIT, RelPath};

pub fn owns(world: &StoreWorld, who: u64, k: u32) -> bool
    ensures { Decides result (owner_of (world_in world.now) k ≡ Some who) }
{
    match world.temps.get(&k) {
        Some(folder) => folder.owner == who,
        None => false,
    }
}

pub fn content_at(world: &StoreWorld, k: u32, n: u32) -> Option<&Bytes>
    ensures { option_copied result ≡ content (world_in world.now) k n }
{
    match world.temps.get(&k) {
        Some(folder) => folder.files.get(&n),
        None => None,
    }
}

pub fn can_create(world: &StoreWorld, who: u64, k: u32, n: u32) -> bool
    ensures { Decides result (CanCreate who k n (world_in world.now)) }
{
    owns(world, who, k) && content_at(world, k, n).is_none()
}

pub fn can_append(world: &StoreWorld, who: u64, k: u32, n: u32) -> bool
    ensures { Decides result (CanAppend who k n (world_in world.now)) }
{
    owns(world, who, k) && content_at(world, k, n).is_some()
}

pub fn has_digest(bytes: &[u8], at: &Digest) -> bool
    ensures { Decides result (sha512 bytes.now ≡ at.now) }
{
    Digest::of_bytes(bytes) == *at
}

pub fn has_shard(objects: &ObjectMap, at: &Digest) -> bool
    ensures { result ≡ (objects_in objects.now).shards (first_byte at.now) }
{
    let bytes = at.as_bytes();
    objects.shards[bytes[0] as usize]
}

pub fn can_publish_file(world: &StoreWorld, who: u64, k: u32, n: u32, at: &Digest) -> bool
    ensures { Decides result (CanPublishFile who k n at.now (world_in world.now)) }
{
    if !owns(world, who, k) || !has_shard(&world.files, at) {
        return false;
    }
    match content_at(world, k, n) {
        Some(bytes) => is_file(bytes.as_slice(), at),
        None => false,
    }
}

fn is_file(bytes: &[u8], at: &Digest) -> bool
    ensures { Decides result (IsStoredFile at.now bytes.now) }
{
    bytes.len() as u64 <= FILE_LIMIT && has_digest(bytes, at)
}

pub fn all_stand(files: &ObjectMap, listing: &[(RelPath, Digest)]) -> bool
    ensures { Decides result (AllStand (objects_in files.now) listing.now) }
{
    for (_, digest) in listing {
        if files.at(digest).is_none() {
            return false;
        }
    }
    true
}

pub fn can_drop(world: &StoreWorld, who: u64, k: u32, n: Option<u32>) -> bool
    ensures { Decides result (CanDrop who k n (world_in world.now)) }
{
    owns(world, who, k) && (n.is_some() || is_bare(world, k))
}

fn is_bare(world: &StoreWorld, k: u32) -> bool
    ensures { Decides result ((m : ℕ) → content (world_in world.now) k m ≡ None) }
{
    match world.temps.get(&k) {
        Some(folder) => folder.files.is_empty(),
        None => true,
    }
}
