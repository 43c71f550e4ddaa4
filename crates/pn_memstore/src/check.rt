// Which steps are lawful in a world in memory.
ghost use Rattle.std.specs.Prelude.{◌≡◌, IfOk};
ghost use Rattle.std.specs.Bool.{Decides};
ghost use Rattle.sha2.specs.Sha512.{sha512};
ghost use Rattle.pn_storecore.specs.Lawful.{CanPublishListing, IsLawful};
ghost use Rattle.pn_storecore.specs.Stored.{IsWhole};
ghost use Rattle.pn_memstore.specs.Kept.{objects_in, world_in};

use crate::conditions::{
    all_stand, can_append, can_create, can_drop, can_publish_file, content_at, has_digest,
    has_shard, owns,
};
use crate::objects::ObjectMap;
use crate::world::StoreWorld;
use pn_digest::{Digest, Listing, ListingFault, listing_law};
use pn_storecore::StoreStep;
use pn_text::Memory;
use std::alloc::Global;

/// Whether an installer may make a step.
pub fn is_lawful(
    alloc: Global,
    world: &StoreWorld,
    who: u64,
    step: &StoreStep,
) -> Result<bool, Memory>
    ensures { IfOk result (λ yes. Decides yes (IsLawful who step.now (world_in world.now))) }
{
    match step {
        StoreStep::Claim(_) => Ok(true),
        StoreStep::Create(k, n) => Ok(can_create(world, who, *k, *n)),
        StoreStep::Append(k, n, _) => Ok(can_append(world, who, *k, *n)),
        StoreStep::Shard(_, _) => Ok(true),
        StoreStep::PublishFile(k, n, at) => Ok(can_publish_file(world, who, *k, *n, at)),
        StoreStep::PublishListing(k, n, at) => {
            can_publish_listing(alloc, world, who, *k, *n, at)
        }
        StoreStep::DropTemp(k, n) => Ok(can_drop(world, who, *k, *n)),
        StoreStep::Read => Ok(true),
        StoreStep::Discard(_) => Ok(false),
    }
}

fn can_publish_listing(
    alloc: Global,
    world: &StoreWorld,
    who: u64,
    k: u32,
    n: u32,
    at: &Digest,
) -> Result<bool, Memory>
    ensures { IfOk result (λ yes. Decides yes (CanPublishListing who k n at.now (world_in world.now))) }
{
    if !owns(world, who, k) || !has_shard(&world.listings, at) {
        return Ok(false);
    }
    match content_at(world, k, n) {
        Some(bytes) => is_listing(alloc, &world.files, bytes.as_slice(), at),
        None => Ok(false),
    }
}

fn is_listing(alloc: Global, files: &ObjectMap, bytes: &[u8], at: &Digest) -> Result<bool, Memory>
    ensures { IfOk result (λ yes. Decides yes ((sha512 bytes.now ≡ at.now) × IsWhole (objects_in files.now) bytes.now)) }
{
    if !has_digest(bytes, at) {
        return Ok(false);
    }
    is_whole(alloc, files, bytes)
}

// Whether it is the text of a listing whose files stand.
fn is_whole(alloc: Global, files: &ObjectMap, bytes: &[u8]) -> Result<bool, Memory>
    ensures { IfOk result (λ yes. Decides yes (IsWhole (objects_in files.now) bytes.now)) }
{
    listing_law();
    match Listing::read(alloc, bytes) {
        Ok(listing) => Ok(all_stand(files, listing.as_slice())),
        Err(ListingFault::Memory) => Err(Memory),
        Err(_) => Ok(false),
    }
}
