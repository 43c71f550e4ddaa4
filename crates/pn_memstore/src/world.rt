// The world of a store in memory.
ghost use Rattle.std.specs.Prelude.{◌≡◌, Some, None, OnOk, OnErr};
ghost use Rattle.std.specs.Option.{is_some};
ghost use Rattle.pn_storecore.specs.World.{empty, objects, file_of, put_file, with_bytes};
ghost use Rattle.pn_storecore.specs.Steps.{after, discarded};
ghost use Rattle.pn_storecore.specs.declared.step.StoreStep.TheVariants as step;
ghost use Rattle.pn_memstore.specs.Maps.{temps_in};
ghost use Rattle.pn_memstore.specs.Kept.{objects_in};

use crate::folder::Folder;
use crate::objects::ObjectMap;
use crate::temps;
use pn_digest::Digest;
use pn_storecore::{Bytes, Discard, Place, StoreStep};
use pn_text::Memory;
use std::alloc::Global;
use std::collections::BTreeMap;

/// The files, the listings, and the folders of temporary files by their numbers.
#[derive(Drop)]
pub struct StoreWorld {
    pub alloc: Global,
    pub files: ObjectMap,
    pub listings: ObjectMap,
    pub temps: BTreeMap<u32, Folder>,
}

// Moves a temporary file to an address. The one step that may be refused comes first: no bytes hold
// the address until the file stands there.
fn publish(
    alloc: Global,
    temps: &mut BTreeMap<u32, Folder>,
    objects: &mut ObjectMap,
    k: u32,
    n: u32,
    at: &Digest,
) -> Result<(), Memory>
    ensures temps { OnOk result (temps_in temps.new ≡ put_file (temps_in temps.old) k n None) }
    ensures objects { OnOk result (objects_in objects.new ≡ with_bytes (objects_in objects.old) at.now (file_of (temps_in temps.old) k n)) }
    ensures temps_err { OnErr result (temps_in temps.new ≡ temps_in temps.old) }
    ensures objects_err { OnErr result (objects_in objects.new ≡ objects_in objects.old) }
{
    objects.put(at, Bytes::empty(alloc))?;
    match temps::take(temps, k, n) {
        Some(bytes) => objects.replace(at, bytes),
        None => objects.remove(at),
    }
    Ok(())
}

impl StoreWorld {
    ghost use Rattle.pn_memstore.specs.Kept.{world_in};

    /// The store before the first step.
    pub fn new(alloc: Global) -> StoreWorld
        ensures { world_in result ≡ empty }
    {
        StoreWorld {
            alloc,
            files: ObjectMap::new(alloc),
            listings: ObjectMap::new(alloc),
            temps: BTreeMap::new(alloc),
        }
    }

    fn shard(&mut self, place: Place, first: u8)
        ensures { world_in self.new ≡ after 0 (step.Shard place first) (world_in self.old) }
    {
        match place {
            Place::Files => self.files.shard(first),
            Place::Listings => self.listings.shard(first),
        }
    }

    fn discard(&mut self, what: &Discard)
        ensures { world_in self.new ≡ discarded what.now (world_in self.old) }
    {
        match what {
            Discard::Temp(k) => temps::remove(&mut self.temps, *k),
            Discard::File(at) => self.files.remove(at),
            Discard::Listing(at) => self.listings.remove(at),
        }
    }

    /// Makes an installer's step.
    pub fn take(&mut self, who: u64, step: &StoreStep) -> Result<(), Memory>
        ensures ok { OnOk result (world_in self.new ≡ after who step.now (world_in self.old)) }
        ensures err { OnErr result (world_in self.new ≡ world_in self.old) }
    {
        let alloc = self.alloc;
        match step {
            StoreStep::Claim(k) => temps::claim(alloc, &mut self.temps, who, *k),
            StoreStep::Create(k, n) => temps::put(&mut self.temps, *k, *n, Bytes::empty(alloc)),
            StoreStep::Append(k, n, more) => {
                temps::append(&mut self.temps, *k, *n, more.as_slice())
            }
            StoreStep::PublishFile(k, n, at) => {
                publish(alloc, &mut self.temps, &mut self.files, *k, *n, at)
            }
            StoreStep::PublishListing(k, n, at) => {
                publish(alloc, &mut self.temps, &mut self.listings, *k, *n, at)
            }
            StoreStep::Shard(place, first) => {
                self.shard(*place, *first);
                Ok(())
            }
            StoreStep::DropTemp(k, n) => {
                temps::drop_temp(&mut self.temps, *k, *n);
                Ok(())
            }
            StoreStep::Read => Ok(()),
            StoreStep::Discard(what) => {
                self.discard(what);
                Ok(())
            }
        }
    }

    /// Whether the folder of a number stands.
    pub fn stands(&self, k: u32) -> bool
        ensures { result ≡ is_some ((world_in self.now).temps k) }
    {
        self.temps.contains_key(&k)
    }

    /// What stands at the addresses of a place.
    pub fn objects(&self, place: Place) -> &ObjectMap
        ensures { objects_in result.now ≡ objects (world_in self.now) place }
    {
        match place {
            Place::Files => &self.files,
            Place::Listings => &self.listings,
        }
    }
}
