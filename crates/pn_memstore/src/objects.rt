// What stands at the addresses of one place.
ghost use Rattle.std.specs.Prelude.{◌≡◌, ◌≢◌, ◌≤◌, ◌<◌, ℕ, false, length, slice_index_or, Some, None, OnOk, OnErr, IfOk, IfSome};
ghost use Rattle.std.specs.Option.{option_copied};
ghost use Rattle.pn_storecore.specs.World.{no_objects, with_bytes};
ghost use Rattle.pn_storecore.specs.Steps.{with_shard};
ghost use Rattle.pn_storecore.specs.Calls.{IsRead, AreAddresses};

use pn_digest::Digest;
use pn_storecore::Bytes;
use pn_text::{Memory, copy_piece};
use std::alloc::Global;
use std::collections::BTreeMap;

/// The first bytes whose folders stand, and the bytes at each digest.
#[derive(Drop)]
pub struct ObjectMap {
    pub shards: [bool; 256],
    pub bytes: BTreeMap<Digest, Bytes>,
}

fn no_shards() -> [bool; 256]
    ensures { (first : ℕ) → slice_index_or result first false ≡ false }
{
    [false; 256]
}

impl ObjectMap {
    ghost use Rattle.pn_memstore.specs.Kept.{objects_in};

    /// No folders, and nothing at any address.
    pub fn new(alloc: Global) -> ObjectMap
        ensures { objects_in result ≡ no_objects }
    {
        ObjectMap {
            shards: no_shards(),
            bytes: BTreeMap::new(alloc),
        }
    }

    /// Makes the folder of a first byte.
    pub fn shard(&mut self, first: u8)
        ensures { objects_in self.new ≡ with_shard (objects_in self.old) first }
    {
        self.shards[first as usize] = true;
    }

    /// Leaves bytes at an address, and replaces what stands there.
    pub fn put(&mut self, at: &Digest, bytes: Bytes) -> Result<(), Memory>
        ensures ok { OnOk result (objects_in self.new ≡ with_bytes (objects_in self.old) at.now (Some bytes)) }
        ensures err { OnErr result (objects_in self.new ≡ objects_in self.old) }
    {
        self.bytes.insert(at.copy(), bytes)?;
        Ok(())
    }

    /// Replaces the bytes that stand at an address.
    pub fn replace(&mut self, at: &Digest, bytes: Bytes)
        requires { (objects_in self.old).bytes at.now ≢ None }
        ensures { objects_in self.new ≡ with_bytes (objects_in self.old) at.now (Some bytes) }
    {
        match self.bytes.get_mut(at) {
            Some(place) => *place = bytes,
            None => unreachable!(),
        }
    }

    /// Takes away what stands at an address.
    pub fn remove(&mut self, at: &Digest)
        ensures { objects_in self.new ≡ with_bytes (objects_in self.old) at.now None }
    {
        let _ = self.bytes.remove(at);
    }

    /// The bytes at an address.
    pub fn at(&self, at: &Digest) -> Option<&Bytes>
        ensures { option_copied result ≡ (objects_in self.now).bytes at.now }
    {
        self.bytes.get(at)
    }

    /// Copies a piece of what stands at an address, if anything does.
    pub fn read(&self, at: &Digest, from: u64, into: &mut [u8]) -> Option<usize>
        requires { 0 < length into.old }
        ensures within { IfSome result (λ n. n ≤ length into.old) }
        ensures read { IsRead ((objects_in self.now).bytes at.now) from into.new result }
    {
        match self.at(at) {
            Some(bytes) => Some(copy_piece(bytes.as_slice(), from, into)),
            None => None,
        }
    }

    /// The addresses at which something stands, in byte order.
    pub fn addresses(&self, alloc: Global) -> Result<Vec<Digest>, Memory>
        ensures { IfOk result (λ all. AreAddresses (objects_in self.now) all.items) }
    {
        let mut all = Vec::new(alloc);
        for at in self.bytes.keys() {
            all.push(at.copy())?;
        }
        Ok(all)
    }
}
