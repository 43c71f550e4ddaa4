// The steps that installers make on a store.
ghost use Rattle.std.specs.Prelude.{◌≡◌, IfOk};

use crate::bytes::Bytes;
use pn_digest::Digest;
use pn_text::Memory;
use std::alloc::Global;

/// Where a digest is an address: among the packages' files, or among the listings.
#[derive(Clone, Copy, Debug, PartialEq, Eq)]
pub enum Place {
    Files,
    Listings,
}

/// What a prune takes away: a folder of temporary files, a file, or a listing.
#[derive(Clone, Copy, Debug)]
pub enum Discard {
    Temp(u32),
    File(Digest),
    Listing(Digest),
}

/// One step on a store. The first number of a temporary file is that of its folder.
#[derive(Drop)]
pub enum StoreStep {
    Claim(u32),
    Create(u32, u32),
    Append(u32, u32, Bytes),
    Shard(Place, u8),
    PublishFile(u32, u32, Digest),
    PublishListing(u32, u32, Digest),
    DropTemp(u32, Option<u32>),
    Read,
    Discard(Discard),
}

impl StoreStep {
    /// An equal step.
    pub fn copy(&self, alloc: Global) -> Result<StoreStep, Memory>
        ensures { IfOk result (λ step. step ≡ self.now) }
    {
        match self {
            StoreStep::Claim(k) => Ok(StoreStep::Claim(*k)),
            StoreStep::Create(k, n) => Ok(StoreStep::Create(*k, *n)),
            StoreStep::Append(k, n, more) => {
                let more = Bytes::of(alloc, more.as_slice())?;
                Ok(StoreStep::Append(*k, *n, more))
            }
            StoreStep::Shard(place, first) => Ok(StoreStep::Shard(*place, *first)),
            StoreStep::PublishFile(k, n, at) => Ok(StoreStep::PublishFile(*k, *n, at.copy())),
            StoreStep::PublishListing(k, n, at) => Ok(StoreStep::PublishListing(*k, *n, at.copy())),
            StoreStep::DropTemp(k, n) => Ok(StoreStep::DropTemp(*k, *n)),
            StoreStep::Read => Ok(StoreStep::Read),
            StoreStep::Discard(what) => Ok(StoreStep::Discard(*what)),
        }
    }
}
