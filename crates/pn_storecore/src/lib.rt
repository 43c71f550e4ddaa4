//! The core of the content-addressed store that installers share without a lock.
//!
//! A store is a journal of steps, each made by one installer. The world that a journal makes has the
//! files and the listings at their digests, and the temporary files of each number. Which steps are
//! lawful is a definition, and the laws say what lawful steps of any number of installers, in any
//! order, leave: a sound world, in which something stays at each address where something was published,
//! with the address as its digest. Further laws say what an installer knows after each of its calls, and
//! which call that allows. A discard is lawful for nobody; laws of its own say what a prune leaves that
//! runs alone.
#![tactic(auto)]

mod bytes;
mod disk;
mod laws;
mod step;

pub use bytes::Bytes;
pub use disk::StoreDisk;
pub use laws::{
    alone_law, asks_law, claims_law, did_law, discard_law, grew_law, holds_law, leaves_law,
    owner_law, place_law, published_law, sound_law, stands_law, was_law,
};
pub use step::{Discard, Place, StoreStep};
