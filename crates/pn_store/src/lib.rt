//! Puts files and listings into a store that any number of installers share, and reads them, without a lock.
//!
//! An installer claims a number, which no other has until it is released, and writes under it alone. What a put
//! answered stood at its address at a step of the call, and something of that digest stands there from then on.
//! Whatever a call answers, and whatever others do meanwhile, each of its steps is lawful; so a store that was sound
//! stays so. A file of other bytes than its digest's is replaced by the next put.
//!
//!     let mut claim = claim(&mut disk)?;
//!     let put = put_file(alloc, &mut disk, &mut claim, &mut tree, &path)?;
//!     release(&mut disk, claim)?;
#![tactic(auto)]

mod calls;
mod claims;
mod compare;
mod fault;
mod files;
mod laws;
mod listings;
mod number;
mod reads;

pub use claims::{claim, release};
pub use fault::{ClaimFault, PutFault, ReadFault};
pub use files::{Put, put_file};
pub use laws::{found_law, wrong_law};
pub use listings::put_listing;
pub use number::{Claim, NUMBERS};
pub use reads::{has, listing, read_piece};

#[cfg(test)]
mod tests;
