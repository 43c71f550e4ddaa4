//! Digests of bytes under SHA-512, the integrities that lockfiles write for them, and the listings of packages' files.
//!
//! A digest is 64 bytes, and contracts see those. A hasher holds the bytes that were pushed, and its end is their digest.
//! An integrity's text is `sha512-` and the padded base64 of its digest, and no other text is read as one.
//!
//! A listing is the files of a package with their digests, in byte order of their paths. It has one text, a line a file,
//! and only such texts are read; a listing's integrity is that of its text.
//!
//! A planned tree has what is to stand at which path: folders, links, files of a store, and files with bytes of their own.
#![tactic(auto)]

mod digest;
mod fault;
mod files;
mod folders;
mod hasher;
mod integrity;
mod laws;
mod lines;
mod listing;
mod planned;
mod tree;

pub use digest::Digest;
pub use fault::ListingFault;
pub use hasher::Hasher512;
pub use integrity::Integrity;
pub use laws::{integrity_law, listing_law};
pub use listing::Listing;
pub use planned::Planned;
pub use tree::PlannedTree;

#[cfg(test)]
mod tests;
