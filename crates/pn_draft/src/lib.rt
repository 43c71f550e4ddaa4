//! A draft of a planned tree: what is to stand at and below some folders, added path by path.
//!
//! None of the folders is below another one. What is added at a path below one of them draws the folders between, and
//! `finish` gives the planned tree in byte order, or the length of the first path that is too long.
//!
//!     let mut draft = Draft::new(alloc, &[modules])?;
//!     draft.add(&modules, "a/index.js", Planned::Stored(digest))?;
//!     let tree = draft.finish()?; // modules, modules/a, modules/a/index.js
#![tactic(auto)]

mod draft;
mod fault;
mod finish;
mod laws;
mod marks;
#[cfg(test)]
mod tests;

pub use draft::Draft;
pub use fault::DraftFault;
pub use laws::drawing_law;
