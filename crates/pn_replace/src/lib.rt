//! Writes a file so that a reader sees the old bytes or the new ones, and never a part: the bytes go to a temporary file
//! beside it, which then takes its place by one rename. What stands at the temporary path from a run that stopped can be
//! taken away before.
//!
//! ```text
//! let temp = root.child(alloc, "pnpm-lock.yaml.pnpm-rs")?;
//! remove_all(alloc, &mut fs, &temp)?;
//! replace(&mut fs, &lock, &temp, bytes)?;
//! ```
#![tactic(auto)]

mod fault;
mod removing;
mod replacing;

pub use fault::ReplaceFault;
pub use removing::remove_all;
pub use replacing::replace;

#[cfg(test)]
mod tests;
