//! The packages that an install wants, each with the integrity that it is locked at.
#![tactic(auto)]

mod wanted;

pub use wanted::Wanted;
