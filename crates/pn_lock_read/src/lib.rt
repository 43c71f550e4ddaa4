//! Reading lockfiles.
//!
//! `read` gives the lock that a node says, or why it says none: another version, the first entry of another form, or the first
//! target that isn't there. What data says is a definition, `lock_of`. What is printed of a lock is read as that lock.
//!
//!     let lock = read(alloc, &pn_yaml::read(alloc, bytes)?)?;
//!
//! The forms are those of `pn_lock_shape`, whose draft has targets as folders and dep paths; here they are looked up.
#![tactic(auto)]

mod fault;
mod laws;
mod places;
mod settle;
mod whole;

pub use fault::LockFault;
pub use laws::read_law;
pub use whole::read;

#[cfg(test)]
mod tests;
