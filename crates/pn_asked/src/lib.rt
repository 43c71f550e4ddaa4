//! What a run asks of a lock, and the first difference between the two.
//!
//! A run asks for settings, overrides, catalogs, and for projects with the specifiers of their dependencies. A lock fits where
//! it says the same, and `first_difference` answers none exactly there. An optional dependency that the lock lacks is no
//! difference.
//!
//!     if let Some(difference) = first_difference(alloc, &lock, &asked)? { .. }
#![tactic(auto)]

mod asked;
mod catalogs;
mod difference;
mod first;
mod laws;
mod projects;
mod rows;
mod spots;

pub use asked::{Asked, AskedProject};
pub use difference::Difference;
pub use first::first_difference;
pub use laws::fits_law;
pub use spots::{Spot, catalog_named};
