//! Version ranges as npm writes them, and the versions that they hold.
//!
//! `Range::read` is exact, failing allocations aside: a text spells lists of limits in one way, and these are given, or it
//! has one fault, which is named, by its place unless it is that of too many comparators. `Range::holds` answers exactly
//! whether a version satisfies one of the lists. Contracts see a range as these lists, and a version as its parts.
//!
//!     let range = Range::read(alloc, "^1.2.3 || 3.x")?;
//!     let version = Version::parse(alloc, "1.9.0")?;
//!     let held = range.holds(&version);
//!
//! The text is read once from left to right, without going back: each reader takes what is left of it and gives a value
//! and the rest. `table` has the bounds of each operator.
#![tactic(auto)]

mod bound;
mod comparator;
mod edge;
mod fault;
mod identifiers;
mod laws;
mod part;
mod partial;
mod range;
mod set;
mod table;
mod tail;
#[cfg(test)]
mod tests;

pub use fault::RangeFault;
pub use laws::{caret_law, hyphen_law, place_law, pre_law, reading_law, refusal_law, union_law};
pub use set::Range;
