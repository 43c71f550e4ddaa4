//! The planned tree of an install: instances of packages in a virtual store, links of projects and of hoisting, and markers.
//!
//! `layout` gives exactly these and the folders between, as a list of paths; files are planned by their digest. The laws say
//! what a tree is that has the plan: Node finds from each package itself, what its links lead to, and of any other name what
//! the virtual store's folder finds.
//!
//!     let plan = layout(alloc, &store, &managed, &instances, &tops)?;
#![tactic(auto)]

mod fault;
mod instance;
mod laws;
mod leaves;
mod plan;
mod texts;

pub use fault::LayoutFault;
pub use instance::{Instance, Target, Targets, Top};
pub use laws::{built_law, finds_law, sound_law};
pub use plan::layout;

#[cfg(test)]
mod tests;
