//! The specifiers of dependencies, and the catalogs that some of them name.
//!
//! `Spec::read` is exact: it gives what the text says in the first form that fits, or says that none does. Contracts
//! see a range as its lists of limits, and a name, a tag and a catalog as their bytes.
//!
//!     let spec = Spec::read(alloc, "npm:react@^18.2.0")?;
//!     catalogs.put(alloc, catalog, name, text)?;
//!     let found = catalogs.get(&catalog, &name);
#![tactic(auto)]

mod alias;
mod catalogs;
mod entry;
mod fault;
mod laws;
mod parts;
mod spec;
mod tag;
#[cfg(test)]
mod tests;
mod want;
mod workspace;

pub use catalogs::Catalogs;
pub use entry::CatalogEntry;
pub use fault::SpecFault;
pub use laws::{foreign_law, form_law, name_law, project_law, put_law, reading_law, space_law};
pub use spec::Spec;
pub use want::Want;
pub use workspace::{WsSpec, WsWant};
