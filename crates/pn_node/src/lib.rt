//! What a path leads to, and what Node finds, in a tree of folders, files and links.
//!
//! `specs/Find` defines the real path of a path and the lookup of a package name from a folder, after the Node.js
//! Modules page. `specs/Plan` defines what an install plans, and the entries of its build: the managed folders with the
//! packages, links and markers in them, and nothing else. This crate promises, of any tree that has exactly the build's
//! entries at and below the managed folders, what each folder of an installed package finds by each name, and what a
//! project's folder finds by the names of its dependencies (`specs/Finds`). `real` and `find` compute both over any file
//! system, exactly where its tree is told. No other crate says what a lookup finds.
#![tactic(auto)]

mod entry;
mod lookup;
mod name;
mod real_path;
mod step;
mod walk;

ghost use Rattle.pn_node.specs.Finds.{EndLaw, FoundLaw, HomesLaw, LookupLaw, RealLaw, TopLaw};

pub use lookup::find;
pub use real_path::real;

/// From each folder of an installed package, the package's own name finds it, a dependency's name finds what its link
/// leads to, and any other name finds what the virtual store's folder finds.
pub fn lookup_law()
    ensures { LookupLaw }
{}

/// From a project's folder each name that is linked there finds what its link leads to, and likewise from the virtual
/// store's folder each name that is hoisted there.
pub fn top_law()
    ensures { TopLaw }
{}

/// The package folder of each instance is a folder.
pub fn homes_law()
    ensures { HomesLaw }
{}

/// A folder is its own real path.
pub fn real_law()
    ensures { RealLaw }
{}

/// What is found as a real path is a folder or a file, and its own real path.
pub fn end_law()
    ensures { EndLaw }
{}

/// A package that is found is a folder.
pub fn found_law()
    ensures { FoundLaw }
{}

#[cfg(test)]
mod tests;
