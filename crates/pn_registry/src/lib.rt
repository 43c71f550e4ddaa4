//! A registry: a tree in which the folder `/<name>/<version>` holds a package, a scoped name being two
//! parts. The calls tell whether a package stands there, what its `package.json` says, and which files
//! it has, those with a line feed in their path aside. They only read, and where the tree is told each
//! answer and each refusal is exact: it settles one list of files (`files_same_law`) or one refusal (`files_cause_law`), never both (`files_passed_law`), and
//! of manifests likewise (`manifest_same_law`, `manifest_cause_law`, `manifest_passed_law`).
#![tactic(auto)]

mod apart;
mod contents;
mod folder;
mod laws;
mod list;
mod order;
mod package;
#[cfg(test)]
mod tests;
mod walk;

pub use contents::{FilesFault, files};
pub use folder::{package_folder, stands};
pub use laws::{
    files_cause_law, files_passed_law, files_same_law, manifest_cause_law, manifest_passed_law,
    manifest_same_law,
};
pub use list::{Files, PackageFile};
pub use package::{PackageFault, manifest};
