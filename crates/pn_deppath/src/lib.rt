//! Dep paths, and the names of the folders of a virtual store.
//!
//! A dep path is a package's id and groups in parentheses, which say what its peers are: `react-dom@18.3.1(react@18.3.1)`.
//! `is_dep_path` tests the grammar. `folder_names` gives each of some dep paths its folder's name; no two of them have the
//! same one, whatever their digests are. `project_text`, `joined` and `shortened` give the texts of groups, and
//! `with_ordinals` tells equal texts apart.
//!
//!     let groups = shortened(alloc, joined(alloc, &groups)?)?; // (react@18.3.1)
//!     let paths = with_ordinals(alloc, &texts)?; // a@1.0.0, a@1.0.0(~2)
//!     let names = folder_names(alloc, paths)?; // react-dom@18.3.1_react@18.3.1
#![tactic(auto)]

mod ascii;
mod folder;
mod groups;
mod laws;
mod names;
mod ordinals;
mod path;
mod plain;

pub use folder::folder_names;
pub use groups::{joined, project_text, shortened};
pub use laws::{folder_law, ordinal_law, path_law};
pub use ordinals::with_ordinals;
pub use path::{base_path, is_dep_path, split_path};

#[cfg(test)]
mod tests;
