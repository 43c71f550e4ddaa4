// The packages of an install.

use crate::links::Links;
use pn_text::{AbsPath, PkgId, RelPath};

/// A package: its id, its links, none of them under its own name, its folder in the registry, and its
/// files, by their paths below that folder.
#[derive(Drop)]
pub struct Package {
    pub id: PkgId,
    pub links: Links,
    pub folder: AbsPath,
    pub files: Vec<RelPath>,
}
