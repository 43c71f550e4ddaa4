// Hoisted links.
use pn_text::{AbsPath, PkgName};

/// A link that hoisting puts into a `node_modules`: that folder, its name there, and the place of the snapshot that it leads
/// to.
#[derive(Drop)]
pub struct Hoist {
    pub holder: AbsPath,
    pub name: PkgName,
    pub to: u32,
}
