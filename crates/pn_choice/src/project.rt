// Projects.
use pn_manifest::Manifest;
use pn_text::Text;

/// A project by its folder and its manifest.
#[derive(Drop)]
pub struct ProjectAt {
    pub folder: Text,
    pub manifest: Manifest,
}
