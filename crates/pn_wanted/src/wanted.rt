// A package that is wanted.
use pn_digest::Integrity;
use pn_text::PkgId;

/// A package that is wanted: its id, and the integrity that a lockfile has for it, if one does.
#[derive(Drop)]
pub struct Wanted {
    pub id: PkgId,
    pub locked: Option<Integrity>,
}
