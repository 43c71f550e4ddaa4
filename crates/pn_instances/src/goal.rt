// What a link leads to.
use pn_text::{InstIx, ProjIx};

/// A project, or an instance.
#[derive(Clone, Copy, Debug, PartialEq, Eq)]
pub enum Goal {
    Project(ProjIx),
    Inst(InstIx),
}
