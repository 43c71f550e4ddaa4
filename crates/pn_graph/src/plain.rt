// The plain graph.
ghost use Rattle.std.specs.Prelude.{◌≡◌, true};
ghost use Rattle.pn_graph.specs.Graphs.{is_graph};

use crate::links::{Packages, Projects};
use pn_text::ProjIx;

/// Projects and packages with their links: every index is in range, folders and ids are distinct, names rise, and no package
/// has its own name as an alias or a peer, nor one name as both.
#[derive(Drop)]
pub struct Plain {
    pub root: ProjIx,
    pub projects: Projects,
    pub packages: Packages,
    pub ghost right: { is_graph root projects packages ≡ true },
}

impl Plain {
    pub fn of(root: ProjIx, projects: Projects, packages: Packages) -> Plain
        requires { is_graph root projects packages ≡ true }
        ensures root { result.root ≡ root }
        ensures projects { result.projects ≡ projects }
        ensures packages { result.packages ≡ packages }
    {
        Plain {
            root,
            projects,
            packages,
        }
    }
}
