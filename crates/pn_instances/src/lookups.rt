// Look-ups among instances. They take no memory.
ghost use Rattle.std.specs.Prelude.{◌≡◌, ◌<◌, length, slice_get};
ghost use Rattle.pn_instances.specs.Lookups.{goal_at, links_at};

use crate::goal::Goal;
use crate::instances::Instances;
use crate::links::Link;
use pn_text::{InstIx, PkgIx, PkgName, ProjIx};

impl Instances {
    /// The package of an instance.
    pub fn package(&self, i: InstIx) -> PkgIx
        requires { i.0 < length self.now.packages }
        ensures { slice_get self.now.packages i.0 ≡ Some result }
    {
        self.packages.as_slice()[i.0 as usize]
    }

    /// What a name leads to from an instance, or none where it has no such link.
    pub fn link(&self, i: InstIx, name: &PkgName) -> Option<Goal>
        requires { i.0 < length self.now.links }
        ensures { result ≡ goal_at name.now (links_at self.now.links i.0) }
    {
        let links = self.links.as_slice();
        goal_at(links[i.0 as usize].as_slice(), name)
    }

    /// What an alias leads to from a project, or none where it has no such link.
    pub fn root(&self, q: ProjIx, alias: &PkgName) -> Option<Goal>
        requires { q.0 < length self.now.roots }
        ensures { result ≡ goal_at alias.now (links_at self.now.roots q.0) }
    {
        let roots = self.roots.as_slice();
        goal_at(roots[q.0 as usize].as_slice(), alias)
    }
}

/// What a name leads to.
pub fn goal_at(links: &[Link], name: &PkgName) -> Option<Goal>
    ensures { result ≡ goal_at name.now links.now }
{
    for link in links {
        if link.name.as_str() == name.as_str() {
            return Some(link.to);
        }
    }
    None
}
