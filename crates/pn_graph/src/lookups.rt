// Look-ups in a plain graph. They take no memory.
ghost use Rattle.std.specs.Prelude.{◌≡◌, ◌<◌, true, length, slice_get};
ghost use Rattle.pn_graph.specs.Graphs.{in_range};
ghost use Rattle.pn_graph.specs.Lookups.{auto_at, dep_at, deps_at, package_id, package_peers, project_autos};

use crate::find::{find, find_auto};
use crate::links::At;
use crate::peer::Peer;
use crate::plain::Plain;
use pn_text::{PkgId, PkgIx, PkgName, ProjIx};

impl Plain {
    /// Where an alias of a node leads, or none where it has no such alias.
    pub fn dep(&self, at: At, alias: &PkgName) -> Option<At>
        requires { in_range (length self.now.projects) (length self.now.packages) at ≡ true }
        ensures { result ≡ dep_at alias.now (deps_at self.now.projects self.now.packages at) }
    {
        match at {
            At::Project(project) => {
                let projects = self.projects.as_slice();
                find(projects[project.0 as usize].deps.as_slice(), alias)
            }
            At::Package(package) => {
                let packages = self.packages.as_slice();
                find(packages[package.0 as usize].deps.as_slice(), alias)
            }
        }
    }

    /// The peers of a package, in byte order of names.
    pub fn peers(&self, at: PkgIx) -> &[Peer]
        requires { at.0 < length self.now.packages }
        ensures { result.now ≡ package_peers (slice_get self.now.packages at.0) }
    {
        let packages = self.packages.as_slice();
        packages[at.0 as usize].peers.as_slice()
    }

    /// The id of a package.
    pub fn id(&self, at: PkgIx) -> &PkgId
        requires { at.0 < length self.now.packages }
        ensures { result.now ≡ package_id (slice_get self.now.packages at.0) }
    {
        let packages = self.packages.as_slice();
        &packages[at.0 as usize].id
    }

    /// The package that is an automatic peer of a project, or none where it has no such automatic peer.
    pub fn automatic(&self, at: ProjIx, name: &PkgName) -> Option<PkgIx>
        requires { at.0 < length self.now.projects }
        ensures { result ≡ auto_at name.now (project_autos (slice_get self.now.projects at.0)) }
    {
        let projects = self.projects.as_slice();
        find_auto(projects[at.0 as usize].autos.as_slice(), name)
    }
}
