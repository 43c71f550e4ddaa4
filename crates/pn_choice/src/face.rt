// What packages and projects ask for.
ghost use Rattle.std.specs.Prelude.{◌≡◌, Option, IfOk, map};
ghost use Rattle.pn_fs.specs.Tree.{Tree};
ghost use Rattle.pn_manifest.specs.Says.{said_of};
ghost use Rattle.pn_walk.specs.Starts.{asked_of, folders_of};
ghost use Rattle.pn_choice.specs.Given.{folder_of, asked_by};
ghost use Rattle.pn_choice.specs.Shows.{Manifests, IsNodeOf};

use crate::project::ProjectAt;
use pn_manifest::Manifest;
use pn_seen::{Owner, project_wishes, seen, wishes};
use pn_text::{Memory, PkgId};
use pn_walk::{Asks, Node};
use std::alloc::Global;

/// A package by what its manifest is seen as.
pub fn face(alloc: Global, id: &PkgId, manifest: &Manifest) -> Result<Node, Memory>
    ensures node { (r : Option Tree) → Manifests r id.now (said_of manifest.now) → IfOk result (IsNodeOf r) }
    ensures here { IfOk result (λ n. n.id ≡ id.now) }
{
    let face = seen(alloc, Owner::Package, manifest)?;
    let wishes = wishes(alloc, &face)?;
    let id = id.copy(alloc)?;
    let Manifest { peers, .. } = face;
    Ok(Node { id, wishes, peers })
}

/// What the projects ask for.
pub fn asks(alloc: Global, projects: &[ProjectAt], auto_peers: bool) -> Result<Vec<Asks>, Memory>
    ensures folders { IfOk result (λ v. folders_of v.items ≡ map folder_of projects.now) }
    ensures wishes { IfOk result (λ v. asked_of v.items ≡ map (asked_by auto_peers) projects.now) }
{
    let mut all = Vec::new(alloc);
    for project in projects {
        all.push(ask(alloc, project, auto_peers)?)?;
    }
    Ok(all)
}

fn ask(alloc: Global, project: &ProjectAt, auto_peers: bool) -> Result<Asks, Memory>
    ensures folder { IfOk result (λ a. a.from ≡ project.now.folder) }
    ensures wishes { IfOk result (λ a. a.wishes ≡ asked_by auto_peers project.now) }
{
    let face = seen(alloc, Owner::Project, &project.manifest)?;
    let wishes = project_wishes(alloc, auto_peers, &face)?;
    let from = project.folder.copy(alloc)?;
    Ok(Asks { from, wishes })
}
