// Projects by their manifests.
ghost use Rattle.std.specs.Prelude.{◌≡◌, IfOk};
ghost use Rattle.pn_manifest.specs.Says.{said_of};
ghost use Rattle.pn_locking.specs.Asks.{asked_by};
ghost use Rattle.pn_locking.specs.Projects.{project_of};

use crate::split::{for_development, names, optional, regular};
use pn_asked::AskedProject;
use pn_manifest::Manifest;
use pn_seen::{Owner, project_wishes, seen};
use pn_text::{Memory, Text};
use std::alloc::Global;

/// A project by its folder and its manifest.
#[derive(Drop)]
pub struct ProjectManifest {
    pub folder: Text,
    pub manifest: Manifest,
}

/// What a project asks of a lock. Where peers are installed by themselves, those that it requires are among its dependencies.
pub fn asked_project(
    alloc: Global,
    auto_peers: bool,
    project: &ProjectManifest,
) -> Result<AskedProject, Memory>
    ensures { IfOk result (λ q. q ≡ asked_by auto_peers (project_of project.now)) }
{
    let face = seen(alloc, Owner::Project, &project.manifest)?;
    let wishes = project_wishes(alloc, auto_peers, &face)?;
    let dev_names = names(alloc, &face.dev)?;
    let dependencies = regular(alloc, &dev_names, &wishes)?;
    let dev = for_development(alloc, &dev_names, &wishes)?;
    let optional = optional(alloc, &wishes)?;
    let folder = project.folder.copy(alloc)?;
    Ok(AskedProject {
        folder,
        dependencies,
        dev,
        optional,
    })
}
