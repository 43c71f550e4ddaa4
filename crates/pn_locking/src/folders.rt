// What a run asks of a lock.
ghost use Rattle.std.specs.Prelude.{◌≡◌, IfOk, map, true};
ghost use Rattle.std.specs.List.{All, AllByRecursion};
ghost use Rattle.pn_lock.specs.Folders.{is_folder};
ghost use Rattle.pn_lock.specs.Kept.{Rises};
ghost use Rattle.pn_asked.specs.declared.asked.AskedProject.{AskedProject};
ghost use Rattle.pn_asked.specs.Asked.{asked};
ghost use Rattle.pn_asked.specs.Rows.{keys};
ghost use Rattle.pn_lock_make.specs.Made.{IsApart};
ghost use Rattle.pn_plain.specs.Seen.{no_hook, no_rules};
ghost use Rattle.pn_locking.specs.Asks.{IsAskedOf, asked_by};
ghost use Rattle.pn_locking.specs.Projects.{HasFolder, IsRisingProject, folder_of, project_of};

use crate::project::{ProjectManifest, asked_project};
use pn_asked::{Asked, AskedProject};
use pn_spec::Catalogs;
use pn_text::{Memory, Text};
use sqlite_items::Items;
use std::alloc::Global;

/// What a run asks of a lock by the manifests of its projects, which are in byte order of their folders.
pub fn asked(
    alloc: Global,
    auto_peers: bool,
    overrides: Items<(Text, Text)>,
    catalogs: Catalogs,
    projects: &[ProjectManifest],
) -> Result<Asked, Memory>
    requires overrides { Rises (keys overrides) }
    requires folders { Rises (map folder_of projects.now) }
    requires rising { All IsRisingProject projects.now }
    ensures is { IfOk result (λ a. a ≡ asked auto_peers overrides catalogs (map (asked_by auto_peers) (map project_of projects.now))) }
    ensures seen { IfOk result (IsAskedOf no_hook no_rules auto_peers overrides catalogs (map project_of projects.now)) }
    ensures apart { IfOk result (λ a. AllByRecursion IsApart a.projects) }
    ensures folders { All HasFolder projects.now → IfOk result (λ a. AllByRecursion (λ (q : AskedProject). is_folder q.folder ≡ true) a.projects) }
{
    let all = asked_projects(alloc, auto_peers, projects)?;
    Ok(Asked::of(auto_peers, overrides, catalogs, all))
}

fn asked_projects(
    alloc: Global,
    auto_peers: bool,
    projects: &[ProjectManifest],
) -> Result<Items<AskedProject>, Memory>
    ensures { IfOk result (λ v. v ≡ map (asked_by auto_peers) (map project_of projects.now)) }
{
    let mut all = Items::new(alloc);
    for project in projects {
        all.push(asked_project(alloc, auto_peers, project)?)?;
    }
    Ok(all)
}
