// The lock of a resolution.
ghost use Rattle.std.specs.Prelude.{◌≡◌, IfOk, None, map};
ghost use Rattle.pn_asked.specs.Differences.{first_of};
ghost use Rattle.pn_lock_make.specs.Made.{AreResolved, Belongs, IsMade, override_of};

use crate::catalogs::used_entries;
use crate::importers::importers;
use crate::order::{in_order, ranks_of};
use crate::packages::packages;
use crate::passed::all_passed;
use crate::snapshots::snapshots;
use pn_asked::Asked;
use pn_digest::Integrity;
use pn_graph::Plain;
use pn_instances::Instances;
use pn_lock::{Lock, Override};
use pn_text::{Memory, Text};
use sqlite_items::Items;
use std::alloc::Global;

/// The lock of what a run asks for, of a graph, of its instances with their dep paths, and of the integrities of its packages.
/// Where what is asked for was resolved, no difference is found between the two.
pub fn make(
    alloc: Global,
    asked: &Asked,
    plain: &Plain,
    instances: &Instances,
    paths: &[Text],
    integrities: &[Integrity],
) -> Result<Lock, Memory>
    requires { Belongs asked.now plain.now instances.now paths.now integrities.now }
    ensures made { IfOk result (IsMade asked.now plain.now instances.now paths.now integrities.now) }
    ensures fits { IfOk result (λ l. AreResolved asked.now plain.now instances.now.roots → first_of l asked.now ≡ None) }
{
    let keys = in_order(alloc, paths)?;
    let ranks = ranks_of(alloc, &keys, paths)?;
    let passed = all_passed(alloc, plain)?;
    let snapshots = snapshots(alloc, plain, instances, &ranks, &passed, paths)?;
    let importers = importers(alloc, &ranks, instances.roots.as_slice(), asked.projects())?;
    let packages = packages(alloc, plain.packages.as_slice(), integrities)?;
    let catalogs = used_entries(alloc, plain, asked.catalogs())?;
    let overrides = overrides_of(alloc, asked.overrides())?;
    Ok(Lock::of(
        asked.auto_install_peers(),
        catalogs,
        overrides,
        importers,
        packages,
        snapshots,
    ))
}

fn overrides_of(alloc: Global, rows: &[(Text, Text)]) -> Result<Items<Override>, Memory>
    ensures { IfOk result (λ os. os ≡ map override_of rows.now) }
{
    let mut all = Items::new(alloc);
    for (selector, value) in rows {
        let one = Override {
            selector: selector.copy(alloc)?,
            value: value.copy(alloc)?,
        };
        all.push(one)?;
    }
    Ok(all)
}
