// The lock of a graph without peers.
ghost use Rattle.std.specs.Prelude.{◌≡◌, IfOk, None, map, true};
ghost use Rattle.std.specs.List.{All};
ghost use Rattle.pn_text.specs.Ids.{is_id};
ghost use Rattle.pn_asked.specs.Differences.{first_of};
ghost use Rattle.pn_instances.specs.Singles.{project_links};
ghost use Rattle.pn_lock_make.specs.Made.{AreResolved};
ghost use Rattle.pn_lock_make.specs.Singles.{BelongSingly, IsMadeSingly, package_ids};

use crate::made::make;
use pn_asked::Asked;
use pn_digest::Integrity;
use pn_graph::{Package, Plain};
use pn_instances::single;
use pn_lock::Lock;
use pn_text::{Memory, Text};
use std::alloc::Global;

/// The lock of a graph without peers: each package has one instance, whose dep path is its id. That the graph has no peers is
/// the caller's to know.
pub fn make_single(
    alloc: Global,
    asked: &Asked,
    plain: &Plain,
    integrities: &[Integrity],
) -> Result<Lock, Memory>
    requires { BelongSingly asked.now plain.now integrities.now }
    ensures made { IfOk result (IsMadeSingly asked.now plain.now integrities.now) }
    ensures fits { IfOk result (λ l. AreResolved asked.now plain.now (map project_links plain.now.projects) → first_of l asked.now ≡ None) }
{
    let instances = single(alloc, plain)?;
    let paths = ids(alloc, plain.packages.as_slice())?;
    make(alloc, asked, plain, &instances, &paths, integrities)
}

fn ids(alloc: Global, packages: &[Package]) -> Result<Vec<Text>, Memory>
    ensures same { IfOk result (λ v. v.items ≡ package_ids packages.now) }
    ensures ids { IfOk result (λ v. All (λ id. is_id id ≡ true) v.items) }
{
    let mut all = Vec::new(alloc);
    for package in packages {
        let id = package.id.as_str();
        let text = Text::of(alloc, id)?;
        all.push(text)?;
    }
    Ok(all)
}
