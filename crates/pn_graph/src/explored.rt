// What is reached, in the order in which it is met.
ghost use Rattle.std.specs.Prelude.{◌≡◌, ◌<◌, ℕ, IfOk, length, slice_get, option_map};
ghost use Rattle.pn_graph.specs.Founds.{AreReached, AreWithin, IsMarked};
ghost use Rattle.pn_graph.specs.FreeNames.{deps_past, passing};
ghost use Rattle.pn_graph.specs.Graphs.{aliases, has_name};
ghost use Rattle.pn_graph.specs.Lookups.{package_deps};

use crate::find::has_alias;
use crate::found::Found;
use crate::links::{Dep, Package};
use pn_text::{Memory, PkgName};
use std::alloc::Global;

/// Meets what dependencies lead to. A package with an alias of that name is met, and not followed.
pub(crate) fn explore(
    alloc: Global,
    packages: &[Package],
    from: u32,
    past: Option<&PkgName>,
) -> Result<Found, Memory>
    requires within { from < length packages.now }
    requires right { (i : ℕ) → AreWithin (length packages.now) (package_deps (slice_get packages.now i)) }
    ensures marked { IfOk result (λ f. IsMarked f.seen.items f.order.items) }
    ensures count { IfOk result (λ f. length f.seen.items ≡ length packages.now) }
    ensures reached { IfOk result (λ f. AreReached (passing (option_map (λ n. n.now) past.entry) packages.now) from f.order.items) }
{
    let mut found = Found::new(alloc, packages.len())?;
    found.meet(from)?;
    for at in 0..packages.len() {
        if at >= found.order.len() {
            return Ok(found);
        }
        let package = found.order[at] as usize;
        found.meet_deps(followed(packages[package].deps.as_slice(), past))?;
    }
    Ok(found)
}

fn followed<'a>(deps: &'a [Dep], past: Option<&PkgName>) -> &'a [Dep]
    ensures { result.now ≡ deps_past (option_map (λ n. n.now) past.entry) deps.now }
{
    match past {
        Some(name) if has_alias(deps, name) => &[],
        _ => deps,
    }
}
