// Snapshots.
ghost use Rattle.std.specs.Prelude.{◌≡◌, ◌<◌, ℕ, IfOk, length, true};
ghost use Rattle.std.specs.Cmp.Lexicographic.{slice_cmp};
ghost use Rattle.std.specs.List.{All};
ghost use Rattle.std.specs.List.Sorted.{IsPermutation, IsSorted};
ghost use Rattle.std.specs.Ordering.{nat_cmp};
ghost use Rattle.pn_text.specs.Name.{is_name};
ghost use Rattle.pn_lock.specs.Locks.{paths_of};
ghost use Rattle.pn_lock_make.specs.Names.{AreNamedLinks, AreNames, IsNamedSnapshot};
ghost use Rattle.pn_lock_make.specs.Snapshots.{is_optional, link_of, optional_links, package_number, required_links, snapshot_at, snapshot_of, snapshots_from};
ghost use Rattle.pn_lock_make.specs.Targets.{AreRanked, IsRanked};

use crate::packages::name_copy;
use crate::targets::lock_goal;
use pn_graph::{Dep, Plain};
use pn_instances::{Instances, Link};
use pn_lock::{LockLink, LockSnapshot};
use pn_text::{Memory, PkgName, Text};
use sqlite_items::Items;
use std::alloc::Global;
use std::cmp::Ordering;

/// The snapshots in byte order of their dep paths.
pub(crate) fn snapshots(
    alloc: Global,
    plain: &Plain,
    instances: &Instances,
    ranks: &[u32],
    passed: &[Items<PkgName>],
    paths: &[Text],
) -> Result<Items<LockSnapshot>, Memory>
    requires count { length paths.now ≡ length instances.now.packages }
    requires in_graph { (n : ℕ) → n < length paths.now → package_number instances.now.packages n < length plain.now.packages }
    requires ranked { All (AreRanked (length ranks.now)) instances.now.links }
    requires passed { length passed.now ≡ length plain.now.packages }
    ensures made { IfOk result (λ ss. IsPermutation (snapshots_from plain.now.packages instances.now.packages instances.now.links ranks.now passed.now 0 paths.now) ss) }
    ensures sorted { IfOk result (λ ss. IsSorted (slice_cmp nat_cmp) (paths_of ss)) }
    ensures named { IfOk result (λ ss. All IsNamedSnapshot ss) }
{
    let all = as_numbered(alloc, plain, instances, ranks, passed, paths)?;
    by_paths(all)
}

// The snapshots in the order of the instances.
fn as_numbered(
    alloc: Global,
    plain: &Plain,
    instances: &Instances,
    ranks: &[u32],
    passed: &[Items<PkgName>],
    paths: &[Text],
) -> Result<Vec<LockSnapshot>, Memory>
    requires count { length paths.now ≡ length instances.now.packages }
    requires in_graph { (n : ℕ) → n < length paths.now → package_number instances.now.packages n < length plain.now.packages }
    requires ranked { All (AreRanked (length ranks.now)) instances.now.links }
    requires passed { length passed.now ≡ length plain.now.packages }
    ensures made { IfOk result (λ v. v.items ≡ snapshots_from plain.now.packages instances.now.packages instances.now.links ranks.now passed.now 0 paths.now) }
    ensures named { IfOk result (λ v. All IsNamedSnapshot v.items) }
{
    let mut all = Vec::new(alloc);
    for (n, path) in paths.iter().enumerate() {
        let one = snapshot_at(alloc, plain, instances, ranks, passed, n, path)?;
        all.push(one)?;
    }
    Ok(all)
}

fn by_paths(mut all: Vec<LockSnapshot>) -> Result<Items<LockSnapshot>, Memory>
    ensures same { IfOk result (λ ss. IsPermutation all.items ss) }
    ensures sorted { IfOk result (λ ss. IsSorted (slice_cmp nat_cmp) (paths_of ss)) }
{
    all.sort_by(|a, b| by_path(a, b))?;
    Ok(Items::from_vec(all))
}

fn by_path(a: &LockSnapshot, b: &LockSnapshot) -> Ordering
    ensures { result ≡ slice_cmp nat_cmp a.now.path b.now.path }
{
    a.path.cmp(&b.path)
}

fn snapshot_at(
    alloc: Global,
    plain: &Plain,
    instances: &Instances,
    ranks: &[u32],
    passed: &[Items<PkgName>],
    n: usize,
    path: &Text,
) -> Result<LockSnapshot, Memory>
    requires within { n < length instances.now.packages }
    requires in_graph { package_number instances.now.packages n < length plain.now.packages }
    requires ranked { All (AreRanked (length ranks.now)) instances.now.links }
    requires passed { length passed.now ≡ length plain.now.packages }
    ensures made { IfOk result (λ s. s ≡ snapshot_at plain.now.packages instances.now.packages instances.now.links ranks.now passed.now n path.now) }
    ensures named { IfOk result IsNamedSnapshot }
{
    let number = instances.packages.as_slice()[n].0 as usize;
    let deps = plain.packages.as_slice()[number].deps.as_slice();
    let links = instances.links.as_slice()[n].as_slice();
    snapshot_of(alloc, ranks, deps, links, passed[number].as_slice(), path)
}

fn snapshot_of(
    alloc: Global,
    ranks: &[u32],
    deps: &[Dep],
    links: &[Link],
    passed: &[PkgName],
    path: &Text,
) -> Result<LockSnapshot, Memory>
    requires { AreRanked (length ranks.now) links.now }
    ensures made { IfOk result (λ s. s ≡ snapshot_of ranks.now deps.now links.now passed.now path.now) }
    ensures named { IfOk result IsNamedSnapshot }
{
    let path = path.copy(alloc)?;
    let dependencies = required_links(alloc, ranks, deps, links)?;
    let optional = optional_links(alloc, ranks, deps, links)?;
    let transitive = copies(alloc, passed)?;
    Ok(LockSnapshot {
        path,
        dependencies,
        optional,
        transitive,
    })
}

fn required_links(
    alloc: Global,
    ranks: &[u32],
    deps: &[Dep],
    links: &[Link],
) -> Result<Items<LockLink>, Memory>
    requires { AreRanked (length ranks.now) links.now }
    ensures made { IfOk result (λ ls. ls ≡ required_links ranks.now deps.now links.now) }
    ensures named { IfOk result AreNamedLinks }
{
    let mut found = Items::new(alloc);
    for link in links {
        if !is_optional(deps, &link.name) {
            let one = link_of(alloc, ranks, link)?;
            found.push(one)?;
        }
    }
    Ok(found)
}

fn optional_links(
    alloc: Global,
    ranks: &[u32],
    deps: &[Dep],
    links: &[Link],
) -> Result<Items<LockLink>, Memory>
    requires { AreRanked (length ranks.now) links.now }
    ensures made { IfOk result (λ ls. ls ≡ optional_links ranks.now deps.now links.now) }
    ensures named { IfOk result AreNamedLinks }
{
    let mut found = Items::new(alloc);
    for link in links {
        if is_optional(deps, &link.name) {
            let one = link_of(alloc, ranks, link)?;
            found.push(one)?;
        }
    }
    Ok(found)
}

fn link_of(alloc: Global, ranks: &[u32], link: &Link) -> Result<LockLink, Memory>
    requires { IsRanked (length ranks.now) link.now.to }
    ensures made { IfOk result (λ l. l ≡ link_of ranks.now link.now) }
    ensures named { IfOk result (λ l. is_name l.alias ≡ true) }
{
    let alias = name_copy(alloc, &link.name)?;
    Ok(LockLink {
        alias,
        to: lock_goal(ranks, link.to),
    })
}

// Whether a name is an optional dependency.
fn is_optional(deps: &[Dep], name: &PkgName) -> bool
    ensures { result ≡ is_optional deps.now name.now }
{
    for dep in deps {
        if dep.optional && dep.alias.as_str() == name.as_str() {
            return true;
        }
    }
    false
}

fn copies(alloc: Global, names: &[PkgName]) -> Result<Items<PkgName>, Memory>
    ensures same { IfOk result (λ ns. ns ≡ names.now) }
    ensures named { IfOk result AreNames }
{
    let mut all = Items::new(alloc);
    for name in names {
        all.push(name_copy(alloc, name)?)?;
    }
    Ok(all)
}
