// What a project asks for, by the maps of its manifest.
ghost use Rattle.std.specs.Prelude.{◌≡◌, IfOk};
ghost use Rattle.pn_lock.specs.Kept.{Rises};
ghost use Rattle.pn_manifest.specs.Pairs.{names};
ghost use Rattle.pn_locking.specs.Asks.{is_dev, is_optional, is_regular, row_of, rows_where};

use crate::search::has;
use pn_manifest::Dependencies;
use pn_text::{Memory, PkgName, Text};
use pn_walk::{Wish, Wishes};
use sqlite_items::Items;
use std::alloc::Global;

/// The rows of the dependencies.
pub(crate) fn regular(
    alloc: Global,
    dev: &[PkgName],
    wishes: &Wishes,
) -> Result<Items<(PkgName, Text)>, Memory>
    requires { Rises dev.now }
    ensures { IfOk result (λ v. v ≡ rows_where (is_regular dev.now) wishes.now) }
{
    let mut rows = Items::new(alloc);
    for wish in wishes.as_slice() {
        if is_regular(dev, wish) {
            rows.push(row_of(alloc, wish)?)?;
        }
    }
    Ok(rows)
}

/// The rows of the dependencies for development.
pub(crate) fn for_development(
    alloc: Global,
    dev: &[PkgName],
    wishes: &Wishes,
) -> Result<Items<(PkgName, Text)>, Memory>
    requires { Rises dev.now }
    ensures { IfOk result (λ v. v ≡ rows_where (is_dev dev.now) wishes.now) }
{
    let mut rows = Items::new(alloc);
    for wish in wishes.as_slice() {
        if is_dev(dev, wish) {
            rows.push(row_of(alloc, wish)?)?;
        }
    }
    Ok(rows)
}

/// The rows of the optional dependencies.
pub(crate) fn optional(alloc: Global, wishes: &Wishes) -> Result<Items<(PkgName, Text)>, Memory>
    ensures { IfOk result (λ v. v ≡ rows_where is_optional wishes.now) }
{
    let mut rows = Items::new(alloc);
    for wish in wishes.as_slice() {
        if wish.optional {
            rows.push(row_of(alloc, wish)?)?;
        }
    }
    Ok(rows)
}

/// The names of dependencies.
pub(crate) fn names(alloc: Global, dependencies: &Dependencies) -> Result<Vec<PkgName>, Memory>
    ensures same { IfOk result (λ v. v.items ≡ names dependencies.now) }
    ensures rising { IfOk result (λ v. Rises v.items) }
{
    let mut all = Vec::new(alloc);
    for dependency in dependencies.as_slice() {
        all.push(dependency.name.copy(alloc)?)?;
    }
    Ok(all)
}

fn is_regular(dev: &[PkgName], wish: &Wish) -> bool
    requires { Rises dev.now }
    ensures { result ≡ is_regular dev.now wish.now }
{
    !wish.optional && !has(dev, &wish.alias)
}

fn is_dev(dev: &[PkgName], wish: &Wish) -> bool
    requires { Rises dev.now }
    ensures { result ≡ is_dev dev.now wish.now }
{
    !wish.optional && has(dev, &wish.alias)
}

fn row_of(alloc: Global, wish: &Wish) -> Result<(PkgName, Text), Memory>
    ensures { IfOk result (λ r. r ≡ row_of wish.now) }
{
    let alias = wish.alias.copy(alloc)?;
    let specifier = wish.specifier.copy(alloc)?;
    Ok((alias, specifier))
}
