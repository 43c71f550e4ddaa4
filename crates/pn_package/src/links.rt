// Links to packages.
ghost use Rattle.std.specs.Prelude.{◌≡◌, ◌++◌, ◌∷◌, [], IfOk, OnOk, map};
ghost use Rattle.pn_package.specs.Links.{IsRising};
ghost use Rattle.pn_package.specs.Listed.{pair_of};

use pn_text::{Memory, PkgId, PkgName};
use std::alloc::Global;
use std::marker::Model;

/// A name by which a package is found, and the package's id.
#[derive(Drop)]
pub struct Link {
    pub alias: PkgName,
    pub to: PkgId,
}

/// Links in byte order of aliases, no alias twice. Contracts see pairs of an alias and an id.
#[derive(Drop)]
pub struct Links {
    items: Vec<Link>,
}

impl Model for Links {
    ghost use Rattle.std.specs.Prelude.{List, map};
    ghost use Rattle.pn_package.specs.Links.{Pair, IsRising};
    ghost use Rattle.pn_package.specs.Listed.{pair_of};

    ghost Value = { List Pair };

    ghost view = { λ a. map pair_of a.items.items };

    ghost invariant = { λ a. IsRising (map pair_of a.items.items) };
}

impl Links {
    /// Links that are in order.
    pub fn of(items: Vec<Link>) -> Links
        requires { IsRising (map pair_of items.items) }
        ensures { result ≡ map pair_of items.items }
    {
        Links { items }
    }

    /// The links.
    pub fn as_slice(&self) -> &[Link]
        ensures pairs { map pair_of result.now ≡ self.now }
        ensures rising { IsRising self.now }
    {
        self.items.as_slice()
    }

    /// Equal links.
    pub fn copy(&self, alloc: Global) -> Result<Links, Memory>
        ensures { IfOk result (λ links. links ≡ self.now) }
    {
        let items = copied(alloc, self.as_slice())?;
        Ok(Links { items })
    }
}

fn copied(alloc: Global, links: &[Link]) -> Result<Vec<Link>, Memory>
    ensures { IfOk result (λ v. map pair_of v.items ≡ map pair_of links.now) }
{
    let mut all = Vec::new(alloc);
    for link in links {
        let one = copied_link(alloc, link)?;
        add(&mut all, one)?;
    }
    Ok(all)
}

fn copied_link(alloc: Global, link: &Link) -> Result<Link, Memory>
    ensures { IfOk result (λ l. pair_of l ≡ pair_of link.now) }
{
    let alias = link.alias.copy(alloc)?;
    let to = link.to.copy(alloc)?;
    Ok(Link { alias, to })
}

fn add(all: &mut Vec<Link>, one: Link) -> Result<(), Memory>
    ensures { OnOk result (all.new.items ≡ all.old.items ++ one ∷ []) }
{
    match all.push(one) {
        Ok(()) => Ok(()),
        Err(_) => Err(Memory),
    }
}
