// Lists of dependencies.
ghost use Rattle.std.specs.Prelude.{◌≡◌, ◌↔◌, [], IfOk, IsTrue, map, length};
ghost use Rattle.pn_manifest.specs.Pairs.{IsRising};
ghost use Rattle.pn_manifest.specs.Listed.{pair_of};

use pn_text::{Memory, PkgName, Text};
use std::alloc::Global;
use std::marker::Model;

/// A dependency: its name and the specifier's text.
#[derive(Drop)]
pub struct Dependency {
    pub name: PkgName,
    pub specifier: Text,
}

impl Dependency {
    /// An equal dependency.
    pub fn copy(&self, alloc: Global) -> Result<Dependency, Memory>
        ensures { IfOk result (λ d. pair_of d ≡ pair_of self.now) }
    {
        let name = self.name.copy(alloc)?;
        let specifier = self.specifier.copy(alloc)?;
        Ok(Dependency { name, specifier })
    }
}

/// Dependencies in byte order of names, no name twice.
#[derive(Drop)]
pub struct Dependencies {
    items: Vec<Dependency>,
}

impl Model for Dependencies {
    ghost use Rattle.std.specs.Prelude.{List, ℕ, map};
    ghost use Rattle.pn_manifest.specs.Pairs.{Pair, IsRising};
    ghost use Rattle.pn_manifest.specs.Listed.{pair_of};

    ghost Value = { List Pair };

    ghost view = { λ a. map pair_of a.items.items };

    ghost invariant = { λ a. IsRising (map pair_of a.items.items) };
}

impl Dependencies {
    /// No dependencies.
    pub fn new(alloc: Global) -> Dependencies
        ensures { result ≡ [] }
    {
        Dependencies {
            items: Vec::new(alloc),
        }
    }

    /// Dependencies that rise.
    pub fn of(items: Vec<Dependency>) -> Dependencies
        requires { IsRising (map pair_of items.items) }
        ensures { result ≡ map pair_of items.items }
    {
        Dependencies { items }
    }

    /// The dependencies.
    pub fn as_slice(&self) -> &[Dependency]
        ensures pairs { map pair_of result.now ≡ self.now }
        ensures rising { IsRising self.now }
    {
        self.items.as_slice()
    }

    /// How many there are.
    pub fn len(&self) -> usize
        ensures { result ≡ length self.now }
    {
        self.items.len()
    }

    /// Whether there is none.
    pub fn is_empty(&self) -> bool
        ensures { IsTrue result ↔ (self.now ≡ []) }
    {
        self.items.is_empty()
    }

    /// Equal dependencies.
    pub fn copy(&self, alloc: Global) -> Result<Dependencies, Memory>
        ensures { IfOk result (λ d. d ≡ self.now) }
    {
        let items = copy_all(alloc, self.as_slice())?;
        Ok(Dependencies { items })
    }
}

fn copy_all(alloc: Global, items: &[Dependency]) -> Result<Vec<Dependency>, Memory>
    ensures { IfOk result (λ v. map pair_of v.items ≡ map pair_of items.now) }
{
    let mut all = Vec::new(alloc);
    for item in items {
        let copied = item.copy(alloc)?;
        all.push(copied)?;
    }
    Ok(all)
}
