// The dependencies of each node, as edges are gone through.
ghost use Rattle.std.specs.Prelude.{◌≡◌, ◌<◌, ◌∷◌, ◌++◌, [], ℕ, List, OnOk, IfOk, length, map, get_or, slice_set, replicate, option_to_list};
ghost use Rattle.std.specs.List.{All};
ghost use Rattle.pn_walk.specs.Calls.{link_of};
ghost use Rattle.pn_walk.specs.Walks.{Link, Turn};
ghost use Rattle.pn_shape.specs.Shapes.{at_of, dep_to};
ghost use Rattle.pn_shape.specs.Fits.{IsBetween};
ghost use Rattle.pn_shape.specs.DepLists.{HasDeps};

use pn_graph::{At, Dep, Deps};
use pn_text::{Memory, PkgIx, ProjIx};
use pn_walk::{Place, Taken, Wish};
use std::alloc::Global;
use std::marker::Model;

/// Dependencies that are added one by one.
#[derive(Drop)]
pub struct DepList {
    items: Vec<Dep>,
}

impl Model for DepList {
    ghost use Rattle.std.specs.Prelude.{List};
    ghost use Rattle.pn_graph.specs.declared.links.Dep.{Dep};

    ghost Value = { List Dep };

    ghost view = { λ a. a.items.items };
}

impl DepList {
    pub fn new(alloc: Global) -> DepList
        ensures { result ≡ [] }
    {
        DepList {
            items: Vec::new(alloc),
        }
    }

    pub fn push(&mut self, dep: Dep) -> Result<(), Memory>
        ensures { OnOk result (self.new ≡ self.old ++ dep ∷ []) }
    {
        self.items.push(dep)?;
        Ok(())
    }

    pub fn into_deps(self) -> Deps
        ensures { result ≡ self }
    {
        Deps::of(self.items)
    }
}

/// A list for each project, and one for each package.
#[derive(Drop)]
pub struct DepLists {
    pub projects: Vec<DepList>,
    pub packages: Vec<DepList>,
}

impl DepLists {
    /// What these edges lead to, each in its asker's list.
    pub fn of(
        alloc: Global,
        projects: usize,
        packages: usize,
        links: Vec<Taken>,
    ) -> Result<DepLists, Memory>
        requires { All (IsBetween projects packages) (map link_of links.items) }
        ensures { IfOk result (HasDeps projects packages (map link_of links.items)) }
    {
        let mut lists = DepLists::empty(alloc, projects, packages)?;
        for taken in links {
            lists.add(taken)?;
        }
        Ok(lists)
    }

    fn empty(alloc: Global, projects: usize, packages: usize) -> Result<DepLists, Memory>
        ensures { IfOk result (HasDeps projects packages []) }
    {
        let of_projects = empty_lists(alloc, projects)?;
        let of_packages = empty_lists(alloc, packages)?;
        Ok(DepLists {
            projects: of_projects,
            packages: of_packages,
        })
    }

    // Adds what an edge leads to.
    fn add(&mut self, taken: Taken) -> Result<(), Memory>
        requires { IsBetween (length self.old.projects.items) (length self.old.packages.items) (link_of taken) }
        ensures { OnOk result ((p k : ℕ) (links : List Link) → HasDeps p k links self.old → HasDeps p k (links ++ link_of taken ∷ []) self.new) }
    {
        let Some(dep) = dep_of(taken.wish, taken.to) else {
            return Ok(());
        };
        match taken.who {
            Place::Project(at) => put(&mut self.projects, at as usize, dep),
            Place::Package(at) => put(&mut self.packages, at as usize, dep),
        }
    }
}

fn empty_lists(alloc: Global, count: usize) -> Result<Vec<DepList>, Memory>
    ensures { IfOk result (λ v. v.items ≡ replicate count []) }
{
    let mut lists = Vec::with_capacity(alloc, count)?;
    for _ in 0..count {
        lists.push(DepList::new(alloc))?;
    }
    Ok(lists)
}

// What an edge leads to, if it leads somewhere.
fn dep_of(wish: Wish, to: Option<Place>) -> Option<Dep>
    ensures { (e : Turn) → e.wish ≡ wish → dep_to e to ≡ option_to_list result }
{
    match to {
        None => None,
        Some(place) => Some(Dep {
            alias: wish.alias,
            specifier: wish.specifier,
            to: at_of(place),
            optional: wish.optional,
        }),
    }
}

fn at_of(place: Place) -> At
    ensures { result ≡ at_of place }
{
    match place {
        Place::Project(at) => At::Project(ProjIx(at)),
        Place::Package(at) => At::Package(PkgIx(at)),
    }
}

// Adds a dependency to the list at a place.
fn put(lists: &mut Vec<DepList>, at: usize, dep: Dep) -> Result<(), Memory>
    requires { at < length lists.old.items }
    ensures { OnOk result (lists.new.items ≡ slice_set lists.old.items at (get_or lists.old.items at [] ++ dep ∷ [])) }
{
    lists[at].push(dep)
}
