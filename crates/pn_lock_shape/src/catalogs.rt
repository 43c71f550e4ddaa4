// Catalogs and overrides.
ghost use Rattle.std.specs.Prelude.{◌≡◌, [], ◌++◌, IfOk, OnOk, codes, true};
ghost use Rattle.pn_yaml.specs.Data.{members_apart};
ghost use Rattle.pn_lock_shape.specs.Answers.{Reads};
ghost use Rattle.pn_lock_shape.specs.Bare.{tree, tree_members};
ghost use Rattle.pn_lock_shape.specs.Reading.{all_entries, catalog_in, catalogs_in, group_in, override_in};
ghost use Rattle.pn_lock_shape.specs.Shapes.{optional};

use crate::entry::{Entry, optional_map, read_map};
use crate::fault::ShapeFault;
use crate::fields::{field, members, required_text, text};
use crate::names::read_name;
use pn_lock::{LockCatalog, Override};
use pn_text::{Memory, Text};
use pn_yaml::Node;
use sqlite_items::Items;
use std::alloc::Global;

/// A catalog, and its entries in byte order of names.
#[derive(Drop)]
pub struct Catalog {
    pub name: Text,
    pub entries: Items<LockCatalog>,
}

impl Entry for Override {
    ghost use Rattle.pn_lock_shape.specs.OwnKeys.{own_override};

    ghost form = { λ base seen selector d. override_in selector d };

    ghost own = { λ base seen k d x. own_override k d x };

    fn read(
        alloc: Global,
        _base: &str,
        _seen: &[Override],
        _later: &[Override],
        name: &Text,
        node: &Node,
    ) -> Result<Override, ShapeFault> {
        let value = text(alloc, node)?;
        Ok(Override {
            selector: name.copy(alloc)?,
            value: value.copy(alloc)?,
        })
    }
}

// The text that it hangs on is its catalog's name.
impl Entry for LockCatalog {
    ghost use Rattle.pn_lock_shape.specs.OwnKeys.{own_catalog};

    ghost form = { λ base seen name d. catalog_in base name d };

    ghost own = { λ base seen k d x. own_catalog base k d x };

    fn read(
        alloc: Global,
        base: &str,
        _seen: &[LockCatalog],
        _later: &[LockCatalog],
        name: &Text,
        node: &Node,
    ) -> Result<LockCatalog, ShapeFault> {
        let name = read_name(alloc, name.as_str())?;
        let fields = members(alloc, node)?;
        let specifier = required_text(alloc, fields, "specifier")?;
        let version = required_text(alloc, fields, "version")?;
        Ok(LockCatalog {
            catalog: Text::of(alloc, base)?,
            name,
            specifier,
            version,
        })
    }
}

impl Entry for Catalog {
    ghost use Rattle.pn_lock_shape.specs.OwnKeys.{own_group};

    ghost form = { λ base seen catalog d. group_in catalog d };

    ghost own = { λ base seen k d x. own_group k d x };

    #[tactic(auto, using(crate::proofs::PlaceLemmas::rises_none))]
    fn read(
        alloc: Global,
        _base: &str,
        _seen: &[Catalog],
        _later: &[Catalog],
        name: &Text,
        node: &Node,
    ) -> Result<Catalog, ShapeFault> {
        let entries = read_map(alloc, name.as_str(), &[], &[], node)?;
        Ok(Catalog {
            name: name.copy(alloc)?,
            entries,
        })
    }
}

/// The entries of all catalogs, by catalog and name.
#[tactic(auto, using(crate::proofs::PlaceLemmas::rises_none))]
pub(crate) fn optional_catalogs(
    alloc: Global,
    fields: &[(Text, Node)],
) -> Result<Items<LockCatalog>, ShapeFault>
    requires { members_apart [] (tree_members fields.now) ≡ true }
    ensures { Reads result (optional (codes "catalogs") catalogs_in [] (tree_members fields.now)) }
{
    let catalogs = optional_map(alloc, fields, "catalogs", "", &[], &[])?;
    Ok(all_entries(alloc, catalogs.as_slice())?)
}

fn all_entries(alloc: Global, catalogs: &[Catalog]) -> Result<Items<LockCatalog>, Memory>
    ensures { IfOk result (λ es. es ≡ all_entries catalogs.now) }
{
    let mut all = Items::new(alloc);
    for catalog in catalogs {
        push_entries(alloc, &mut all, catalog.entries.as_slice())?;
    }
    Ok(all)
}

fn push_entries(
    alloc: Global,
    all: &mut Items<LockCatalog>,
    entries: &[LockCatalog],
) -> Result<(), Memory>
    ensures { OnOk result (all.new ≡ all.old ++ entries.now) }
{
    for entry in entries {
        all.push(copy_entry(alloc, entry)?)?;
    }
    Ok(())
}

fn copy_entry(alloc: Global, entry: &LockCatalog) -> Result<LockCatalog, Memory>
    ensures { IfOk result (λ e. e ≡ entry.now) }
{
    Ok(LockCatalog {
        catalog: entry.catalog.copy(alloc)?,
        name: entry.name.copy(alloc)?,
        specifier: entry.specifier.copy(alloc)?,
        version: entry.version.copy(alloc)?,
    })
}
