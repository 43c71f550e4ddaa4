// Catalogs in the file.
ghost use Rattle.std.specs.Prelude.{◌≡◌, List, codes, IfErr, OnOk};
ghost use Rattle.pn_spec.specs.declared.entry.CatalogEntry.{CatalogEntry};
ghost use Rattle.pn_spec.specs.Entries.{put_in};
ghost use Rattle.pn_yaml.specs.View.{view, members_view};
ghost use Rattle.pn_config.specs.CatalogValues.{AreCatalogs, AreCatalogsOf, AreEntries, AreNoCatalogs, HasBadCatalog, HasBadEntry, IsBadEntry, IsCatalogOf, IsEntryOf, IsNoCatalog, has_key, names_default, puts};
ghost use Rattle.pn_config.specs.Faults.{Stops};

use crate::fault::Stop;
use pn_spec::{Catalogs, SpecFault};
use pn_text::{NameFault, PkgName, Text};
use pn_yaml::Node;
use std::alloc::Global;

fn put_entry(
    alloc: Global,
    catalogs: &mut Catalogs,
    catalog: &str,
    key: &str,
    value: &Node,
) -> Result<(), Stop>
    ensures ok { OnOk result ((e : CatalogEntry) × IsEntryOf catalog.now key.now (view value.now) e × (catalogs.new ≡ put_in e catalogs.old)) }
    ensures fault { IfErr result (Stops (IsBadEntry key.now (view value.now))) }
{
    let Node::Scalar(scalar) = value else {
        return Err(Stop::Bad);
    };
    let name = match PkgName::read(alloc, key) {
        Ok(name) => name,
        Err(NameFault::Memory) => return Err(Stop::Memory),
        Err(_) => return Err(Stop::Bad),
    };
    let catalog = Text::of(alloc, catalog)?;
    let text = scalar.text.copy(alloc)?;
    match catalogs.put(alloc, catalog, name, text) {
        Ok(()) => Ok(()),
        Err(SpecFault::Unsupported) => Err(Stop::Bad),
        Err(SpecFault::Memory) => Err(Stop::Memory),
    }
}

fn put_entries(
    alloc: Global,
    catalogs: &mut Catalogs,
    catalog: &str,
    members: &[(Text, Node)],
) -> Result<(), Stop>
    ensures ok { OnOk result ((es : List CatalogEntry) × AreEntries catalog.now (members_view members.now) es × (catalogs.new ≡ puts es catalogs.old)) }
    ensures fault { IfErr result (Stops (HasBadEntry (members_view members.now))) }
{
    for (key, value) in members {
        put_entry(alloc, catalogs, catalog, key.as_str(), value)?;
    }
    Ok(())
}

/// Puts what a value says into a catalog.
pub(crate) fn put_catalog(
    alloc: Global,
    catalogs: &mut Catalogs,
    catalog: &str,
    value: &Node,
) -> Result<(), Stop>
    ensures ok { OnOk result ((es : List CatalogEntry) × IsCatalogOf catalog.now (view value.now) es × (catalogs.new ≡ puts es catalogs.old)) }
    ensures fault { IfErr result (Stops (IsNoCatalog (view value.now))) }
{
    match value {
        Node::Map(members) => put_entries(alloc, catalogs, catalog, members.as_slice()),
        Node::Scalar(_) | Node::List(_) => Err(Stop::Bad),
    }
}

fn put_each(alloc: Global, catalogs: &mut Catalogs, members: &[(Text, Node)]) -> Result<(), Stop>
    ensures ok { OnOk result ((es : List CatalogEntry) × AreCatalogs (members_view members.now) es × (catalogs.new ≡ puts es catalogs.old)) }
    ensures fault { IfErr result (Stops (HasBadCatalog (members_view members.now))) }
{
    for (catalog, value) in members {
        put_catalog(alloc, catalogs, catalog.as_str(), value)?;
    }
    Ok(())
}

/// Puts what a value says into the catalogs that it names.
pub(crate) fn put_catalogs(alloc: Global, catalogs: &mut Catalogs, value: &Node) -> Result<(), Stop>
    ensures ok { OnOk result ((es : List CatalogEntry) × AreCatalogsOf (view value.now) es × (catalogs.new ≡ puts es catalogs.old)) }
    ensures fault { IfErr result (Stops (AreNoCatalogs (view value.now))) }
{
    match value {
        Node::Map(members) => put_each(alloc, catalogs, members.as_slice()),
        Node::Scalar(_) | Node::List(_) => Err(Stop::Bad),
    }
}

/// Whether a value names the catalog `default`.
pub(crate) fn names_default(value: &Node) -> bool
    ensures { result ≡ names_default (view value.now) }
{
    match value {
        Node::Map(members) => has_default(members.as_slice()),
        Node::Scalar(_) | Node::List(_) => false,
    }
}

fn has_default(members: &[(Text, Node)]) -> bool
    ensures { result ≡ has_key (codes "default") (members_view members.now) }
{
    for (key, _) in members {
        if key.as_str() == "default" {
            return true;
        }
    }
    false
}
