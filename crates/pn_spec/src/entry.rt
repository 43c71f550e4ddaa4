// Entries of catalogs.
ghost use Rattle.std.specs.Prelude.{◌≡◌, IfOk, IfErr, true};
ghost use Rattle.pn_spec.specs.Entries.{IsNoEntry, entry_cmp, is_at, is_entry};
ghost use Rattle.pn_spec.specs.Forms.{IsSpec};
ghost use Rattle.pn_spec.specs.Refusals.{Refuses};

use crate::fault::SpecFault;
use crate::spec::Spec;
use pn_text::{PkgName, Text};
use std::alloc::Global;
use std::cmp::Ordering;

/// What a catalog has under a package name: the specifier as it is written, and as it is read.
#[derive(Drop)]
pub struct CatalogEntry {
    pub catalog: Text,
    pub name: PkgName,
    pub text: Text,
    pub spec: Spec,
}

/// The order of two entries by catalog and name.
pub(crate) fn entry_cmp(a: &CatalogEntry, b: &CatalogEntry) -> Ordering
    ensures { result ≡ entry_cmp a.now b.now }
{
    match a.catalog.cmp(&b.catalog) {
        Ordering::Less => Ordering::Less,
        Ordering::Equal => a.name.cmp(&b.name),
        Ordering::Greater => Ordering::Greater,
    }
}

/// Whether an entry stands in this catalog under this name.
pub(crate) fn is_at(entry: &CatalogEntry, catalog: &Text, name: &PkgName) -> bool
    ensures { result ≡ is_at catalog.now name.now entry.now }
{
    entry.catalog.as_str() == catalog.as_str() && entry.name.as_str() == name.as_str()
}

/// Reads the specifier of an entry: an alias, a range or a tag.
pub(crate) fn read_entry(alloc: Global, text: &Text) -> Result<Spec, SpecFault>
    ensures spec { IfOk result (IsSpec text.now) }
    ensures form { IfOk result (λ s. is_entry s ≡ true) }
    ensures fault { IfErr result (Refuses (IsNoEntry text.now)) }
{
    let spec = Spec::read(alloc, text.as_str())?;
    if !is_entry(&spec) {
        return Err(SpecFault::Unsupported);
    }
    Ok(spec)
}

fn is_entry(spec: &Spec) -> bool
    ensures { result ≡ is_entry spec.now }
{
    match spec {
        Spec::Workspace(_) | Spec::Catalog(_) => false,
        Spec::Alias(..) | Spec::Range(_) | Spec::Tag(_) => true,
    }
}
