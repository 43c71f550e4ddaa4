// Catalogs.
ghost use Rattle.std.specs.Prelude.{◌≡◌, ◌++◌, ◌∷◌, [], ◌≤◌, ◌<◌, ◌+◌, length, take, drop, option_map, IfOk, IfErr, OnOk, OnErr, true};
ghost use Rattle.pn_spec.specs.Entries.{AreCatalogs, IsNoEntry, IsPut, put_in, spec_at};
ghost use Rattle.pn_spec.specs.Refusals.{Refuses};

use crate::entry::{CatalogEntry, entry_cmp, is_at, read_entry};
use crate::fault::SpecFault;
use crate::spec::Spec;
use pn_text::{Memory, PkgName, Text};
use std::alloc::Global;
use std::cmp::Ordering;
use std::marker::Model;

/// The entries of all catalogs in byte order of catalog and name, each once.
#[derive(Drop)]
pub struct Catalogs {
    items: Vec<CatalogEntry>,
}

impl Model for Catalogs {
    ghost use Rattle.std.specs.Prelude.{List};
    ghost use Rattle.pn_spec.specs.declared.entry.CatalogEntry.{CatalogEntry};
    ghost use Rattle.pn_spec.specs.Entries.{AreCatalogs};

    ghost Value = { List CatalogEntry };

    ghost view = { λ a. a.items.items };

    ghost invariant = { λ a. AreCatalogs a.items.items };
}

impl Catalogs {
    /// No entries.
    pub fn new(alloc: Global) -> Catalogs
        ensures { result ≡ [] }
    {
        Catalogs {
            items: Vec::new(alloc),
        }
    }

    /// The entries.
    pub fn as_slice(&self) -> &[CatalogEntry]
        ensures entries { result.now ≡ self.now }
        ensures kept { AreCatalogs self.now }
    {
        self.items.as_slice()
    }

    /// The specifier that a catalog has under a name, or none where it has no such entry.
    pub fn get(&self, catalog: &Text, name: &PkgName) -> Option<&Spec>
        ensures { option_map (λ s. s.now) result ≡ spec_at catalog.now name.now self.now }
    {
        find(&self.items, catalog, name)
    }

    /// Puts an entry into a catalog under a name, in place of one that stands there. `Unsupported` is answered where the
    /// text is no specifier, or one of `workspace:` or `catalog:`. After a refusal the catalogs are as before.
    pub fn put(
        &mut self,
        alloc: Global,
        catalog: Text,
        name: PkgName,
        text: Text,
    ) -> Result<(), SpecFault>
        ensures ok { OnOk result (IsPut catalog name text self.old self.new) }
        ensures err { OnErr result (self.new ≡ self.old) }
        ensures fault { IfErr result (Refuses (IsNoEntry text)) }
    {
        let spec = read_entry(alloc, &text)?;
        let entry = CatalogEntry {
            catalog,
            name,
            text,
            spec,
        };
        put_in(&mut self.items, entry)?;
        Ok(())
    }
}

fn find<'a>(items: &'a [CatalogEntry], catalog: &Text, name: &PkgName) -> Option<&'a Spec>
    ensures { option_map (λ s. s.now) result ≡ spec_at catalog.now name.now items.now }
{
    for entry in items {
        if is_at(entry, catalog, name) {
            return Some(&entry.spec);
        }
    }
    None
}

fn put_in(items: &mut Vec<CatalogEntry>, entry: CatalogEntry) -> Result<(), Memory>
    ensures ok { OnOk result (items.new.items ≡ put_in entry items.old.items) }
    ensures err { OnErr result (items.new.items ≡ items.old.items) }
{
    match place(items, &entry) {
        Ok(at) => {
            replace(items, at, entry);
            Ok(())
        }
        Err(at) => insert(items, at, entry),
    }
}

// Where an entry of this catalog and name stands, or else where it is to stand.
fn place(items: &[CatalogEntry], entry: &CatalogEntry) -> Result<usize, usize>
    ensures found { IfOk result (λ i. (i < length items.now) × (put_in entry.now items.now
        ≡ take i items.now ++ entry.now ∷ drop (i + 1) items.now)) }
    ensures free { IfErr result (λ i. (i ≤ length items.now) × (put_in entry.now items.now
        ≡ take i items.now ++ entry.now ∷ drop i items.now)) }
{
    for (i, item) in items.iter().enumerate() {
        match entry_cmp(item, entry) {
            Ordering::Less => {}
            Ordering::Equal => return Ok(i),
            Ordering::Greater => return Err(i),
        }
    }
    Err(items.len())
}

fn replace(items: &mut Vec<CatalogEntry>, at: usize, entry: CatalogEntry)
    requires { at < length items.old.items }
    ensures { items.new.items ≡ take at items.old.items ++ entry ∷ drop (at + 1) items.old.items }
{
    items[at] = entry;
}

fn insert(items: &mut Vec<CatalogEntry>, at: usize, entry: CatalogEntry) -> Result<(), Memory>
    requires { at ≤ length items.old.items }
    ensures ok { OnOk result (items.new.items ≡ take at items.old.items ++ entry
        ∷ drop at items.old.items) }
    ensures err { OnErr result (items.new.items ≡ items.old.items) }
{
    match items.insert(at, entry) {
        Ok(()) => Ok(()),
        Err(_) => Err(Memory),
    }
}
