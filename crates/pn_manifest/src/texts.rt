// Lists of texts under texts, and of names.
ghost use Rattle.std.specs.Prelude.{◌≡◌, IfOk, [], IsTrue, ◌↔◌, map};
ghost use Rattle.pn_manifest.specs.Pairs.{IsRising};
ghost use Rattle.pn_manifest.specs.Said.{AreRising};
ghost use Rattle.pn_manifest.specs.Listed.{entry_pair};

use pn_text::{Memory, PkgName, Text};
use std::alloc::Global;
use std::marker::Model;

/// A text under a key.
#[derive(Drop)]
pub struct Entry {
    pub key: Text,
    pub text: Text,
}

/// Texts in byte order of keys, no key twice.
#[derive(Drop)]
pub struct Entries {
    items: Vec<Entry>,
}

impl Model for Entries {
    ghost use Rattle.std.specs.Prelude.{List, map};
    ghost use Rattle.pn_manifest.specs.Pairs.{Pair, IsRising};
    ghost use Rattle.pn_manifest.specs.Listed.{entry_pair};

    ghost Value = { List Pair };

    ghost view = { λ a. map entry_pair a.items.items };

    ghost invariant = { λ a. IsRising (map entry_pair a.items.items) };
}

impl Entries {
    /// No entries.
    pub fn new(alloc: Global) -> Entries
        ensures { result ≡ [] }
    {
        Entries {
            items: Vec::new(alloc),
        }
    }

    /// Entries that rise.
    pub fn of(items: Vec<Entry>) -> Entries
        requires { IsRising (map entry_pair items.items) }
        ensures { result ≡ map entry_pair items.items }
    {
        Entries { items }
    }

    /// The entries.
    pub fn as_slice(&self) -> &[Entry]
        ensures pairs { map entry_pair result.now ≡ self.now }
        ensures rising { IsRising self.now }
    {
        self.items.as_slice()
    }

    /// Whether there is none.
    pub fn is_empty(&self) -> bool
        ensures { IsTrue result ↔ (self.now ≡ []) }
    {
        self.items.is_empty()
    }

    /// Equal entries.
    pub fn copy(&self, alloc: Global) -> Result<Entries, Memory>
        ensures { IfOk result (λ p. p ≡ self.now) }
    {
        let items = copy_entries(alloc, self.as_slice())?;
        Ok(Entries { items })
    }
}

fn copy_entries(alloc: Global, items: &[Entry]) -> Result<Vec<Entry>, Memory>
    ensures { IfOk result (λ v. map entry_pair v.items ≡ map entry_pair items.now) }
{
    let mut all = Vec::new(alloc);
    for item in items {
        let copied = copy_entry(alloc, item)?;
        all.push(copied)?;
    }
    Ok(all)
}

fn copy_entry(alloc: Global, one: &Entry) -> Result<Entry, Memory>
    ensures { IfOk result (λ e. entry_pair e ≡ entry_pair one.now) }
{
    let key = one.key.copy(alloc)?;
    let text = one.text.copy(alloc)?;
    Ok(Entry { key, text })
}

/// Names in byte order, none twice.
#[derive(Drop)]
pub struct Names {
    items: Vec<PkgName>,
}

impl Model for Names {
    ghost use Rattle.std.specs.Prelude.{List, ℕ};
    ghost use Rattle.std.specs.Cmp.Lexicographic.{slice_cmp};
    ghost use Rattle.std.specs.List.Sorted.{IsStrictlySortedBy};
    ghost use Rattle.std.specs.Ordering.{nat_cmp};

    ghost Value = { List (List ℕ) };

    ghost view = { λ a. a.items.items };

    ghost invariant = { λ a. IsStrictlySortedBy (slice_cmp nat_cmp) a.items.items };
}

impl Names {
    /// No names.
    pub fn new(alloc: Global) -> Names
        ensures { result ≡ [] }
    {
        Names {
            items: Vec::new(alloc),
        }
    }

    /// Names that rise.
    pub fn of(items: Vec<PkgName>) -> Names
        requires { AreRising items.items }
        ensures { result ≡ items.items }
    {
        Names { items }
    }

    /// The names.
    pub fn as_slice(&self) -> &[PkgName]
        ensures names { result.now ≡ self.now }
        ensures rising { AreRising self.now }
    {
        self.items.as_slice()
    }

    /// Equal names.
    pub fn copy(&self, alloc: Global) -> Result<Names, Memory>
        ensures { IfOk result (λ p. p ≡ self.now) }
    {
        let items = copy_names(alloc, self.as_slice())?;
        Ok(Names { items })
    }
}

fn copy_names(alloc: Global, items: &[PkgName]) -> Result<Vec<PkgName>, Memory>
    ensures { IfOk result (λ v. v.items ≡ items.now) }
{
    let mut all = Vec::new(alloc);
    for item in items {
        let copied = item.copy(alloc)?;
        all.push(copied)?;
    }
    Ok(all)
}
