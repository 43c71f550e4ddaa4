// Lists in byte order of keys.
ghost use Rattle.std.specs.Prelude.{◌≡◌, ◌<◌, ◌++◌, ℕ, List, length, map, IfOk, IfSome, IsPermutation};
ghost use Rattle.std.specs.List.Sorted.{IsSortedBy};
ghost use Rattle.std.specs.Cmp.Lexicographic.{slice_cmp};
ghost use Rattle.std.specs.Ordering.{is_lt, nat_cmp};
ghost use Rattle.pn_lock.specs.Kept.{Rises, is_in};
ghost use Rattle.pn_lock.specs.Locks.{place_of};

use crate::catalogs::Catalog;
use crate::drafts::{DraftDependency, DraftImporter, DraftLink, DraftSnapshot};
use crate::packages::PeerMeta;
use pn_lock::{LockCatalog, LockPackage, LockPeer, Override};
use pn_text::{Memory, PkgName};
use sqlite_items::Items;
use std::cmp::Ordering;

/// What stands under a key.
pub trait Keyed {
    ghost key: { Self → List ℕ };

    fn key(&self) -> &str
        ensures { result.now ≡ key self.now };
}

impl Keyed for DraftDependency {
    ghost key = { λ d. d.alias };

    fn key(&self) -> &str {
        self.alias.as_str()
    }
}

impl Keyed for DraftLink {
    ghost key = { λ l. l.alias };

    fn key(&self) -> &str {
        self.alias.as_str()
    }
}

impl Keyed for DraftImporter {
    ghost key = { λ i. i.folder };

    fn key(&self) -> &str {
        self.folder.as_str()
    }
}

impl Keyed for DraftSnapshot {
    ghost key = { λ s. s.path };

    fn key(&self) -> &str {
        self.path.as_str()
    }
}

impl Keyed for LockPackage {
    ghost key = { λ p. p.id };

    fn key(&self) -> &str {
        self.id.as_str()
    }
}

impl Keyed for LockPeer {
    ghost key = { λ p. p.name };

    fn key(&self) -> &str {
        self.name.as_str()
    }
}

impl Keyed for PeerMeta {
    ghost key = { λ m. m.name };

    fn key(&self) -> &str {
        self.name.as_str()
    }
}

impl Keyed for LockCatalog {
    ghost key = { λ e. e.name };

    fn key(&self) -> &str {
        self.name.as_str()
    }
}

impl Keyed for Catalog {
    ghost key = { λ c. c.name };

    fn key(&self) -> &str {
        self.name.as_str()
    }
}

impl Keyed for Override {
    ghost key = { λ o. o.selector };

    fn key(&self) -> &str {
        self.selector.as_str()
    }
}

impl Keyed for PkgName {
    ghost key = { λ k. k };

    fn key(&self) -> &str {
        self.as_str()
    }
}

/// The place of a key in a list in byte order of keys, or none.
pub fn place<K: Keyed>(list: &[K], key: &str) -> Option<usize>
    requires { Rises (map K.key list.now) }
    ensures place { result ≡ place_of key.now (map K.key list.now) }
    ensures within { IfSome result (λ n. n < length list.now) }
{
    match list.binary_search_by(|item| key_cmp(item, key)) {
        Ok(at) => Some(at),
        Err(_) => None,
    }
}

/// Whether a key is in a list in byte order of keys.
pub fn has_key<K: Keyed>(list: &[K], key: &str) -> bool
    requires { Rises (map K.key list.now) }
    ensures { result ≡ is_in (map K.key list.now) key.now }
{
    place(list, key).is_some()
}

/// Whether a key is in one of two lists.
pub(crate) fn is_seen<K: Keyed>(seen: &[K], later: &[K], key: &str) -> bool
    requires seen_rise { Rises (map K.key seen.now) }
    requires later_rise { Rises (map K.key later.now) }
    ensures { result ≡ is_in (map K.key seen.now ++ map K.key later.now) key.now }
{
    if has_key(seen, key) {
        return true;
    }
    has_key(later, key)
}

fn key_cmp<K: Keyed>(item: &K, key: &str) -> Ordering
    ensures { result ≡ slice_cmp nat_cmp (K.key item.now) key.now }
{
    item.key().cmp(key)
}

/// The list in byte order of keys.
pub(crate) fn sorted<K: Keyed + Drop>(mut list: Vec<K>) -> Result<Items<K>, Memory>
    ensures same { IfOk result (λ xs. IsPermutation list.items xs) }
    ensures sorted { IfOk result (λ xs. IsSortedBy (λ a b. is_lt (slice_cmp nat_cmp (K.key a) (K.key b))) xs) }
{
    list.sort_by(|a, b| by_key(a, b))?;
    Ok(Items::from_vec(list))
}

fn by_key<K: Keyed>(a: &K, b: &K) -> Ordering
    ensures { result ≡ slice_cmp nat_cmp (K.key a.now) (K.key b.now) }
{
    a.key().cmp(b.key())
}
