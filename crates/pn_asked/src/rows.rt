// Lists of keys, and of keys with values.
ghost use Rattle.std.specs.Prelude.{◌≡◌, ℕ, List, map, option_map};
ghost use Rattle.pn_asked.specs.Rows.{Row, agree, at_key, first_missing, first_other, is_in, lesser};

use crate::asked::AskedProject;
use pn_lock::{LockDependency, LockImporter, Override};
use pn_text::{PkgName, Text};
use std::cmp::Ordering;

/// What has a key.
pub(crate) trait Keyed {
    ghost key: { Self → List ℕ };

    fn key(&self) -> &str
        ensures { result.now ≡ key self.now };
}

/// A key with a value.
pub(crate) trait Rowed {
    ghost pair: { Self → Row };

    fn key(&self) -> &str
        ensures { result.now ≡ (pair self.now).0 };

    fn value(&self) -> &str
        ensures { result.now ≡ (pair self.now).1 };
}

impl Keyed for LockImporter {
    ghost key = { λ i. i.folder };

    fn key(&self) -> &str {
        self.folder.as_str()
    }
}

impl Keyed for AskedProject {
    ghost key = { λ p. p.folder };

    fn key(&self) -> &str {
        self.folder.as_str()
    }
}

impl Rowed for Override {
    ghost pair = { λ o. (o.selector, o.value) };

    fn key(&self) -> &str {
        self.selector.as_str()
    }

    fn value(&self) -> &str {
        self.value.as_str()
    }
}

impl Rowed for (Text, Text) {
    ghost pair = { λ p. (p.0, p.1) };

    fn key(&self) -> &str {
        self.0.as_str()
    }

    fn value(&self) -> &str {
        self.1.as_str()
    }
}

impl Rowed for LockDependency {
    ghost pair = { λ d. (d.alias, d.specifier) };

    fn key(&self) -> &str {
        self.alias.as_str()
    }

    fn value(&self) -> &str {
        self.specifier.as_str()
    }
}

impl Rowed for (PkgName, Text) {
    ghost pair = { λ p. (p.0, p.1) };

    fn key(&self) -> &str {
        self.0.as_str()
    }

    fn value(&self) -> &str {
        self.1.as_str()
    }
}

/// Whether one of these has the key.
pub(crate) fn has_key<A: Keyed>(items: &[A], key: &str) -> bool
    ensures { result ≡ is_in (map A.key items.now) key.now }
{
    for item in items {
        if item.key() == key {
            return true;
        }
    }
    false
}

/// The first key of these that none of those has.
pub(crate) fn first_missing<'a, A: Keyed, B: Keyed>(these: &'a [A], those: &[B]) -> Option<&'a str>
    ensures { option_map (λ k. k.now) result ≡ first_missing (map A.key these.now) (map B.key those.now) }
{
    for item in these {
        if !has_key(those, item.key()) {
            return Some(item.key());
        }
    }
    None
}

/// The value under a key.
pub(crate) fn value_at<'a, A: Rowed>(rows: &'a [A], key: &str) -> Option<&'a str>
    ensures { option_map (λ v. v.now) result ≡ at_key key.now (map A.pair rows.now) }
{
    for row in rows {
        if row.key() == key {
            return Some(row.value());
        }
    }
    None
}

/// Whether two values are the same, or both are missing.
pub(crate) fn agree(a: Option<&str>, b: Option<&str>) -> bool
    ensures { result ≡ agree (option_map (λ v. v.now) a.entry) (option_map (λ v. v.now) b.entry) }
{
    match (a, b) {
        (None, None) => true,
        (Some(a), Some(b)) => a == b,
        (None, Some(_)) => false,
        (Some(_), None) => false,
    }
}

/// The first key of these under which those have another value, or none.
pub(crate) fn first_other<'a, A: Rowed, B: Rowed>(these: &'a [A], those: &[B]) -> Option<&'a str>
    ensures { option_map (λ k. k.now) result ≡ first_other (map A.pair these.now) (map B.pair those.now) }
{
    for row in these {
        let key = row.key();
        if !agree(value_at(these, key), value_at(those, key)) {
            return Some(key);
        }
    }
    None
}

/// Of two keys the one that is before the other.
pub(crate) fn lesser<'a>(a: Option<&'a str>, b: Option<&'a str>) -> Option<&'a str>
    ensures { option_map (λ k. k.now) result ≡ lesser (option_map (λ k. k.now) a.entry) (option_map (λ k. k.now) b.entry) }
{
    match (a, b) {
        (Some(x), Some(y)) => {
            if y.cmp(x) == Ordering::Less {
                Some(y)
            } else {
                Some(x)
            }
        }
        (Some(x), None) => Some(x),
        (None, other) => other,
    }
}
