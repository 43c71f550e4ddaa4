// Overrides in byte order.
ghost use Rattle.std.specs.Prelude.{◌≡◌, ◌++◌, ◌∷◌, [], IfOk, OnOk, map};
ghost use Rattle.std.specs.BTreeMap.{IsOrdered};
ghost use Rattle.std.specs.Cmp.Lexicographic.{slice_cmp};
ghost use Rattle.std.specs.List.Sorted.{IsStrictlySortedBy};
ghost use Rattle.std.specs.Map.{keys_of};
ghost use Rattle.std.specs.Ordering.{nat_cmp};
ghost use Rattle.pn_config.specs.Files.{joined, put_pairs};

use pn_text::{Memory, Text};
use std::alloc::Global;
use std::collections::BTreeMap;
use std::marker::Model;

/// Selectors with their texts, in byte order of selectors, each once.
#[derive(Drop)]
pub struct Overrides {
    items: Vec<(Text, Text)>,
}

impl Model for Overrides {
    ghost use Rattle.std.specs.Prelude.{ℕ, List};
    ghost use Rattle.std.specs.Cmp.Lexicographic.{slice_cmp};
    ghost use Rattle.std.specs.List.Sorted.{IsStrictlySortedBy};
    ghost use Rattle.std.specs.Map.{keys_of};
    ghost use Rattle.std.specs.Ordering.{nat_cmp};

    ghost Value = { List (List ℕ × List ℕ) };

    ghost view = { λ a. a.items.items };

    ghost invariant = { λ a. IsStrictlySortedBy (slice_cmp nat_cmp) (keys_of a.items.items) };
}

impl Overrides {
    /// Joins overrides of two places; where both have a selector, the second place's text counts.
    pub(crate) fn joined(
        alloc: Global,
        first: &[(Text, Text)],
        second: &[(Text, Text)],
    ) -> Result<Overrides, Memory>
        ensures { IfOk result (λ o. o ≡ joined first.now second.now) }
    {
        let mut all = BTreeMap::new(alloc);
        put_pairs(alloc, &mut all, first)?;
        put_pairs(alloc, &mut all, second)?;
        let items = items_of(alloc, all)?;
        Ok(Overrides { items })
    }

    /// The selectors with their texts.
    pub fn as_slice(&self) -> &[(Text, Text)]
        ensures pairs { result.now ≡ self.now }
        ensures rising { IsStrictlySortedBy (slice_cmp nat_cmp) (keys_of self.now) }
    {
        self.items.as_slice()
    }
}

fn put_pairs(
    alloc: Global,
    all: &mut BTreeMap<Text, Text>,
    pairs: &[(Text, Text)],
) -> Result<(), Memory>
    ensures { OnOk result (all.new.entries ≡ put_pairs pairs.now all.old.entries) }
{
    for (selector, text) in pairs {
        let _old = all.insert(selector.copy(alloc)?, text.copy(alloc)?)?;
    }
    Ok(())
}

fn items_of(alloc: Global, all: BTreeMap<Text, Text>) -> Result<Vec<(Text, Text)>, Memory>
    ensures items { IfOk result (λ v. v.items ≡ all.entries) }
    ensures rising { IfOk result (λ v. IsStrictlySortedBy (slice_cmp nat_cmp) (keys_of v.items)) }
{
    let mut items = Vec::new(alloc);
    for pair in all {
        items.push(pair)?;
    }
    Ok(items)
}
