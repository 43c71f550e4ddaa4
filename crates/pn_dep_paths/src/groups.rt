// The groups of an instance.
ghost use Rattle.std.specs.Prelude.{◌≡◌, ◌<◌, ℕ, List, [], IfOk, length, get_or, map, slice_get};
ghost use Rattle.std.specs.List.{Contains};
ghost use Rattle.pn_components.specs.Rows.{rows_of};
ghost use Rattle.pn_outer.specs.Instances.{ArePeersThere, IsThere};
ghost use Rattle.pn_outer.specs.Outer.{AreOuter};
ghost use Rattle.pn_dep_paths.specs.BaseTexts.{AreGroups, AreRising, in_parentheses};
ghost use Rattle.pn_dep_paths.specs.Relation.{AreRanks};
ghost use Rattle.pn_dep_paths.specs.Steps.{IsPairThere, group_at, group_of};

use crate::edges::{pair_at, row_at};
use crate::relation::Relation;
use pn_deppath::project_text;
use pn_outer::{Goal, Instance, Link};
use pn_text::{Memory, Text};
use std::alloc::Global;

/// The groups of an instance, in byte order, each once.
pub(crate) fn groups(
    alloc: Global,
    instances: &[Instance],
    folders: &[Text],
    relation: &Relation,
    texts: &[Text],
    i: usize,
) -> Result<Vec<Text>, Memory>
    requires within { i < length instances.now }
    requires texts { length texts.now ≡ length instances.now }
    requires peers { ArePeersThere (length folders.now) instances.now }
    requires outer { AreOuter instances.now relation.now.outer.pairs.items (rows_of relation.now.outer.rows.items) }
    requires ranks { AreRanks instances.now relation.now.numbers.items }
    ensures { IfOk result (λ groups. AreGroups folders.now instances.now texts.now i groups.items) }
{
    let outer = &relation.outer;
    let numbers = relation.numbers.as_slice();
    let pairs = outer.pairs.as_slice();
    let row = row_at(&outer.rows, i);
    let found = row_groups(alloc, instances, folders, numbers, texts, pairs, row, i)?;
    rising(found)
}

// The groups of the pairs with these numbers.
fn row_groups(
    alloc: Global,
    instances: &[Instance],
    folders: &[Text],
    numbers: &[u32],
    texts: &[Text],
    pairs: &[Link],
    row: &[usize],
    i: usize,
) -> Result<Vec<Text>, Memory>
    requires within { i < length instances.now }
    requires numbers { length numbers.now ≡ length instances.now }
    requires texts { length texts.now ≡ length instances.now }
    requires there { (p : ℕ) → Contains row.now p → IsPairThere (length instances.now) (length folders.now) (slice_get pairs.now p) }
    ensures { IfOk result (λ groups. groups.items ≡ map (group_at folders.now instances.now numbers.now texts.now pairs.now i) row.now) }
{
    let mut groups = Vec::new(alloc);
    for p in row {
        let pair = pair_at(pairs, *p);
        groups.push(group(alloc, instances, folders, numbers, texts, i, pair)?)?;
    }
    Ok(groups)
}

// What a pair's group is.
fn group(
    alloc: Global,
    instances: &[Instance],
    folders: &[Text],
    numbers: &[u32],
    texts: &[Text],
    i: usize,
    pair: &Link,
) -> Result<Text, Memory>
    requires within { i < length instances.now }
    requires numbers { length numbers.now ≡ length instances.now }
    requires texts { length texts.now ≡ length instances.now }
    requires there { IsThere (length instances.now) (length folders.now) pair.now.to }
    ensures { IfOk result (λ g. g ≡ group_of folders.now instances.now numbers.now texts.now i pair.now) }
{
    match pair.to {
        Goal::Project(q) => {
            let text = project_text(alloc, &pair.name, &folders[q.0 as usize])?;
            in_parentheses(alloc, text.as_str())
        }
        Goal::Inst(j) => {
            let j = j.0 as usize;
            if numbers[j] == numbers[i] {
                return in_parentheses(alloc, instances[j].id.as_str());
            }
            in_parentheses(alloc, texts[j].as_str())
        }
    }
}

fn in_parentheses(alloc: Global, text: &str) -> Result<Text, Memory>
    ensures { IfOk result (λ g. g ≡ in_parentheses text.now) }
{
    let mut group = String::from_str(alloc, "(")?;
    group.push_str(text)?;
    group.push_str(")")?;
    Text::of(alloc, group.as_str())
}

// The texts in byte order, each once.
fn rising(mut texts: Vec<Text>) -> Result<Vec<Text>, Memory>
    ensures rising { IfOk result (λ v. AreRising v.items) }
    ensures right { IfOk result (λ v. (g : List ℕ) → Contains v.items g → Contains texts.items g) }
    ensures all { IfOk result (λ v. (g : List ℕ) → Contains texts.items g → Contains v.items g) }
{
    texts.sort()?;
    texts.dedup();
    Ok(texts)
}
