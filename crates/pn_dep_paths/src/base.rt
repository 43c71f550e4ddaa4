// The base texts of instances.
ghost use Rattle.std.specs.Prelude.{◌≡◌, ◌<◌, ◌⊎◌, ◌^◌, ℕ, [], IfOk, OnOk, length, get_or, string_bytes};
ghost use Rattle.std.specs.List.{Contains, concat};
ghost use Rattle.pn_components.specs.Rows.{rows_of};
ghost use Rattle.pn_outer.specs.Instances.{AreInRange, ArePeersThere};
ghost use Rattle.pn_outer.specs.Outer.{AreOuter};
ghost use Rattle.pn_dep_paths.specs.BaseTexts.{AreBaseTexts, IsBaseText};
ghost use Rattle.pn_dep_paths.specs.Relation.{AreRanks};
ghost use Rattle.pn_dep_paths.specs.Steps.{AreMembers, AreWritten, IsBelow};

use crate::groups::groups;
use crate::relation::{Relation, outer_relation};
use pn_components::targets;
use pn_deppath::shortened;
use pn_outer::Instance;
use pn_text::{Memory, Text};
use std::alloc::Global;

/// The base text of each instance, where these are the projects' folders.
pub(crate) fn base_texts(
    alloc: Global,
    instances: &[Instance],
    folders: &[Text],
) -> Result<Vec<Text>, Memory>
    requires few { length instances.now < 2 ^ 32 }
    requires within { AreInRange instances.now }
    requires peers { ArePeersThere (length folders.now) instances.now }
    ensures { IfOk result (λ texts. AreBaseTexts folders.now instances.now texts.items) }
{
    let relation = outer_relation(alloc, instances, folders.len())?;
    let components = members(alloc, &relation.numbers)?;
    let mut texts = empty(alloc, instances.len())?;
    for (c, row) in components.iter().enumerate() {
        write_texts(alloc, instances, folders, &relation, c, row, &mut texts)?;
    }
    Ok(texts)
}

// The places that have each number.
fn members(alloc: Global, numbers: &[u32]) -> Result<Vec<Vec<u32>>, Memory>
    requires few { length numbers.now < 2 ^ 32 }
    requires within { (i : ℕ) → i < length numbers.now → get_or numbers.now i 0 < length numbers.now }
    ensures count { IfOk result (λ rows. length rows.items ≡ length numbers.now) }
    ensures rows { IfOk result (λ rows. AreMembers numbers.now (rows_of rows.items)) }
{
    let mut pairs = Vec::new(alloc);
    for (i, number) in numbers.iter().enumerate() {
        pairs.push((*number, i as u32))?;
    }
    targets(alloc, numbers.len() as u32, &pairs)
}

fn empty(alloc: Global, count: usize) -> Result<Vec<Text>, Memory>
    ensures { IfOk result (λ texts. length texts.items ≡ count) }
{
    let mut texts = Vec::new(alloc);
    for _ in 0..count {
        texts.push(Text::of(alloc, "")?)?;
    }
    Ok(texts)
}

// Writes the texts of the members of a component, where those of the components before it are written.
fn write_texts(
    alloc: Global,
    instances: &[Instance],
    folders: &[Text],
    relation: &Relation,
    c: usize,
    row: &[u32],
    texts: &mut Vec<Text>,
) -> Result<(), Memory>
    requires texts { length texts.old.items ≡ length instances.now }
    requires peers { ArePeersThere (length folders.now) instances.now }
    requires outer { AreOuter instances.now relation.now.outer.pairs.items (rows_of relation.now.outer.rows.items) }
    requires ranks { AreRanks instances.now relation.now.numbers.items }
    requires members { (k : ℕ) → Contains row.now k → (k < length instances.now) × (get_or relation.now.numbers.items k 0 ≡ c) }
    requires written { AreWritten folders.now instances.now (IsBelow instances.now relation.now.numbers.items c) texts.old.items }
    ensures count { OnOk result (length texts.new.items ≡ length texts.old.items) }
    ensures written { OnOk result (AreWritten folders.now instances.now (λ i. IsBelow instances.now relation.now.numbers.items c i ⊎ Contains row.now i) texts.new.items) }
{
    for at in row {
        let i = *at as usize;
        let text = base_text(alloc, instances, folders, relation, texts, i)?;
        texts[i] = text;
    }
    Ok(())
}

// The base text of an instance, where the texts of what it leads to are known.
fn base_text(
    alloc: Global,
    instances: &[Instance],
    folders: &[Text],
    relation: &Relation,
    texts: &[Text],
    i: usize,
) -> Result<Text, Memory>
    requires within { i < length instances.now }
    requires texts { length texts.now ≡ length instances.now }
    requires peers { ArePeersThere (length folders.now) instances.now }
    requires outer { AreOuter instances.now relation.now.outer.pairs.items (rows_of relation.now.outer.rows.items) }
    requires ranks { AreRanks instances.now relation.now.numbers.items }
    ensures { IfOk result (IsBaseText folders.now instances.now texts.now i) }
{
    let groups = groups(alloc, instances, folders, relation, texts, i)?;
    let whole = joined(alloc, &groups)?;
    let short = shortened(alloc, whole)?;
    let mut text = String::from_str(alloc, instances[i].id.as_str())?;
    text.push_str(short.as_str())?;
    Text::of(alloc, text.as_str())
}

fn joined(alloc: Global, groups: &[Text]) -> Result<String, Memory>
    ensures { IfOk result (λ text. string_bytes text ≡ concat groups.now) }
{
    let mut text = String::new(alloc);
    for group in groups {
        text.push_str(group.as_str())?;
    }
    Ok(text)
}
