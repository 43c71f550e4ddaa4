// Maps of entries.
ghost use Rattle.std.specs.Prelude.{◌≡◌, ◌++◌, ℕ, List, [], IfOk, Ok, map, true};
ghost use Rattle.pn_yaml.specs.Data.{Data, are_apart, members_apart};
ghost use Rattle.pn_lock.specs.Kept.{Rises};
ghost use Rattle.pn_lock_shape.specs.Answers.{Reads, ReadsVec};
ghost use Rattle.pn_lock_shape.specs.Bare.{tree, tree_members};
ghost use Rattle.pn_lock_shape.specs.Shapes.{Outcome, at, each, map_in, optional, required};

use crate::fault::ShapeFault;
use crate::fields::{field, members};
use crate::keyed::{Keyed, sorted};
use pn_text::Text;
use pn_yaml::Node;
use sqlite_items::Items;
use std::alloc::Global;

/// An entry of a map. What its data says may hang on a text, such as the folder from which links lead, and on the keys of
/// earlier maps, in which its own key may not stand.
pub(crate) trait Entry: Keyed {
    ghost form: { List ℕ → List (List ℕ) → List ℕ → Data → Outcome Self };

    fn read(
        alloc: Global,
        base: &str,
        seen: &[Self],
        later: &[Self],
        name: &Text,
        node: &Node,
    ) -> Result<Self, ShapeFault>
        requires apart { are_apart (tree node.now) ≡ true }
        requires seen_rise { Rises (map Self.key seen.now) }
        requires later_rise { Rises (map Self.key later.now) }
        ensures { Reads result (form base.now (map Self.key seen.now ++ map Self.key later.now) name.now (tree node.now)) };

    ghost own: { (base : List ℕ) (seen : List (List ℕ)) (k : List ℕ) (d : Data) (x : Self) → form base seen k d ≡ Ok x → Self.key x ≡ k };
}

// An entry, with its key in a fault.
fn read_entry<E: Entry + Drop>(
    alloc: Global,
    base: &str,
    seen: &[E],
    later: &[E],
    name: &Text,
    node: &Node,
) -> Result<E, ShapeFault>
    requires apart { are_apart (tree node.now) ≡ true }
    requires seen_rise { Rises (map E.key seen.now) }
    requires later_rise { Rises (map E.key later.now) }
    ensures { Reads result (at name.now (E.form base.now (map E.key seen.now ++ map E.key later.now) name.now (tree node.now))) }
{
    match E::read(alloc, base, seen, later, name, node) {
        Ok(read) => Ok(read),
        Err(fault) => Err(fault.within(alloc, name.as_str())),
    }
}

// The entries of a map, in its order.
fn read_entries<E: Entry + Drop>(
    alloc: Global,
    base: &str,
    seen: &[E],
    later: &[E],
    entries: &[(Text, Node)],
) -> Result<Vec<E>, ShapeFault>
    requires apart { members_apart [] (tree_members entries.now) ≡ true }
    requires seen_rise { Rises (map E.key seen.now) }
    requires later_rise { Rises (map E.key later.now) }
    ensures { ReadsVec result (each (E.form base.now (map E.key seen.now ++ map E.key later.now)) (tree_members entries.now)) }
{
    let mut all = Vec::new(alloc);
    for (name, node) in entries {
        let read = read_entry(alloc, base, seen, later, name, node)?;
        all.push(read)?;
    }
    Ok(all)
}

/// The entries of a map, in byte order of their keys.
pub(crate) fn read_map<E: Entry + Drop>(
    alloc: Global,
    base: &str,
    seen: &[E],
    later: &[E],
    node: &Node,
) -> Result<Items<E>, ShapeFault>
    requires apart { are_apart (tree node.now) ≡ true }
    requires seen_rise { Rises (map E.key seen.now) }
    requires later_rise { Rises (map E.key later.now) }
    ensures read { Reads result (map_in E.key (E.form base.now (map E.key seen.now ++ map E.key later.now)) (tree node.now)) }
    ensures rise { IfOk result (λ xs. Rises (map E.key xs)) }
{
    let entries = members(alloc, node)?;
    let read = read_entries(alloc, base, seen, later, entries)?;
    Ok(sorted(read)?)
}

/// The same under a key, where it stands.
#[tactic(auto, using(crate::proofs::PlaceLemmas::rises_none))]
pub(crate) fn optional_map<E: Entry + Drop>(
    alloc: Global,
    fields: &[(Text, Node)],
    key: &str,
    base: &str,
    seen: &[E],
    later: &[E],
) -> Result<Items<E>, ShapeFault>
    requires apart { members_apart [] (tree_members fields.now) ≡ true }
    requires seen_rise { Rises (map E.key seen.now) }
    requires later_rise { Rises (map E.key later.now) }
    ensures read { Reads result (optional key.now (map_in E.key (E.form base.now (map E.key seen.now ++ map E.key later.now))) [] (tree_members fields.now)) }
    ensures rise { IfOk result (λ xs. Rises (map E.key xs)) }
{
    let Some(node) = field(fields, key) else {
        return Ok(Items::new(alloc));
    };
    match read_map(alloc, base, seen, later, node) {
        Ok(read) => Ok(read),
        Err(fault) => Err(fault.within(alloc, key)),
    }
}

/// The same under a key that has to be there.
#[tactic(auto, using(crate::proofs::PlaceLemmas::rises_none))]
pub(crate) fn required_map<E: Entry + Drop>(
    alloc: Global,
    fields: &[(Text, Node)],
    key: &str,
) -> Result<Items<E>, ShapeFault>
    requires apart { members_apart [] (tree_members fields.now) ≡ true }
    ensures read { Reads result (required key.now (map_in E.key (E.form [] [])) (tree_members fields.now)) }
    ensures rise { IfOk result (λ xs. Rises (map E.key xs)) }
{
    let Some(node) = field(fields, key) else {
        return Err(ShapeFault::here(alloc).within(alloc, key));
    };
    match read_map(alloc, "", &[], &[], node) {
        Ok(read) => Ok(read),
        Err(fault) => Err(fault.within(alloc, key)),
    }
}
