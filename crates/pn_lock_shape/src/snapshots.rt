// The snapshots of a lockfile.
ghost use Rattle.std.specs.Prelude.{◌≡◌, ◌++◌, [], IfOk, codes, true};
ghost use Rattle.pn_text.specs.Ids.{id_name};
ghost use Rattle.pn_deppath.specs.Paths.{id_part, is_dep_path};
ghost use Rattle.pn_lock.specs.Kept.{Rises};
ghost use Rattle.pn_lock_shape.specs.Answers.{Reads};
ghost use Rattle.pn_yaml.specs.Data.{members_apart};
ghost use Rattle.pn_lock_shape.specs.Bare.{tree_members};
ghost use Rattle.pn_lock_shape.specs.Shapes.{optional};
ghost use Rattle.pn_lock_shape.specs.Reading.{links_from, links_in, link_name, link_in, snapshot_fields, snapshot_in};

use crate::drafts::{DraftLink, DraftSnapshot};
use crate::entry::{Entry, optional_map};
use crate::fault::ShapeFault;
use crate::fields::members;
use crate::keyed::is_seen;
use crate::names::{optional_transitive, read_name};
use crate::target::read_goal;
use pn_deppath::{is_dep_path, split_path};
use pn_text::{Memory, PkgId, PkgName, Text};
use pn_yaml::Node;
use sqlite_items::Items;
use std::alloc::Global;

// A name that is neither the snapshot's own nor in an earlier map.
fn read_link_name(
    alloc: Global,
    own: &str,
    seen: &[DraftLink],
    later: &[DraftLink],
    alias: &Text,
) -> Result<PkgName, ShapeFault>
    requires seen_rise { Rises (links_in seen.now) }
    requires later_rise { Rises (links_in later.now) }
    ensures { Reads result (link_name own.now (links_in seen.now ++ links_in later.now) alias.now) }
{
    if alias.as_str() == own {
        return Err(ShapeFault::here(alloc));
    }
    if is_seen(seen, later, alias.as_str()) {
        return Err(ShapeFault::here(alloc));
    }
    read_name(alloc, alias.as_str())
}

// The text that it hangs on is its snapshot's name.
impl Entry for DraftLink {
    ghost use Rattle.pn_lock_shape.specs.OwnKeys.{own_link};

    ghost form = { link_in };

    ghost own = { own_link };

    fn read(
        alloc: Global,
        base: &str,
        seen: &[DraftLink],
        later: &[DraftLink],
        name: &Text,
        node: &Node,
    ) -> Result<DraftLink, ShapeFault> {
        let alias = read_link_name(alloc, base, seen, later, name)?;
        let aim = read_goal(alloc, ".", name, node)?;
        Ok(DraftLink { alias, aim })
    }
}

#[tactic(auto, using(crate::proofs::PlaceLemmas::rises_none))]
fn dependencies(
    alloc: Global,
    fields: &[(Text, Node)],
    own: &str,
) -> Result<Items<DraftLink>, ShapeFault>
    requires { members_apart [] (tree_members fields.now) ≡ true }
    ensures read { Reads result (optional (codes "dependencies") (links_from own.now []) [] (tree_members fields.now)) }
    ensures rise { IfOk result (λ ls. Rises (links_in ls)) }
{
    optional_map(alloc, fields, "dependencies", own, &[], &[])
}

#[tactic(auto, using(crate::proofs::PlaceLemmas::rises_none))]
fn optional_dependencies(
    alloc: Global,
    fields: &[(Text, Node)],
    own: &str,
    first: &Items<DraftLink>,
) -> Result<Items<DraftLink>, ShapeFault>
    requires apart { members_apart [] (tree_members fields.now) ≡ true }
    requires rise { Rises (links_in first.now) }
    ensures { Reads result (optional (codes "optionalDependencies") (links_from own.now (links_in first.now)) [] (tree_members fields.now)) }
{
    optional_map(
        alloc,
        fields,
        "optionalDependencies",
        own,
        &[],
        first.as_slice(),
    )
}

fn snapshot_fields(
    alloc: Global,
    path: &str,
    own: &str,
    fields: &[(Text, Node)],
) -> Result<DraftSnapshot, ShapeFault>
    requires { members_apart [] (tree_members fields.now) ≡ true }
    ensures { Reads result (snapshot_fields path.now own.now (tree_members fields.now)) }
{
    let first = dependencies(alloc, fields, own)?;
    let optional = optional_dependencies(alloc, fields, own, &first)?;
    let transitive = optional_transitive(alloc, fields)?;
    Ok(DraftSnapshot {
        path: Text::of(alloc, path)?,
        dependencies: first,
        optional,
        transitive,
    })
}

impl Entry for DraftSnapshot {
    ghost use Rattle.pn_lock_shape.specs.OwnKeys.{own_snapshot};

    ghost form = { λ base seen path d. snapshot_in path d };

    ghost own = { λ base seen k d x. own_snapshot k d x };

    fn read(
        alloc: Global,
        _base: &str,
        _seen: &[DraftSnapshot],
        _later: &[DraftSnapshot],
        name: &Text,
        node: &Node,
    ) -> Result<DraftSnapshot, ShapeFault> {
        if !is_dep_path(alloc, name.as_str())? {
            return Err(ShapeFault::here(alloc));
        }
        let own = own_name(alloc, name.as_str())?;
        let fields = members(alloc, node)?;
        snapshot_fields(alloc, name.as_str(), own.as_str(), fields)
    }
}

// The name of a dep path's package.
fn own_name(alloc: Global, path: &str) -> Result<PkgName, Memory>
    requires { is_dep_path path.now ≡ true }
    ensures { IfOk result (λ name. name ≡ id_name (id_part path.now)) }
{
    let (id, _) = split_path(path);
    match PkgId::read(alloc, id)? {
        Some(id) => id.name().copy(alloc),
        None => unreachable!(),
    }
}
