// The projects of a lockfile.
ghost use Rattle.std.specs.Prelude.{◌≡◌, ◌++◌, [], IfOk, codes, true};
ghost use Rattle.pn_lock.specs.Kept.{Rises};
ghost use Rattle.pn_lock_shape.specs.Answers.{Reads};
ghost use Rattle.pn_yaml.specs.Data.{members_apart};
ghost use Rattle.pn_lock_shape.specs.Bare.{tree_members};
ghost use Rattle.pn_lock_shape.specs.Shapes.{optional};
ghost use Rattle.pn_lock_shape.specs.Reading.{alias_in, aliases_in, dependencies_in, dependency_in, importer_fields, importer_in};

use crate::drafts::{DraftDependency, DraftImporter};
use crate::entry::{Entry, optional_map};
use crate::fault::ShapeFault;
use crate::fields::{members, required_text};
use crate::keyed::is_seen;
use crate::names::read_name;
use crate::target::required_target;
use pn_lock::is_folder;
use pn_text::{PkgName, Text};
use pn_yaml::Node;
use sqlite_items::Items;
use std::alloc::Global;

// An alias that isn't in an earlier map.
fn read_alias(
    alloc: Global,
    seen: &[DraftDependency],
    later: &[DraftDependency],
    alias: &Text,
) -> Result<PkgName, ShapeFault>
    requires seen_rise { Rises (aliases_in seen.now) }
    requires later_rise { Rises (aliases_in later.now) }
    ensures { Reads result (alias_in (aliases_in seen.now ++ aliases_in later.now) alias.now) }
{
    if is_seen(seen, later, alias.as_str()) {
        return Err(ShapeFault::here(alloc));
    }
    read_name(alloc, alias.as_str())
}

// The text that it hangs on is its project's folder.
impl Entry for DraftDependency {
    ghost use Rattle.pn_lock_shape.specs.OwnKeys.{own_dependency};

    ghost form = { dependency_in };

    ghost own = { own_dependency };

    fn read(
        alloc: Global,
        base: &str,
        seen: &[DraftDependency],
        later: &[DraftDependency],
        name: &Text,
        node: &Node,
    ) -> Result<DraftDependency, ShapeFault> {
        let alias = read_alias(alloc, seen, later, name)?;
        let fields = members(alloc, node)?;
        let specifier = required_text(alloc, fields, "specifier")?;
        let aim = required_target(alloc, fields, base, name)?;
        Ok(DraftDependency {
            alias,
            specifier,
            aim,
        })
    }
}

#[tactic(auto, using(crate::proofs::PlaceLemmas::rises_none))]
fn dependencies(
    alloc: Global,
    fields: &[(Text, Node)],
    base: &str,
) -> Result<Items<DraftDependency>, ShapeFault>
    requires { members_apart [] (tree_members fields.now) ≡ true }
    ensures read { Reads result (optional (codes "dependencies") (dependencies_in base.now []) [] (tree_members fields.now)) }
    ensures rise { IfOk result (λ ds. Rises (aliases_in ds)) }
{
    optional_map(alloc, fields, "dependencies", base, &[], &[])
}

#[tactic(auto, using(crate::proofs::PlaceLemmas::rises_none))]
fn dev_dependencies(
    alloc: Global,
    fields: &[(Text, Node)],
    base: &str,
    first: &Items<DraftDependency>,
) -> Result<Items<DraftDependency>, ShapeFault>
    requires apart { members_apart [] (tree_members fields.now) ≡ true }
    requires rise { Rises (aliases_in first.now) }
    ensures read { Reads result (optional (codes "devDependencies") (dependencies_in base.now (aliases_in first.now)) [] (tree_members fields.now)) }
    ensures rise { IfOk result (λ ds. Rises (aliases_in ds)) }
{
    optional_map(
        alloc,
        fields,
        "devDependencies",
        base,
        &[],
        first.as_slice(),
    )
}

fn optional_dependencies(
    alloc: Global,
    fields: &[(Text, Node)],
    base: &str,
    first: &Items<DraftDependency>,
    dev: &Items<DraftDependency>,
) -> Result<Items<DraftDependency>, ShapeFault>
    requires apart { members_apart [] (tree_members fields.now) ≡ true }
    requires first_rise { Rises (aliases_in first.now) }
    requires dev_rise { Rises (aliases_in dev.now) }
    ensures { Reads result (optional (codes "optionalDependencies") (dependencies_in base.now (aliases_in first.now ++ aliases_in dev.now)) [] (tree_members fields.now)) }
{
    let first = first.as_slice();
    let dev = dev.as_slice();
    optional_map(alloc, fields, "optionalDependencies", base, first, dev)
}

fn importer_fields(
    alloc: Global,
    base: &str,
    fields: &[(Text, Node)],
) -> Result<DraftImporter, ShapeFault>
    requires { members_apart [] (tree_members fields.now) ≡ true }
    ensures { Reads result (importer_fields base.now (tree_members fields.now)) }
{
    let first = dependencies(alloc, fields, base)?;
    let dev = dev_dependencies(alloc, fields, base, &first)?;
    let optional = optional_dependencies(alloc, fields, base, &first, &dev)?;
    Ok(DraftImporter {
        folder: Text::of(alloc, base)?,
        dependencies: first,
        dev,
        optional,
    })
}

impl Entry for DraftImporter {
    ghost use Rattle.pn_lock_shape.specs.OwnKeys.{own_importer};

    ghost form = { λ base seen folder d. importer_in folder d };

    ghost own = { λ base seen k d x. own_importer k d x };

    fn read(
        alloc: Global,
        _base: &str,
        _seen: &[DraftImporter],
        _later: &[DraftImporter],
        name: &Text,
        node: &Node,
    ) -> Result<DraftImporter, ShapeFault> {
        if !is_folder(alloc, name.as_str())? {
            return Err(ShapeFault::here(alloc));
        }
        let fields = members(alloc, node)?;
        importer_fields(alloc, name.as_str(), fields)
    }
}
