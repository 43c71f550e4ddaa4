// A whole lockfile.
ghost use Rattle.std.specs.Prelude.{◌≡◌, IfOk, codes, true, false};
ghost use Rattle.pn_yaml.specs.Data.{are_apart};
ghost use Rattle.pn_yaml.specs.View.{view};
ghost use Rattle.pn_lock_shape.specs.Answers.{Reads};
ghost use Rattle.pn_lock_shape.specs.Bare.{tree, tree_members};
ghost use Rattle.pn_lock_shape.specs.Kept.{IsDraft};
ghost use Rattle.pn_lock_shape.specs.Reading.{draft_in, false_in, settings_in};
ghost use Rattle.pn_lock_shape.specs.Shapes.{optional};

use crate::catalogs::optional_catalogs;
use crate::drafts::Draft;
use crate::entry::{optional_map, required_map};
use crate::fault::ShapeFault;
use crate::fields::{field, members, optional_truth, truth};
use pn_text::Text;
use pn_yaml::Node;
use std::alloc::Global;

/// Reads what a node says as a lockfile, before its targets are looked up; or tells where the first entry of another form is.
pub fn read(alloc: Global, node: &Node) -> Result<Draft, ShapeFault>
    requires { are_apart (view node.now) ≡ true }
    ensures read { Reads result (draft_in (tree node.now)) }
    ensures kept { IfOk result IsDraft }
{
    read_draft(alloc, node)
}

#[tactic(auto, using(crate::proofs::PlaceLemmas::rises_none))]
fn read_draft(alloc: Global, node: &Node) -> Result<Draft, ShapeFault>
    requires { are_apart (tree node.now) ≡ true }
    ensures { Reads result (draft_in (tree node.now)) }
{
    let fields = members(alloc, node)?;
    let auto = optional_settings(alloc, fields)?;
    let catalogs = optional_catalogs(alloc, fields)?;
    let overrides = optional_map(alloc, fields, "overrides", "", &[], &[])?;
    let importers = required_map(alloc, fields, "importers")?;
    let packages = optional_map(alloc, fields, "packages", "", &[], &[])?;
    let snapshots = optional_map(alloc, fields, "snapshots", "", &[], &[])?;
    Ok(Draft {
        auto,
        catalogs,
        overrides,
        importers,
        packages,
        snapshots,
    })
}

fn optional_settings(alloc: Global, fields: &[(Text, Node)]) -> Result<bool, ShapeFault>
    ensures { Reads result (optional (codes "settings") settings_in true (tree_members fields.now)) }
{
    let Some(node) = field(fields, "settings") else {
        return Ok(true);
    };
    match read_settings(alloc, node) {
        Ok(auto) => Ok(auto),
        Err(fault) => Err(fault.within(alloc, "settings")),
    }
}

// Whether peers that are in no manifest are installed.
fn read_settings(alloc: Global, node: &Node) -> Result<bool, ShapeFault>
    ensures { Reads result (settings_in (tree node.now)) }
{
    let fields = members(alloc, node)?;
    let auto = optional_truth(alloc, fields, "autoInstallPeers", true)?;
    optional_false(alloc, fields, "excludeLinksFromLockfile")?;
    Ok(auto)
}

// A key that may have the value `false` alone.
fn optional_false(alloc: Global, fields: &[(Text, Node)], key: &str) -> Result<bool, ShapeFault>
    ensures { Reads result (optional key.now false_in false (tree_members fields.now)) }
{
    let Some(node) = field(fields, key) else {
        return Ok(false);
    };
    match read_false(alloc, node) {
        Ok(value) => Ok(value),
        Err(fault) => Err(fault.within(alloc, key)),
    }
}

fn read_false(alloc: Global, node: &Node) -> Result<bool, ShapeFault>
    ensures { Reads result (false_in (tree node.now)) }
{
    if truth(alloc, node)? {
        return Err(ShapeFault::here(alloc));
    }
    Ok(false)
}
