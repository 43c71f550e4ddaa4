// A whole lockfile.
ghost use Rattle.std.specs.Prelude.{◌≡◌, IfOk, Some, codes, true};
ghost use Rattle.pn_yaml.specs.Data.{are_apart};
ghost use Rattle.pn_yaml.specs.View.{view};
ghost use Rattle.pn_lock.specs.Kept.{IsLock};
ghost use Rattle.pn_lock_shape.specs.Bare.{tree, tree_members};
ghost use Rattle.pn_lock_shape.specs.Kept.{IsDraft};
ghost use Rattle.pn_lock_shape.specs.Shapes.{get};
ghost use Rattle.pn_lock_read.specs.Answers.{IsFault, Settles};
ghost use Rattle.pn_lock_read.specs.LockTexts.{keys_text, lock_of, shape_fault, version_in, version_of};
ghost use Rattle.pn_lock_read.specs.Settling.{settled};

use crate::fault::LockFault;
use crate::settle::{importers, snapshots};
use pn_lock::Lock;
use pn_lock_shape::{Draft, ShapeFault};
use pn_text::{Memory, Text};
use pn_yaml::Node;
use sqlite_items::Items;
use std::alloc::Global;

/// Reads what a node says as a lockfile. Its version is looked at first, then all its forms, then all its targets; keys that
/// the form doesn't have are passed over.
pub fn read(alloc: Global, node: &Node) -> Result<Lock, LockFault>
    requires { are_apart (view node.now) ≡ true }
    ensures lock { Settles result (lock_of (view node.now)) }
    ensures kept { IfOk result IsLock }
{
    let version = version_of(node);
    if version != "9.0" {
        return Err(LockFault::Version(Text::of(alloc, version)?));
    }
    match pn_lock_shape::read(alloc, node) {
        Ok(draft) => settle(alloc, draft),
        Err(fault) => Err(shape_fault(alloc, fault)),
    }
}

// The text of `lockfileVersion`, or no text where there is none.
fn version_of(node: &Node) -> &str
    ensures { result.now ≡ version_of (tree node.now) }
{
    match node {
        Node::Map(members) => version_in(members.as_slice()),
        Node::List(_) => "",
        Node::Scalar(_) => "",
    }
}

fn version_in(members: &[(Text, Node)]) -> &str
    ensures { result.now ≡ version_in (get (codes "lockfileVersion") (tree_members members.now)) }
{
    for (name, node) in members {
        if name.as_str() == "lockfileVersion" {
            return scalar_text(node);
        }
    }
    ""
}

fn scalar_text(node: &Node) -> &str
    ensures { result.now ≡ version_in (Some (tree node.now)) }
{
    match node {
        Node::Scalar(scalar) => scalar.text.as_str(),
        Node::List(_) => "",
        Node::Map(_) => "",
    }
}

fn shape_fault(alloc: Global, fault: ShapeFault) -> LockFault
    ensures { IsFault (shape_fault fault) result }
{
    let ShapeFault::At(keys) = fault else {
        return LockFault::Memory;
    };
    match keys_text(alloc, keys) {
        Ok(text) => LockFault::Shape(text),
        Err(_) => LockFault::Memory,
    }
}

// Keys from the top, joined by `>`.
fn keys_text(alloc: Global, keys: Items<Text>) -> Result<Text, Memory>
    ensures { IfOk result (λ t. t ≡ keys_text keys) }
{
    let mut left = keys;
    let Some(first) = left.pop() else {
        return Text::of(alloc, "");
    };
    let mut text = String::from_str(alloc, first.as_str())?;
    'keys: loop {
        let Some(key) = left.pop() else {
            return Text::of(alloc, text.as_str());
        };
        text.push_str(">")?;
        text.push_str(key.as_str())?;
    }
}

// The lock of a draft.
fn settle(alloc: Global, draft: Draft) -> Result<Lock, LockFault>
    requires { IsDraft draft }
    ensures lock { Settles result (settled draft) }
    ensures kept { IfOk result IsLock }
{
    // targets are numbered by a u32: there is no memory for more
    if draft.importers.len() > u32::MAX as usize {
        return Err(LockFault::Memory);
    }
    if draft.snapshots.len() > u32::MAX as usize {
        return Err(LockFault::Memory);
    }
    let importers = importers(
        alloc,
        draft.importers.as_slice(),
        draft.snapshots.as_slice(),
    )?;
    let snapshots = snapshots(
        alloc,
        draft.importers.as_slice(),
        draft.packages.as_slice(),
        draft.snapshots.as_slice(),
    )?;
    let Draft {
        auto,
        catalogs,
        overrides,
        packages,
        ..
    } = draft;
    Ok(Lock::of(auto, catalogs, overrides, importers, packages, snapshots))
}
