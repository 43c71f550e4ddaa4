// What dependencies lead to.
ghost use Rattle.std.specs.Prelude.{◌≡◌, IfOk, IfErr, codes};
ghost use Rattle.pn_deppath.specs.Cuts.{before, has_byte};
ghost use Rattle.pn_lock_shape.specs.Answers.{Reads};
ghost use Rattle.pn_lock_shape.specs.Bare.{tree, tree_members};
ghost use Rattle.pn_lock_shape.specs.Reading.{goal_in};
ghost use Rattle.pn_lock_shape.specs.Shapes.{required};
ghost use Rattle.pn_lock_shape.specs.Targets.{aim_at, folder_at, is_whole, target_in, whole_path};

use crate::drafts::Aim;
use crate::fault::ShapeFault;
use crate::fields::{field, text};
use crate::link::folder_at;
use pn_deppath::is_dep_path;
use pn_text::{Memory, Text};
use pn_yaml::Node;
use std::alloc::Global;

/// The target of a `version`, from a folder and under an alias.
pub(crate) fn required_target(
    alloc: Global,
    members: &[(Text, Node)],
    base: &str,
    alias: &Text,
) -> Result<Aim, ShapeFault>
    ensures { Reads result (required (codes "version") (goal_in base.now alias.now) (tree_members members.now)) }
{
    let Some(node) = field(members, "version") else {
        return Err(ShapeFault::here(alloc).within(alloc, "version"));
    };
    match read_goal(alloc, base, alias, node) {
        Ok(aim) => Ok(aim),
        Err(fault) => Err(fault.within(alloc, "version")),
    }
}

/// The target that a scalar's text is, from a folder and under an alias.
pub(crate) fn read_goal(
    alloc: Global,
    base: &str,
    alias: &Text,
    node: &Node,
) -> Result<Aim, ShapeFault>
    ensures { Reads result (goal_in base.now alias.now (tree node.now)) }
{
    let text = text(alloc, node)?;
    read_target(alloc, base, alias, text)
}

fn read_target(alloc: Global, base: &str, alias: &Text, text: &Text) -> Result<Aim, ShapeFault>
    ensures { Reads result (target_in (aim_at base.now alias.now text.now)) }
{
    match text.as_str().strip_prefix("link:") {
        Some(way) => link_target(alloc, base, text, way),
        None => path_target(alloc, alias, text),
    }
}

fn link_target(alloc: Global, base: &str, text: &Text, way: &str) -> Result<Aim, ShapeFault>
    ensures ok { IfOk result (λ a. a ≡ Aim.Folder (folder_at base.now way.now) text.now) }
    ensures fault { IfErr result (λ e. e ≡ ShapeFault.Memory) }
{
    let folder = folder_at(alloc, base, way)?;
    let written = text.copy(alloc)?;
    Ok(Aim::Folder(folder, written))
}

fn path_target(alloc: Global, alias: &Text, text: &Text) -> Result<Aim, ShapeFault>
    ensures { Reads result (target_in (Aim.Path (whole_path alias.now text.now))) }
{
    let path = whole_path(alloc, alias, text)?;
    if !is_dep_path(alloc, path.as_str())? {
        return Err(ShapeFault::here(alloc));
    }
    Ok(Aim::Path(path))
}

// The dep path that a text is under an alias.
fn whole_path(alloc: Global, alias: &Text, text: &Text) -> Result<Text, Memory>
    ensures { IfOk result (λ p. p ≡ whole_path alias.now text.now) }
{
    if is_whole(text.as_str().as_bytes()) {
        return text.copy(alloc);
    }
    let mut path = String::from_str(alloc, alias.as_str())?;
    path.push_str("@")?;
    path.push_str(text.as_str())?;
    Text::of(alloc, path.as_str())
}

fn is_whole(text: &[u8]) -> bool
    ensures { result ≡ is_whole text.now }
{
    match text.split_first() {
        Some((_, rest)) => has_at(rest),
        None => false,
    }
}

// Whether `@` stands before the first `(`.
fn has_at(text: &[u8]) -> bool
    ensures { result ≡ has_byte 64 (before 40 text.now) }
{
    for b in text {
        if *b == b'(' {
            return false;
        }
        if *b == b'@' {
            return true;
        }
    }
    false
}
