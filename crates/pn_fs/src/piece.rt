// A piece of a file in memory.
ghost use Rattle.std.specs.Prelude.{◌≡◌, ◌≤◌, ◌<◌, Some, IfOk, IfErr, length, take, min};
ghost use Rattle.pn_fs.specs.Tree.{IsFile, file};
ghost use Rattle.pn_fs.specs.Nodes.{rooted};
ghost use Rattle.pn_fs.specs.Pieces.{IsPiece};

use crate::body::Body;
use crate::nodes::body_at;
use pn_text::{AbsPath, copy_piece};
use std::collections::BTreeMap;

/// Copies a piece of the file at a path.
pub fn piece_at(nodes: &BTreeMap<String, Body>, path: &AbsPath, at: u64, into: &mut [u8]) -> usize
    requires some { 0 < length into.old }
    requires file { IsFile (rooted nodes.now) path.now }
    ensures within { result ≤ length into.old }
    ensures piece { IsPiece (rooted nodes.now path.now) at into.new result }
{
    match body_at(nodes, path) {
        Some(Body::File(bytes)) => copy_piece(bytes, at, into),
        _ => unreachable!(),
    }
}
