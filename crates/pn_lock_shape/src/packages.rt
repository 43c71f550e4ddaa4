// The packages of a lockfile.
ghost use Rattle.std.specs.Prelude.{◌≡◌, IfOk, codes};
ghost use Rattle.pn_text.specs.Ids.{is_id};
ghost use Rattle.pn_lock_shape.specs.Answers.{Reads};
ghost use Rattle.pn_lock_shape.specs.Bare.{tree, tree_members};
ghost use Rattle.pn_lock_shape.specs.Reading.{digest_of, integrity_in, meta_in, optional_names, package_in, peer_in, resolution_in};
ghost use Rattle.pn_lock_shape.specs.Shapes.{required, when};

use crate::entry::{Entry, optional_map};
use crate::fault::ShapeFault;
use crate::fields::{field, members, optional_truth, text};
use crate::names::read_name;
use pn_digest::Integrity;
use pn_lock::{LockPackage, LockPeer};
use pn_text::{Memory, PkgId, PkgName, Text};
use pn_yaml::Node;
use sqlite_items::Items;
use std::alloc::Global;

/// A name, and whether the peer that it names is optional.
#[derive(Drop)]
pub struct PeerMeta {
    pub name: PkgName,
    pub optional: bool,
}

impl Entry for LockPeer {
    ghost use Rattle.pn_lock_shape.specs.OwnKeys.{own_peer};

    ghost form = { λ base seen name d. peer_in name d };

    ghost own = { λ base seen k d x. own_peer k d x };

    fn read(
        alloc: Global,
        _base: &str,
        _seen: &[LockPeer],
        _later: &[LockPeer],
        name: &Text,
        node: &Node,
    ) -> Result<LockPeer, ShapeFault> {
        let name = read_name(alloc, name.as_str())?;
        let range = text(alloc, node)?;
        Ok(LockPeer {
            name,
            range: range.copy(alloc)?,
        })
    }
}

impl Entry for PeerMeta {
    ghost use Rattle.pn_lock_shape.specs.OwnKeys.{own_meta};

    ghost form = { λ base seen name d. meta_in name d };

    ghost own = { λ base seen k d x. own_meta k d x };

    fn read(
        alloc: Global,
        _base: &str,
        _seen: &[PeerMeta],
        _later: &[PeerMeta],
        name: &Text,
        node: &Node,
    ) -> Result<PeerMeta, ShapeFault> {
        let name = read_name(alloc, name.as_str())?;
        let fields = members(alloc, node)?;
        let optional = optional_truth(alloc, fields, "optional", false)?;
        Ok(PeerMeta { name, optional })
    }
}

impl Entry for LockPackage {
    ghost use Rattle.pn_lock_shape.specs.OwnKeys.{own_package};

    ghost form = { λ base seen id d. package_in id d };

    ghost own = { λ base seen k d x. own_package k d x };

    #[tactic(auto, using(crate::proofs::PlaceLemmas::rises_none))]
    fn read(
        alloc: Global,
        _base: &str,
        _seen: &[LockPackage],
        _later: &[LockPackage],
        name: &Text,
        node: &Node,
    ) -> Result<LockPackage, ShapeFault> {
        let id = read_id(alloc, name.as_str())?;
        let fields = members(alloc, node)?;
        let integrity = required_resolution(alloc, fields)?;
        let peers = optional_map(alloc, fields, "peerDependencies", "", &[], &[])?;
        let metas: Items<PeerMeta> = optional_map(
            alloc,
            fields,
            "peerDependenciesMeta",
            "",
            &[],
            &[],
        )?;
        let optional_peers = optional_names(alloc, metas.as_slice())?;
        Ok(LockPackage {
            id,
            integrity,
            peers,
            optional_peers,
        })
    }
}

fn read_id(alloc: Global, id: &str) -> Result<PkgId, ShapeFault>
    ensures { Reads result (when (is_id id.now) id.now) }
{
    match PkgId::read(alloc, id)? {
        Some(id) => Ok(id),
        None => Err(ShapeFault::here(alloc)),
    }
}

fn optional_names(alloc: Global, metas: &[PeerMeta]) -> Result<Items<PkgName>, Memory>
    ensures { IfOk result (λ names. names ≡ optional_names metas.now) }
{
    let mut names = Items::new(alloc);
    for meta in metas {
        if meta.optional {
            names.push(meta.name.copy(alloc)?)?;
        }
    }
    Ok(names)
}

fn required_resolution(alloc: Global, fields: &[(Text, Node)]) -> Result<Integrity, ShapeFault>
    ensures { Reads result (required (codes "resolution") resolution_in (tree_members fields.now)) }
{
    let Some(node) = field(fields, "resolution") else {
        return Err(ShapeFault::here(alloc).within(alloc, "resolution"));
    };
    match read_resolution(alloc, node) {
        Ok(integrity) => Ok(integrity),
        Err(fault) => Err(fault.within(alloc, "resolution")),
    }
}

fn read_resolution(alloc: Global, node: &Node) -> Result<Integrity, ShapeFault>
    ensures { Reads result (resolution_in (tree node.now)) }
{
    let fields = members(alloc, node)?;
    let Some(node) = field(fields, "integrity") else {
        return Err(ShapeFault::here(alloc).within(alloc, "integrity"));
    };
    match read_integrity(alloc, node) {
        Ok(integrity) => Ok(integrity),
        Err(fault) => Err(fault.within(alloc, "integrity")),
    }
}

fn read_integrity(alloc: Global, node: &Node) -> Result<Integrity, ShapeFault>
    ensures { Reads result (integrity_in (tree node.now)) }
{
    let text = text(alloc, node)?;
    match digest_of(text.as_str()) {
        Some(integrity) => Ok(integrity),
        None => Err(ShapeFault::here(alloc)),
    }
}

fn digest_of(text: &str) -> Option<Integrity>
    ensures { result ≡ digest_of text.now }
{
    Integrity::read(text)
}
