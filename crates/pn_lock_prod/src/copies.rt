// Copies of what a lock holds.
ghost use Rattle.std.specs.Prelude.{◌≡◌, IfOk};

use pn_lock::{LockCatalog, LockPackage, LockPeer, Override};
use pn_text::{Memory, PkgName};
use sqlite_items::Items;
use std::alloc::Global;

pub(crate) fn catalogs(alloc: Global, entries: &[LockCatalog]) -> Result<Items<LockCatalog>, Memory>
    ensures { IfOk result (λ es. es ≡ entries.now) }
{
    let mut all = Items::new(alloc);
    for entry in entries {
        let one = LockCatalog {
            catalog: entry.catalog.copy(alloc)?,
            name: entry.name.copy(alloc)?,
            specifier: entry.specifier.copy(alloc)?,
            version: entry.version.copy(alloc)?,
        };
        all.push(one)?;
    }
    Ok(all)
}

pub(crate) fn overrides(alloc: Global, rules: &[Override]) -> Result<Items<Override>, Memory>
    ensures { IfOk result (λ os. os ≡ rules.now) }
{
    let mut all = Items::new(alloc);
    for rule in rules {
        let one = Override {
            selector: rule.selector.copy(alloc)?,
            value: rule.value.copy(alloc)?,
        };
        all.push(one)?;
    }
    Ok(all)
}

pub(crate) fn names(alloc: Global, these: &[PkgName]) -> Result<Items<PkgName>, Memory>
    ensures { IfOk result (λ ns. ns ≡ these.now) }
{
    let mut all = Items::new(alloc);
    for name in these {
        all.push(name.copy(alloc)?)?;
    }
    Ok(all)
}

fn peers(alloc: Global, these: &[LockPeer]) -> Result<Items<LockPeer>, Memory>
    ensures { IfOk result (λ ps. ps ≡ these.now) }
{
    let mut all = Items::new(alloc);
    for peer in these {
        let one = LockPeer {
            name: peer.name.copy(alloc)?,
            range: peer.range.copy(alloc)?,
        };
        all.push(one)?;
    }
    Ok(all)
}

pub(crate) fn package_copy(alloc: Global, node: &LockPackage) -> Result<LockPackage, Memory>
    ensures { IfOk result (λ p. p ≡ node.now) }
{
    let id = node.id.copy(alloc)?;
    let peers = peers(alloc, node.peers.as_slice())?;
    let optional_peers = names(alloc, node.optional_peers.as_slice())?;
    Ok(LockPackage {
        id,
        integrity: node.integrity,
        peers,
        optional_peers,
    })
}
