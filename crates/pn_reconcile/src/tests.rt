// One managed folder in trees in memory: `/p/node_modules`, with a link in a folder, and a file from the store.
ghost use Rattle.std.specs.Prelude.{◌≡◌, ◌∷◌, [], IfOk};
ghost use Rattle.pn_digest.specs.declared.planned.Planned.{Planned};
ghost use Rattle.pn_digest.specs.declared.planned.Planned.TheVariants as planned;
ghost use Rattle.pn_reconcile.specs.Plans.{IsRooted};

use super::*;
use pn_digest::{Digest, Planned, PlannedTree};
use pn_fs::{Body, Fs, Kind, MemFs, ReadFs, try_make};
use pn_memstore::FoundStore;
use pn_scan::scan;
use pn_storecore::{Bytes, Place, StoreDisk, StoreStep};
use pn_text::{AbsPath, Text};
use std::alloc::Global;
use std::test::Fail;

const MARKER: &str = "pnpm-rs\n";

// The store of one file, `abc`.
fn store_of_abc(alloc: Global) -> Result<FoundStore, Fail> {
    let at = Digest::of_bytes(b"abc");
    let mut steps = Vec::new(alloc);
    let all = Bytes::of(alloc, b"abc")?;
    steps.push((7, StoreStep::Claim(0)))?;
    steps.push((7, StoreStep::Create(0, 0)))?;
    steps.push((7, StoreStep::Append(0, 0, all)))?;
    steps.push((7, StoreStep::Shard(Place::Files, at.as_bytes()[0])))?;
    steps.push((7, StoreStep::PublishFile(0, 0, at)))?;
    Ok(FoundStore::new(alloc, 1, steps)?)
}

fn plan_of(alloc: Global, folder: &AbsPath, marker: &Text) -> Result<PlannedTree, Fail>
    ensures rooted { IfOk result (IsRooted ((folder.now, marker.now) ∷ [])) }
{
    let bin = folder.child(alloc, ".bin")?;
    let tool = bin.child(alloc, "tool")?;
    let path = folder.child(alloc, ".pnpm-rs")?;
    let file = folder.child(alloc, "a")?;
    let top = folder.copy(alloc)?;
    let text = marker.copy(alloc)?;
    let entries = listed(alloc, top, bin, tool, path, text, file)?;
    match PlannedTree::of(entries) {
        Some(plan) => Ok(plan),
        None => Err(Fail::from("the order")),
    }
}

// A folder, a folder in it with a link, the marker and a file.
fn listed(
    alloc: Global,
    top: AbsPath,
    bin: AbsPath,
    tool: AbsPath,
    path: AbsPath,
    marker: Text,
    file: AbsPath,
) -> Result<Vec<(AbsPath, Planned)>, Fail>
    ensures { IfOk result (λ v. (w : Planned) × (u : Planned) × (v.items ≡ (top, planned.Folder) ∷ (bin, planned.Folder) ∷ (tool, w) ∷ (path, planned.Bytes marker) ∷ (file, u) ∷ [])) }
{
    let to = Text::of(alloc, "../a")?;
    Ok(vec![in alloc;
        (top, Planned::Folder),
        (bin, Planned::Folder),
        (tool, Planned::Link(to)),
        (path, Planned::Bytes(marker)),
        (file, Planned::Stored(Digest::of_bytes(b"abc"))),
    ]?)
}

// Whether a folder is scanned and has the plan.
fn reconciles<P: Fs, D: StoreDisk>(
    alloc: Global,
    tree: &mut P,
    disk: &mut D,
    folder: &AbsPath,
    marker: &Text,
    plan: &PlannedTree,
) -> Result<bool, Fail>
    requires { IsRooted ((folder.now, marker.now) ∷ []) plan.now }
{
    let managed = one_folder(alloc, folder, marker)?;
    match scan(alloc, tree, managed.as_slice()) {
        Ok(found) => Ok(reconcile(alloc, tree, disk, plan, &found).is_ok()),
        Err(_) => Ok(false),
    }
}

fn one_folder(alloc: Global, folder: &AbsPath, marker: &Text) -> Result<Vec<(AbsPath, Text)>, Fail>
    ensures { IfOk result (λ v. v.items ≡ (folder.now, marker.now) ∷ []) }
{
    let mut managed = Vec::new(alloc);
    managed.push((folder.copy(alloc)?, marker.copy(alloc)?))?;
    Ok(managed)
}

// The calls of a scan and a reconciliation that come to an end, or 0.
fn run(alloc: Global, tree: &mut MemFs) -> Result<u64, Fail> {
    let folder = AbsPath::read(alloc, "/p/node_modules")?;
    let marker = Text::of(alloc, MARKER)?;
    let plan = plan_of(alloc, &folder, &marker)?;
    let mut disk = store_of_abc(alloc)?;
    let start = tree.calls();
    let done = reconciles(alloc, tree, &mut disk, &folder, &marker, &plan)?;
    Ok(if done {
        tree.calls().wrapping_sub(start)
    } else {
        0
    })
}

fn make(alloc: Global, tree: &mut MemFs, path: &str, body: Body) -> Result<(), Fail> {
    let path = AbsPath::read(alloc, path)?;
    try_make(tree, alloc, &path, &body)?;
    Ok(())
}

fn bytes(alloc: Global, text: &str) -> Result<Body, Fail> {
    let mut all = Vec::new(alloc);
    all.extend_from_slice(text.as_bytes())?;
    Ok(Body::File(all))
}

fn kind(alloc: Global, tree: &mut MemFs, path: &str) -> Result<Kind, Fail> {
    let path = AbsPath::read(alloc, path)?;
    Ok(tree.kind(&path)?)
}

// Whether the plan stands there, and nothing else of what a test puts there.
fn has_plan(alloc: Global, tree: &mut MemFs) -> Result<bool, Fail> {
    Ok(
        kind(alloc, tree, "/p/node_modules/.bin")? == Kind::Folder
            && kind(alloc, tree, "/p/node_modules/.bin/tool")? == Kind::Link
            && kind(alloc, tree, "/p/node_modules/.pnpm-rs")? == Kind::File(8)
            && kind(alloc, tree, "/p/node_modules/a")? == Kind::File(3)
            && kind(alloc, tree, "/p/node_modules/b")? == Kind::Absent,
    )
}

#[test]
fn an_empty_project_has_the_plan_once(rt: HostRuntime) -> Result<(), Fail> {
    let alloc = rt.alloc();
    let mut tree = MemFs::new(alloc, Vec::new(alloc));
    assert!(rt; run(alloc, &mut tree)? > 0);
    assert!(rt; has_plan(alloc, &mut tree)?);
    // 11 calls of the scan, 3 at the folder and its marker, 9 at the entries
    assert_eq!(rt; run(alloc, &mut tree)?, 23);
    assert!(rt; has_plan(alloc, &mut tree)?);
    Ok(())
}

// Entries of wrong kinds, this one in place of a folder, and one too many, beside a marker that was half written.
fn wrong(alloc: Global, bin: Body, fail: Vec<u64>) -> Result<MemFs, Fail> {
    let mut tree = MemFs::new(alloc, fail);
    make(alloc, &mut tree, "/p", Body::Folder)?;
    make(alloc, &mut tree, "/p/node_modules", Body::Folder)?;
    let half = bytes(alloc, "pnpm")?;
    make(alloc, &mut tree, "/p/node_modules/.pnpm-rs", half)?;
    make(alloc, &mut tree, "/p/node_modules/.bin", bin)?;
    make(alloc, &mut tree, "/p/node_modules/a", Body::Folder)?;
    let file = bytes(alloc, "abc")?;
    make(alloc, &mut tree, "/p/node_modules/a/x", file)?;
    make(alloc, &mut tree, "/p/node_modules/b", Body::Folder)?;
    Ok(tree)
}

fn gives_way(alloc: Global, bin: Body) -> Result<bool, Fail> {
    let mut tree = wrong(alloc, bin, Vec::new(alloc))?;
    if has_plan(alloc, &mut tree)? || run(alloc, &mut tree)? == 0 {
        return Ok(false);
    }
    has_plan(alloc, &mut tree)
}

#[test]
fn whatever_stands_there_gives_way(rt: HostRuntime) -> Result<(), Fail> {
    let alloc = rt.alloc();
    let link = Body::Link(Text::of(alloc, "/")?);
    assert!(rt; gives_way(alloc, link)?);
    let file = bytes(alloc, "abc")?;
    assert!(rt; gives_way(alloc, file)?);
    Ok(())
}

// Whether a run whose call with this number fails is refused, and the next one comes to an end.
fn goes_on(alloc: Global, call: u64) -> Result<bool, Fail> {
    let fail = vec![in alloc; call]?;
    let link = Body::Link(Text::of(alloc, "/")?);
    let mut tree = wrong(alloc, link, fail)?;
    if run(alloc, &mut tree)? > 0 || run(alloc, &mut tree)? == 0 {
        return Ok(false);
    }
    has_plan(alloc, &mut tree)
}

#[test]
fn a_stop_at_any_call_is_gone_on_from(rt: HostRuntime) -> Result<(), Fail> {
    let alloc = rt.alloc();
    let link = Body::Link(Text::of(alloc, "/")?);
    let mut tree = wrong(alloc, link, Vec::new(alloc))?;
    let made = tree.calls();
    let whole = run(alloc, &mut tree)?;
    assert!(rt; whole > 0);
    for call in 0..whole {
        assert!(rt; goes_on(alloc, made.wrapping_add(call))?, "{call}");
    }
    Ok(())
}
