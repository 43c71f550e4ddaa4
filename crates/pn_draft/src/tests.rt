// Drafts of a few paths.
ghost use Rattle.std.specs.Prelude.{◌≡◌, ◌<◌, IfOk, OnOk, length};

use crate::draft::Draft;
use crate::fault::DraftFault;
use pn_digest::Planned;
use pn_text::{AbsPath, RelPath, Text};
use std::alloc::Global;
use std::test::Fail;

// A draft of two folders, `/w/m` and `/w/m-b`.
fn drafted(alloc: Global) -> Result<(Vec<AbsPath>, Draft), Fail>
    ensures tops { IfOk result (λ r. r.1.tops ≡ r.0.items) }
    ensures two { IfOk result (λ r. length r.0.items ≡ 2) }
{
    let above = AbsPath::read(alloc, "/w")?;
    let mut all = Vec::new(alloc);
    all.push(above.child(alloc, "m")?)?;
    all.push(above.child(alloc, "m-b")?)?;
    let draft = Draft::new(alloc, &all)?;
    Ok((all, draft))
}

fn leaf(
    alloc: Global,
    draft: &mut Draft,
    folders: &[AbsPath],
    at: usize,
    tail: &str,
    what: Planned,
) -> Result<(), Fail>
    requires tops { draft.old.tops ≡ folders.now }
    requires within { at < length folders.now }
    ensures { OnOk result (draft.new.tops ≡ draft.old.tops) }
{
    let tail = RelPath::read(alloc, tail)?;
    draft.add(&folders[at], tail.as_str(), what)?;
    Ok(())
}

fn line(alloc: Global, what: &Planned) -> Result<Text, Fail> {
    let text = match what {
        Planned::Folder => Text::of(alloc, "folder")?,
        Planned::Bytes(bytes) => bytes.copy(alloc)?,
        Planned::Stored(digest) => digest.hex(alloc)?,
        Planned::Link(to) => to.copy(alloc)?,
    };
    Ok(text)
}

#[test]
fn entries_come_in_byte_order(rt: HostRuntime) -> Result<(), Fail> {
    let alloc = rt.alloc();
    let (folders, mut draft) = drafted(alloc)?;
    let link = Planned::Link(Text::of(alloc, "../x")?);
    leaf(alloc, &mut draft, &folders, 0, "a/y/z", link)?;
    let bytes = Planned::Bytes(Text::of(alloc, "c")?);
    leaf(alloc, &mut draft, &folders, 1, "x", bytes)?;
    let bytes = Planned::Bytes(Text::of(alloc, "b")?);
    leaf(alloc, &mut draft, &folders, 0, "a-b", bytes)?;
    let tree = draft.finish()?;
    let mut all = String::new(alloc);
    for (path, what) in tree.as_slice() {
        all.push_str(path.as_str())?;
        all.push_str(" ")?;
        all.push_str(line(alloc, what)?.as_str())?;
        all.push_str("\n")?;
    }
    assert_eq!(rt;
        all.as_str(),
        "/w/m folder\n/w/m-b folder\n/w/m-b/x c\n/w/m/a folder\n/w/m/a-b b\n/w/m/a/y folder\n/w/m/a/y/z ../x\n"
    );
    Ok(())
}

#[test]
fn a_long_path_is_told(rt: HostRuntime) -> Result<(), Fail> {
    let alloc = rt.alloc();
    let (folders, mut draft) = drafted(alloc)?;
    let mut tail = String::from_str(alloc, "a")?;
    for _ in 0..2045 {
        tail.push_str("/b")?;
    }
    leaf(
        alloc,
        &mut draft,
        &folders,
        0,
        tail.as_str(),
        Planned::Folder,
    )?;
    tail.push_str("c")?;
    leaf(
        alloc,
        &mut draft,
        &folders,
        0,
        tail.as_str(),
        Planned::Folder,
    )?;
    let Err(fault) = draft.finish() else {
        return Err(Fail::from("too long a path is planned"));
    };
    assert_eq!(rt; fault, DraftFault::TooLong(4097));
    Ok(())
}
