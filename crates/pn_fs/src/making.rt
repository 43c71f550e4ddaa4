// Entries that are made where nothing stands.
ghost use Rattle.std.specs.Prelude.{◌≡◌, ◌↔◌, OnOk, OnErr, IfOk, IfSome, IsTrue};
ghost use Rattle.std.specs.Option.{ForSome};
ghost use Rattle.pn_text.specs.Path.{same_path};
ghost use Rattle.pn_text.specs.Causes.{HasCause};
ghost use Rattle.pn_fs.specs.Tree.{IsFree};
ghost use Rattle.pn_fs.specs.Seen.{Keeps};
ghost use Rattle.pn_fs.specs.Calls.{told_put};
ghost use Rattle.pn_fs.specs.Bodies.{entry_of};
ghost use Rattle.pn_fs.specs.Made.{IsMade, DiffersOnly};

use crate::body::Body;
use crate::fs::{Fs, ReadFs};
use crate::kind::Kind;
use pn_text::{AbsPath, DevFault};
use std::alloc::Global;

/// Makes an entry where nothing stands and the parent is a folder, and answers whether it did. It
/// asks the file system first, so that a caller need know nothing of the tree.
pub fn try_make<P: Fs>(
    fs: &mut P,
    alloc: Global,
    path: &AbsPath,
    body: &Body,
) -> Result<bool, DevFault>
    ensures made { IfSome (P.seen fs.old).tree (λ t. IfOk result (IsMade t path.now (entry_of body.now) (P.seen fs.new).tree)) }
    ensures err { OnErr result (DiffersOnly (same_path path.now) (P.seen fs.old).tree (P.seen fs.new).tree) }
    ensures cause { HasCause (P.seen fs.old).faults (P.seen fs.new).faults result }
{
    if !is_free(fs, alloc, path)? {
        return Ok(false);
    }
    make(fs, path, body)?;
    Ok(true)
}

/// Whether nothing stands at a path, and the parent is a folder.
pub fn is_free<P: ReadFs>(fs: &mut P, alloc: Global, path: &AbsPath) -> Result<bool, DevFault>
    ensures free { IfSome (P.seen fs.old).tree (λ t. IfOk result (λ free. IsTrue free ↔ IsFree t path.now)) }
    ensures kept { Keeps (P.seen fs.old) (P.seen fs.new) }
    ensures cause { HasCause (P.seen fs.old).faults (P.seen fs.new).faults result }
{
    let Some(parent) = path.parent(alloc)? else {
        return Ok(false);
    };
    if fs.kind(&parent)? != Kind::Folder {
        return Ok(false);
    }
    Ok(fs.kind(path)? == Kind::Absent)
}

/// Makes an entry where nothing stands, in a folder. After a refusal the tree differs at that path
/// alone.
pub fn make<P: Fs>(fs: &mut P, path: &AbsPath, body: &Body) -> Result<(), DevFault>
    requires { ForSome (P.seen fs.old).tree (λ t. IsFree t path.now) }
    ensures ok { OnOk result ((P.seen fs.new).tree ≡ told_put (P.seen fs.old).tree path.now (entry_of body.now)) }
    ensures err { OnErr result (DiffersOnly (same_path path.now) (P.seen fs.old).tree (P.seen fs.new).tree) }
    ensures cause { HasCause (P.seen fs.old).faults (P.seen fs.new).faults result }
{
    match body {
        Body::Folder => fs.make_folder(path),
        Body::Link(text) => fs.link(path, text),
        Body::File(bytes) => {
            fs.create(path)?;
            fs.append(path, bytes)
        }
    }
}
