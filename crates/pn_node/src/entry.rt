// The entries of a folder.
ghost use Rattle.std.specs.Prelude.{◌≡◌, ◌↔◌, [], IfOk, IfSome, IsTrue};
ghost use Rattle.pn_text.specs.Path.{is_part};
ghost use Rattle.pn_text.specs.Relative.{parent_of};
ghost use Rattle.pn_text.specs.Causes.{HasCause};
ghost use Rattle.pn_fs.specs.Tree.{folder};
ghost use Rattle.pn_fs.specs.Seen.{Keeps};
ghost use Rattle.pn_node.specs.Legs.{IsMet};

use pn_fs::{Kind, ReadFs};
use pn_text::{AbsPath, DevFault, Memory, PathFault, Text};
use std::alloc::Global;

/// What is met at an entry.
#[derive(Drop)]
pub enum Met {
    Nothing,
    Folder(AbsPath),
    File(AbsPath),
    Link(Text),
}

/// What stands at the entry with a name. Nothing stands at a path of more than 4,096 bytes.
pub fn meet<R: ReadFs>(
    alloc: Global,
    fs: &mut R,
    folder: &AbsPath,
    name: &str,
) -> Result<Met, DevFault>
    requires { IsTrue (is_part name.now) }
    ensures met { IfSome (R.seen fs.old).tree (λ t. IfOk result (IsMet t folder.now name.now)) }
    ensures kept { Keeps (R.seen fs.old) (R.seen fs.new) }
    ensures cause { HasCause (R.seen fs.old).faults (R.seen fs.new).faults result }
{
    let path = match folder.child(alloc, name) {
        Ok(path) => path,
        Err(PathFault::Memory) => return Err(DevFault::Memory),
        Err(_) => return Ok(Met::Nothing),
    };
    match fs.kind(&path)? {
        Kind::Absent => Ok(Met::Nothing),
        Kind::Folder => Ok(Met::Folder(path)),
        Kind::File(_) => Ok(Met::File(path)),
        Kind::Link => Ok(Met::Link(fs.read_link(&path)?)),
    }
}

/// Whether a folder stands at a path.
pub fn is_folder<R: ReadFs>(fs: &mut R, path: &AbsPath) -> Result<bool, DevFault>
    ensures folder { IfSome (R.seen fs.old).tree (λ t. IfOk result (λ is. IsTrue is ↔ (t path.now ≡ Some folder))) }
    ensures kept { Keeps (R.seen fs.old) (R.seen fs.new) }
    ensures cause { HasCause (R.seen fs.old).faults (R.seen fs.new).faults result }
{
    match fs.kind(path)? {
        Kind::Folder => Ok(true),
        _ => Ok(false),
    }
}

/// The folder that holds a path, and `/` for `/`.
pub fn parent(alloc: Global, path: &AbsPath) -> Result<AbsPath, Memory>
    ensures { IfOk result (λ p. p ≡ parent_of path.now) }
{
    match path.parent(alloc)? {
        Some(parent) => Ok(parent),
        None => AbsPath::root(alloc),
    }
}
