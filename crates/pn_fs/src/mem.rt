// A file system in memory whose calls fail at given numbers.
ghost use Rattle.std.specs.Prelude.{◌≡◌};
ghost use Rattle.pn_fs.specs.Seen.{Seen};
ghost use Rattle.pn_fs.specs.Fresh.{fresh};
ghost use Rattle.pn_fs.specs.Nodes.{rooted};
ghost use Rattle.pn_text.specs.Causes.{is_listed};
ghost use Rattle.pn_fs.specs.Told.{told_tree, told_finite};

use crate::fs::{Fs, ReadFs};
use crate::kind::Kind;
use crate::sure::SureFs;
use pn_text::{AbsPath, DevFault, Text, Turns};
use std::alloc::Global;

/// A file system in memory. The calls with given numbers fail.
#[derive(Drop)]
pub struct MemFs {
    files: SureFs,
    turns: Turns,
}

impl MemFs {
    ghost use Rattle.pn_fs.specs.Scripts.{fs_script};

    /// `/` alone. The calls with these numbers fail; the first one is 0.
    pub fn new(alloc: Global, fail: Vec<u64>) -> MemFs
        ensures seen { ⟦<MemFs as ReadFs>⟧.seen result ≡ fresh }
        ensures script { fs_script result ≡ record { fails = is_listed fail.items; next = 0; faults = 0 } }
    {
        let files = SureFs::new(alloc);
        let turns = Turns::new(fail);
        MemFs { files, turns }
    }

    /// The number of the next call.
    pub fn calls(&self) -> u64
        ensures { result ≡ (fs_script self.now).next }
    {
        self.turns.calls
    }
}

impl ReadFs for MemFs {
    ghost use Rattle.std.specs.Prelude.{◌≤◌, ◌<◌, Some, OnErr, IfOk, IfSome, length};
    ghost use Rattle.std.specs.Option.{ForSome};
    ghost use Rattle.std.specs.List.{All};
    ghost use Rattle.pn_text.specs.Causes.{HasCause};
    ghost use Rattle.pn_fs.specs.Tree.{IsFile, IsLink, folder, link};
    ghost use Rattle.pn_fs.specs.Seen.{Keeps, GaveNothing, GaveBytes, GaveNames};
    ghost use Rattle.pn_fs.specs.Pieces.{IsPiece};
    ghost use Rattle.pn_fs.specs.Calls.{kind_of, IsListing, IsEntryName};
    ghost use Rattle.pn_fs.specs.Scripts.{mem_seen, fs_script, Goes};

    ghost seen = { mem_seen };

    ghost well_formed = { λ s t told. told_tree (rooted s.files.nodes) t s.files.tree told };

    ghost finite = { λ s t told. told_finite s.files.nodes t told };

    fn kind(&mut self, path: &AbsPath) -> Result<Kind, DevFault>
        ensures kind { IfSome (mem_seen self.old).tree (λ t. IfOk result (λ k. k ≡ kind_of (t path.now))) }
        ensures kept { Keeps (mem_seen self.old) (mem_seen self.new) }
        ensures gave { IfSome (mem_seen self.old).tree (λ t. GaveNothing (mem_seen self.old) (mem_seen self.new)) }
        ensures cause { HasCause (mem_seen self.old).faults (mem_seen self.new).faults result }
        ensures script { Goes (fs_script self.old) (fs_script self.new) result }
    {
        self.turns.take()?;
        self.files.kind(path)
    }

    fn list(&mut self, path: &AbsPath) -> Result<Vec<Text>, DevFault>
        requires { ForSome (mem_seen self.old).tree (λ t. t path.now ≡ Some folder) }
        ensures names { IfSome (mem_seen self.old).tree (λ t. IfOk result (λ names. IsListing t path.now names.items)) }
        ensures good { IfOk result (λ names. All (IsEntryName path.now) names.items) }
        ensures kept { Keeps (mem_seen self.old) (mem_seen self.new) }
        ensures gave { IfSome (mem_seen self.old).tree (λ t. IfOk result (λ names. GaveNames (mem_seen self.old) (length names.items) (mem_seen self.new))) }
        ensures gave_none { IfSome (mem_seen self.old).tree (λ t. OnErr result (GaveNothing (mem_seen self.old) (mem_seen self.new))) }
        ensures cause { HasCause (mem_seen self.old).faults (mem_seen self.new).faults result }
        ensures script { Goes (fs_script self.old) (fs_script self.new) result }
    {
        self.turns.take()?;
        self.files.list(path)
    }

    fn read_piece(&mut self, path: &AbsPath, at: u64, into: &mut [u8]) -> Result<usize, DevFault>
        requires some { 0 < length into.old }
        requires file { ForSome (mem_seen self.old).tree (λ t. IsFile t path.now) }
        ensures within { IfOk result (λ n. n ≤ length into.old) }
        ensures piece { IfSome (mem_seen self.old).tree (λ t. IfOk result (IsPiece (t path.now) at into.new)) }
        ensures kept { Keeps (mem_seen self.old) (mem_seen self.new) }
        ensures gave { IfSome (mem_seen self.old).tree (λ t. IfOk result (λ n. GaveBytes (mem_seen self.old) n (mem_seen self.new))) }
        ensures gave_none { IfSome (mem_seen self.old).tree (λ t. OnErr result (GaveNothing (mem_seen self.old) (mem_seen self.new))) }
        ensures cause { HasCause (mem_seen self.old).faults (mem_seen self.new).faults result }
        ensures script { Goes (fs_script self.old) (fs_script self.new) result }
    {
        self.turns.take()?;
        self.files.read_piece(path, at, into)
    }

    fn read_link(&mut self, path: &AbsPath) -> Result<Text, DevFault>
        requires { ForSome (mem_seen self.old).tree (λ t. IsLink t path.now) }
        ensures text { IfSome (mem_seen self.old).tree (λ t. IfOk result (λ text. t path.now ≡ Some (link text))) }
        ensures kept { Keeps (mem_seen self.old) (mem_seen self.new) }
        ensures gave { IfSome (mem_seen self.old).tree (λ t. GaveNothing (mem_seen self.old) (mem_seen self.new)) }
        ensures cause { HasCause (mem_seen self.old).faults (mem_seen self.new).faults result }
        ensures script { Goes (fs_script self.old) (fs_script self.new) result }
    {
        self.turns.take()?;
        self.files.read_link(path)
    }
}

impl Fs for MemFs {
    ghost use Rattle.std.specs.Prelude.{[], ◌∷◌, IfSome};
    ghost use Rattle.std.specs.Option.{ForSome};
    ghost use Rattle.pn_text.specs.Causes.{HasCause};
    ghost use Rattle.pn_fs.specs.Tree.{IsFile, IsFree, CanCreate, CanRename, CanRemove, folder, file, link};
    ghost use Rattle.pn_fs.specs.Seen.{GaveNothing};
    ghost use Rattle.pn_fs.specs.Calls.{told_put, told_gone, told_moved, Makes, Grows, Touches};
    ghost use Rattle.pn_fs.specs.Scripts.{mem_seen, fs_script, Goes};

    fn make_folder(&mut self, path: &AbsPath) -> Result<(), DevFault>
        requires { ForSome (mem_seen self.old).tree (λ t. IsFree t path.now) }
        ensures made { Makes (mem_seen self.old).tree (told_put (mem_seen self.old).tree path.now folder) (mem_seen self.new).tree result }
        ensures touched { Touches (mem_seen self.old) (mem_seen self.new) (path.now ∷ []) result }
        ensures gave { IfSome (mem_seen self.old).tree (λ t. GaveNothing (mem_seen self.old) (mem_seen self.new)) }
        ensures cause { HasCause (mem_seen self.old).faults (mem_seen self.new).faults result }
        ensures script { Goes (fs_script self.old) (fs_script self.new) result }
    {
        self.turns.take()?;
        self.files.make_folder(path)
    }

    fn create(&mut self, path: &AbsPath) -> Result<(), DevFault>
        requires { ForSome (mem_seen self.old).tree (λ t. CanCreate t path.now) }
        ensures made { Makes (mem_seen self.old).tree (told_put (mem_seen self.old).tree path.now (file [])) (mem_seen self.new).tree result }
        ensures touched { Touches (mem_seen self.old) (mem_seen self.new) (path.now ∷ []) result }
        ensures gave { IfSome (mem_seen self.old).tree (λ t. GaveNothing (mem_seen self.old) (mem_seen self.new)) }
        ensures cause { HasCause (mem_seen self.old).faults (mem_seen self.new).faults result }
        ensures script { Goes (fs_script self.old) (fs_script self.new) result }
    {
        self.turns.take()?;
        self.files.create(path)
    }

    fn append(&mut self, path: &AbsPath, bytes: &[u8]) -> Result<(), DevFault>
        requires { ForSome (mem_seen self.old).tree (λ t. IsFile t path.now) }
        ensures grown { Grows (mem_seen self.old).tree path.now bytes.now (mem_seen self.new).tree result }
        ensures touched { Touches (mem_seen self.old) (mem_seen self.new) (path.now ∷ []) result }
        ensures gave { IfSome (mem_seen self.old).tree (λ t. GaveNothing (mem_seen self.old) (mem_seen self.new)) }
        ensures cause { HasCause (mem_seen self.old).faults (mem_seen self.new).faults result }
        ensures script { Goes (fs_script self.old) (fs_script self.new) result }
    {
        self.turns.take()?;
        self.files.append(path, bytes)
    }

    fn link(&mut self, path: &AbsPath, text: &Text) -> Result<(), DevFault>
        requires { ForSome (mem_seen self.old).tree (λ t. IsFree t path.now) }
        ensures made { Makes (mem_seen self.old).tree (told_put (mem_seen self.old).tree path.now (link text.now)) (mem_seen self.new).tree result }
        ensures touched { Touches (mem_seen self.old) (mem_seen self.new) (path.now ∷ []) result }
        ensures gave { IfSome (mem_seen self.old).tree (λ t. GaveNothing (mem_seen self.old) (mem_seen self.new)) }
        ensures cause { HasCause (mem_seen self.old).faults (mem_seen self.new).faults result }
        ensures script { Goes (fs_script self.old) (fs_script self.new) result }
    {
        self.turns.take()?;
        self.files.link(path, text)
    }

    fn rename(&mut self, from: &AbsPath, to: &AbsPath) -> Result<(), DevFault>
        requires { ForSome (mem_seen self.old).tree (λ t. CanRename t from.now to.now) }
        ensures made { Makes (mem_seen self.old).tree (told_moved (mem_seen self.old).tree from.now to.now) (mem_seen self.new).tree result }
        ensures touched { Touches (mem_seen self.old) (mem_seen self.new) (from.now ∷ to.now ∷ []) result }
        ensures gave { IfSome (mem_seen self.old).tree (λ t. GaveNothing (mem_seen self.old) (mem_seen self.new)) }
        ensures cause { HasCause (mem_seen self.old).faults (mem_seen self.new).faults result }
        ensures script { Goes (fs_script self.old) (fs_script self.new) result }
    {
        self.turns.take()?;
        self.files.rename(from, to)
    }

    fn remove(&mut self, path: &AbsPath) -> Result<(), DevFault>
        requires { ForSome (mem_seen self.old).tree (λ t. CanRemove t path.now) }
        ensures made { Makes (mem_seen self.old).tree (told_gone (mem_seen self.old).tree path.now) (mem_seen self.new).tree result }
        ensures touched { Touches (mem_seen self.old) (mem_seen self.new) (path.now ∷ []) result }
        ensures gave { IfSome (mem_seen self.old).tree (λ t. GaveNothing (mem_seen self.old) (mem_seen self.new)) }
        ensures cause { HasCause (mem_seen self.old).faults (mem_seen self.new).faults result }
        ensures script { Goes (fs_script self.old) (fs_script self.new) result }
    {
        self.turns.take()?;
        self.files.remove(path)
    }
}
