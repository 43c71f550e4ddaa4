// A file system, by the tree that it shows.
ghost use Rattle.std.specs.Prelude.{◌≡◌, ◌≤◌, ◌<◌, List, [], ◌∷◌, Some, OnOk, OnErr, IfOk, IfSome, length};
ghost use Rattle.std.specs.Option.{ForSome};
ghost use Rattle.std.specs.List.{All};
ghost use Rattle.pn_text.specs.Causes.{HasCause};
ghost use Rattle.pn_fs.specs.Tree.{Tree, IsTree, IsFinite, IsFile, IsLink, IsFree, CanCreate, CanRename, CanRemove, folder, file, link};
ghost use Rattle.pn_fs.specs.Seen.{Seen, Keeps, GaveNothing, GaveBytes, GaveNames};
ghost use Rattle.pn_fs.specs.Pieces.{IsPiece};
ghost use Rattle.pn_fs.specs.Calls.{kind_of, IsListing, IsEntryName, told_put, told_gone, told_moved, Makes, Grows, Touches};

use crate::kind::Kind;
use pn_text::{AbsPath, DevFault, Text};

/// A tree of folders, files and links that can be read. Where the tree is told, the answers are
/// exact. A call answers `Failed` only where the count of faults rose in it.
pub trait ReadFs {
    /// The tree where it is told, the paths that were written, and the counts of faults, and of the bytes and names that
    /// were given.
    ghost seen: { Self → Seen };

    /// What stands at a path. It follows no link.
    fn kind(&mut self, path: &AbsPath) -> Result<Kind, DevFault>
        ensures kind { IfSome (seen self.old).tree (λ t. IfOk result (λ k. k ≡ kind_of (t path.now))) }
        ensures kept { Keeps (seen self.old) (seen self.new) }
        ensures gave { IfSome (seen self.old).tree (λ t. GaveNothing (seen self.old) (seen self.new)) }
        ensures cause { HasCause (seen self.old).faults (seen self.new).faults result };

    /// The names of a folder's entries, in byte order.
    fn list(&mut self, path: &AbsPath) -> Result<Vec<Text>, DevFault>
        requires { ForSome (seen self.old).tree (λ t. t path.now ≡ Some folder) }
        ensures names { IfSome (seen self.old).tree (λ t. IfOk result (λ names. IsListing t path.now names.items)) }
        ensures good { IfOk result (λ names. All (IsEntryName path.now) names.items) }
        ensures kept { Keeps (seen self.old) (seen self.new) }
        ensures gave { IfSome (seen self.old).tree (λ t. IfOk result (λ names. GaveNames (seen self.old) (length names.items) (seen self.new))) }
        ensures gave_none { IfSome (seen self.old).tree (λ t. OnErr result (GaveNothing (seen self.old) (seen self.new))) }
        ensures cause { HasCause (seen self.old).faults (seen self.new).faults result };

    /// Bytes of a file from a place on: at most as many as there is room for, and none exactly at or
    /// past the file's end.
    fn read_piece(&mut self, path: &AbsPath, at: u64, into: &mut [u8]) -> Result<usize, DevFault>
        requires some { 0 < length into.old }
        requires file { ForSome (seen self.old).tree (λ t. IsFile t path.now) }
        ensures within { IfOk result (λ n. n ≤ length into.old) }
        ensures piece { IfSome (seen self.old).tree (λ t. IfOk result (IsPiece (t path.now) at into.new)) }
        ensures kept { Keeps (seen self.old) (seen self.new) }
        ensures gave { IfSome (seen self.old).tree (λ t. IfOk result (λ n. GaveBytes (seen self.old) n (seen self.new))) }
        ensures gave_none { IfSome (seen self.old).tree (λ t. OnErr result (GaveNothing (seen self.old) (seen self.new))) }
        ensures cause { HasCause (seen self.old).faults (seen self.new).faults result };

    /// The text of a link.
    fn read_link(&mut self, path: &AbsPath) -> Result<Text, DevFault>
        requires { ForSome (seen self.old).tree (λ t. IsLink t path.now) }
        ensures text { IfSome (seen self.old).tree (λ t. IfOk result (λ text. t path.now ≡ Some (link text))) }
        ensures kept { Keeps (seen self.old) (seen self.new) }
        ensures gave { IfSome (seen self.old).tree (λ t. GaveNothing (seen self.old) (seen self.new)) }
        ensures cause { HasCause (seen self.old).faults (seen self.new).faults result };

    /// What is told is a tree.
    ghost well_formed: { (fs : Self) (t : Tree) → (seen fs).tree ≡ Some t → IsTree t };

    /// A tree that is told has finitely many entries.
    ghost finite: { (fs : Self) (t : Tree) → (seen fs).tree ≡ Some t → IsFinite t };
}

/// A tree that can be written too. After a refusal the tree is as before or as after `Ok`. What a
/// call asks of the tree is asked only where the tree is told.
pub trait Fs: ReadFs {
    /// Makes a folder where nothing stands, in a folder.
    fn make_folder(&mut self, path: &AbsPath) -> Result<(), DevFault>
        requires { ForSome (Self.seen self.old).tree (λ t. IsFree t path.now) }
        ensures made { Makes (Self.seen self.old).tree (told_put (Self.seen self.old).tree path.now folder) (Self.seen self.new).tree result }
        ensures touched { Touches (Self.seen self.old) (Self.seen self.new) (path.now ∷ []) result }
        ensures gave { IfSome (Self.seen self.old).tree (λ t. GaveNothing (Self.seen self.old) (Self.seen self.new)) }
        ensures cause { HasCause (Self.seen self.old).faults (Self.seen self.new).faults result };

    /// Leaves an empty file where nothing or a file stands, in a folder.
    fn create(&mut self, path: &AbsPath) -> Result<(), DevFault>
        requires { ForSome (Self.seen self.old).tree (λ t. CanCreate t path.now) }
        ensures made { Makes (Self.seen self.old).tree (told_put (Self.seen self.old).tree path.now (file [])) (Self.seen self.new).tree result }
        ensures touched { Touches (Self.seen self.old) (Self.seen self.new) (path.now ∷ []) result }
        ensures gave { IfSome (Self.seen self.old).tree (λ t. GaveNothing (Self.seen self.old) (Self.seen self.new)) }
        ensures cause { HasCause (Self.seen self.old).faults (Self.seen self.new).faults result };

    /// Adds bytes to a file. After a refusal a prefix of them may have been added.
    fn append(&mut self, path: &AbsPath, bytes: &[u8]) -> Result<(), DevFault>
        requires { ForSome (Self.seen self.old).tree (λ t. IsFile t path.now) }
        ensures grown { Grows (Self.seen self.old).tree path.now bytes.now (Self.seen self.new).tree result }
        ensures touched { Touches (Self.seen self.old) (Self.seen self.new) (path.now ∷ []) result }
        ensures gave { IfSome (Self.seen self.old).tree (λ t. GaveNothing (Self.seen self.old) (Self.seen self.new)) }
        ensures cause { HasCause (Self.seen self.old).faults (Self.seen self.new).faults result };

    /// Makes a link with a text where nothing stands, in a folder.
    fn link(&mut self, path: &AbsPath, text: &Text) -> Result<(), DevFault>
        requires { ForSome (Self.seen self.old).tree (λ t. IsFree t path.now) }
        ensures made { Makes (Self.seen self.old).tree (told_put (Self.seen self.old).tree path.now (link text.now)) (Self.seen self.new).tree result }
        ensures touched { Touches (Self.seen self.old) (Self.seen self.new) (path.now ∷ []) result }
        ensures gave { IfSome (Self.seen self.old).tree (λ t. GaveNothing (Self.seen self.old) (Self.seen self.new)) }
        ensures cause { HasCause (Self.seen self.old).faults (Self.seen self.new).faults result };

    /// Moves a file to where nothing or a file stands, in a folder.
    fn rename(&mut self, from: &AbsPath, to: &AbsPath) -> Result<(), DevFault>
        requires { ForSome (Self.seen self.old).tree (λ t. CanRename t from.now to.now) }
        ensures made { Makes (Self.seen self.old).tree (told_moved (Self.seen self.old).tree from.now to.now) (Self.seen self.new).tree result }
        ensures touched { Touches (Self.seen self.old) (Self.seen self.new) (from.now ∷ to.now ∷ []) result }
        ensures gave { IfSome (Self.seen self.old).tree (λ t. GaveNothing (Self.seen self.old) (Self.seen self.new)) }
        ensures cause { HasCause (Self.seen self.old).faults (Self.seen self.new).faults result };

    /// Takes a file, a link or an empty folder other than `/` away.
    fn remove(&mut self, path: &AbsPath) -> Result<(), DevFault>
        requires { ForSome (Self.seen self.old).tree (λ t. CanRemove t path.now) }
        ensures made { Makes (Self.seen self.old).tree (told_gone (Self.seen self.old).tree path.now) (Self.seen self.new).tree result }
        ensures touched { Touches (Self.seen self.old) (Self.seen self.new) (path.now ∷ []) result }
        ensures gave { IfSome (Self.seen self.old).tree (λ t. GaveNothing (Self.seen self.old) (Self.seen self.new)) }
        ensures cause { HasCause (Self.seen self.old).faults (Self.seen self.new).faults result };
}
