// A store, by the journal of the steps on it.
ghost use Rattle.std.specs.Prelude.{◌≤◌, ◌<◌, IfOk, IfSome, length};
ghost use Rattle.pn_text.specs.Causes.{HasCause};
ghost use Rattle.pn_storecore.specs.World.{objects};
ghost use Rattle.pn_storecore.specs.declared.step.StoreStep.TheVariants as step;
ghost use Rattle.pn_storecore.specs.Seen.{Seen, Keeps, Asks};
ghost use Rattle.pn_storecore.specs.Calls.{Answers, Does, Appends, IsClaim, IsRead, AreAddresses, AreNumbersOf};

use crate::step::{Discard, Place};
use pn_digest::Digest;
use pn_text::DevFault;

/// A store that several installers share. Each call is one step of the installer that makes it, after
/// any lawful steps of others, and answers by the world at that point. A step that must be lawful is
/// asked to be so where the journal is told. After a refusal the call's own step was made or not. A
/// call answers `Failed` only where the count of faults rose in it. What steps came before the first
/// call isn't said: a told store may be damaged, and what rests on a sound one has that as a premise.
pub trait StoreDisk {
    /// The journal where it is told, the installer's number, and the count of faults.
    ghost seen: { Self → Seen };

    /// Makes the folder of a number. False exactly where it stands.
    fn claim(&mut self, k: u32) -> Result<bool, DevFault>
        ensures step { Answers (seen self.old) (step.Claim k) (seen self.new) result (IsClaim k) }
        ensures kept { Keeps (seen self.old) (seen self.new) }
        ensures cause { HasCause (seen self.old).faults (seen self.new).faults result };

    /// Makes an empty file in a claimed folder, where none of that number stands.
    fn create(&mut self, k: u32, n: u32) -> Result<(), DevFault>
        requires { Asks (seen self.old) (step.Create k n) }
        ensures step { Does (seen self.old) (step.Create k n) (seen self.new) result }
        ensures kept { Keeps (seen self.old) (seen self.new) }
        ensures cause { HasCause (seen self.old).faults (seen self.new).faults result };

    /// Adds bytes to a file of a claimed folder. After a refusal a front of them may have been added.
    fn append(&mut self, k: u32, n: u32, bytes: &[u8]) -> Result<(), DevFault>
        requires { Asks (seen self.old) (step.Append k n bytes.now) }
        ensures step { Appends (seen self.old) k n bytes.now (seen self.new) result }
        ensures kept { Keeps (seen self.old) (seen self.new) }
        ensures cause { HasCause (seen self.old).faults (seen self.new).faults result };

    /// Makes the folder of a first byte, and does nothing where it stands.
    fn shard(&mut self, place: Place, first: u8) -> Result<(), DevFault>
        ensures step { Does (seen self.old) (step.Shard place first) (seen self.new) result }
        ensures kept { Keeps (seen self.old) (seen self.new) }
        ensures cause { HasCause (seen self.old).faults (seen self.new).faults result };

    /// Moves a file of a claimed folder to its address among the files.
    fn publish_file(&mut self, k: u32, n: u32, at: &Digest) -> Result<(), DevFault>
        requires { Asks (seen self.old) (step.PublishFile k n at.now) }
        ensures step { Does (seen self.old) (step.PublishFile k n at.now) (seen self.new) result }
        ensures kept { Keeps (seen self.old) (seen self.new) }
        ensures cause { HasCause (seen self.old).faults (seen self.new).faults result };

    /// Moves a file of a claimed folder, which is the text of a listing, to its address among the listings.
    fn publish_listing(&mut self, k: u32, n: u32, at: &Digest) -> Result<(), DevFault>
        requires { Asks (seen self.old) (step.PublishListing k n at.now) }
        ensures step { Does (seen self.old) (step.PublishListing k n at.now) (seen self.new) result }
        ensures kept { Keeps (seen self.old) (seen self.new) }
        ensures cause { HasCause (seen self.old).faults (seen self.new).faults result };

    /// Takes a file of a claimed folder away, where it stands, or the folder, which has none left.
    fn drop_temp(&mut self, k: u32, n: Option<u32>) -> Result<(), DevFault>
        requires { Asks (seen self.old) (step.DropTemp k n) }
        ensures step { Does (seen self.old) (step.DropTemp k n) (seen self.new) result }
        ensures kept { Keeps (seen self.old) (seen self.new) }
        ensures cause { HasCause (seen self.old).faults (seen self.new).faults result };

    /// Bytes at an address from a place on: at most as many as there is room for, and none exactly at
    /// or past the end. `None` exactly where nothing stands there.
    fn read(
        &mut self,
        place: Place,
        at: &Digest,
        from: u64,
        into: &mut [u8],
    ) -> Result<Option<usize>, DevFault>
        requires { 0 < length into.old }
        ensures within { IfOk result (λ found. IfSome found (λ n. n ≤ length into.old)) }
        ensures step { Answers (seen self.old) step.Read (seen self.new) result (λ w found. IsRead ((objects w place).bytes at.now) from into.new found) }
        ensures kept { Keeps (seen self.old) (seen self.new) }
        ensures cause { HasCause (seen self.old).faults (seen self.new).faults result };

    /// The addresses at which something stands, in byte order.
    fn list(&mut self, place: Place) -> Result<Vec<Digest>, DevFault>
        ensures step { Answers (seen self.old) step.Read (seen self.new) result (λ w all. AreAddresses (objects w place) all.items) }
        ensures kept { Keeps (seen self.old) (seen self.new) }
        ensures cause { HasCause (seen self.old).faults (seen self.new).faults result };

    /// The numbers whose folder stands, rising.
    fn numbers(&mut self) -> Result<Vec<u32>, DevFault>
        ensures step { Answers (seen self.old) step.Read (seen self.new) result (λ w all. AreNumbersOf w.temps all.items) }
        ensures kept { Keeps (seen self.old) (seen self.new) }
        ensures cause { HasCause (seen self.old).faults (seen self.new).faults result };

    /// Takes away what stands there, a folder with its files. It is lawful for nobody: only a prune,
    /// beside which no other installer runs, makes this call.
    fn discard(&mut self, what: Discard) -> Result<(), DevFault>
        ensures step { Does (seen self.old) (step.Discard what) (seen self.new) result }
        ensures kept { Keeps (seen self.old) (seen self.new) }
        ensures cause { HasCause (seen self.old).faults (seen self.new).faults result };
}
