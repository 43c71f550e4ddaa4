// A store in memory that other installers use too, and whose calls fail at given numbers.
ghost use Rattle.std.specs.Prelude.{◌≡◌, []};
ghost use Rattle.pn_text.specs.Causes.{HasCause, is_listed};
ghost use Rattle.pn_storecore.specs.Seen.{Seen, fresh};
ghost use Rattle.pn_memstore.specs.Came.{OthersCame};
ghost use Rattle.pn_memstore.specs.Sorting.{AreByCall};
ghost use Rattle.pn_memstore.specs.Script.{Goes};

use crate::schedule::Schedule;
use crate::sure::SureStore;
use pn_digest::Digest;
use pn_storecore::{Discard, Place, StoreDisk, StoreStep};
use pn_text::{DevFault, Turns};
use std::alloc::Global;

/// A store in memory. The calls with given numbers fail, and steps of other installers come before
/// given calls.
#[derive(Drop)]
pub struct MemStore {
    store: SureStore,
    schedule: Schedule,
    turns: Turns,
}

impl MemStore {
    ghost use Rattle.pn_memstore.specs.Stores.{mem_journal, script_of};

    /// An empty store, for the installer `me`. The calls with the numbers `fail` fail; the first one
    /// is 0. Each of `others` is a call's number, an installer and its step, which comes before that
    /// call; those for one call come in the order of the list. One that isn't lawful when its turn
    /// comes, or is by `me`, is passed over.
    pub fn new(
        alloc: Global,
        me: u64,
        others: Vec<(u64, u64, StoreStep)>,
        fail: Vec<u64>,
    ) -> MemStore
        ensures seen { ⟦<MemStore as StoreDisk>⟧.seen result ≡ fresh me }
        ensures others { AreByCall others.items (script_of result).others }
        ensures script { script_of result ≡ record { others = (script_of result).others; fails = is_listed fail.items; next = 0; faults = 0 } }
    {
        MemStore {
            store: SureStore::new(alloc, me),
            schedule: Schedule::new(others),
            turns: Turns::new(fail),
        }
    }

    // Counts this call, and lets the others' steps come that stand before it. One that is to fail does
    // so after them.
    fn turn(&mut self) -> Result<(), DevFault>
        ensures came { OthersCame self.old.store.me self.old.store.ledger.journal.items self.new.store.ledger.journal.items }
        ensures me { self.new.store.me ≡ self.old.store.me }
        ensures script { Goes self.old.store.me (script_of self.old) (mem_journal self.old) [] (mem_journal self.new) (script_of self.new) result }
        ensures cause { HasCause self.old.turns.faults self.new.turns.faults result }
    {
        let call = self.turns.count();
        self.store.others_come(call, &mut self.schedule)?;
        self.turns.answer(call)
    }
}

impl StoreDisk for MemStore {
    ghost use Rattle.std.specs.Prelude.{◌≤◌, ◌<◌, IfOk, IfSome, length};
    ghost use Rattle.pn_text.specs.Causes.{HasCause};
    ghost use Rattle.pn_storecore.specs.World.{objects};
    ghost use Rattle.pn_storecore.specs.declared.step.StoreStep.TheVariants as step;
    ghost use Rattle.pn_storecore.specs.Seen.{Keeps, Asks};
    ghost use Rattle.pn_storecore.specs.Calls.{Answers, Does, Appends, IsClaim, IsRead, AreAddresses, AreNumbersOf};
    ghost use Rattle.pn_memstore.specs.Stores.{mem_seen, GoesBy};

    ghost seen = { mem_seen };

    fn claim(&mut self, k: u32) -> Result<bool, DevFault>
        ensures step { Answers (mem_seen self.old) (step.Claim k) (mem_seen self.new) result (IsClaim k) }
        ensures kept { Keeps (mem_seen self.old) (mem_seen self.new) }
        ensures cause { HasCause (mem_seen self.old).faults (mem_seen self.new).faults result }
        ensures script { GoesBy self.old (step.Claim k) self.new result }
    {
        self.turn()?;
        self.store.claim(k)
    }

    fn create(&mut self, k: u32, n: u32) -> Result<(), DevFault>
        requires { Asks (mem_seen self.old) (step.Create k n) }
        ensures step { Does (mem_seen self.old) (step.Create k n) (mem_seen self.new) result }
        ensures kept { Keeps (mem_seen self.old) (mem_seen self.new) }
        ensures cause { HasCause (mem_seen self.old).faults (mem_seen self.new).faults result }
        ensures script { GoesBy self.old (step.Create k n) self.new result }
    {
        self.turn()?;
        self.store.create(k, n)
    }

    fn append(&mut self, k: u32, n: u32, bytes: &[u8]) -> Result<(), DevFault>
        requires { Asks (mem_seen self.old) (step.Append k n bytes.now) }
        ensures step { Appends (mem_seen self.old) k n bytes.now (mem_seen self.new) result }
        ensures kept { Keeps (mem_seen self.old) (mem_seen self.new) }
        ensures cause { HasCause (mem_seen self.old).faults (mem_seen self.new).faults result }
        ensures script { GoesBy self.old (step.Append k n bytes.now) self.new result }
    {
        self.turn()?;
        self.store.append(k, n, bytes)
    }

    fn shard(&mut self, place: Place, first: u8) -> Result<(), DevFault>
        ensures step { Does (mem_seen self.old) (step.Shard place first) (mem_seen self.new) result }
        ensures kept { Keeps (mem_seen self.old) (mem_seen self.new) }
        ensures cause { HasCause (mem_seen self.old).faults (mem_seen self.new).faults result }
        ensures script { GoesBy self.old (step.Shard place first) self.new result }
    {
        self.turn()?;
        self.store.shard(place, first)
    }

    fn publish_file(&mut self, k: u32, n: u32, at: &Digest) -> Result<(), DevFault>
        requires { Asks (mem_seen self.old) (step.PublishFile k n at.now) }
        ensures step { Does (mem_seen self.old) (step.PublishFile k n at.now) (mem_seen self.new) result }
        ensures kept { Keeps (mem_seen self.old) (mem_seen self.new) }
        ensures cause { HasCause (mem_seen self.old).faults (mem_seen self.new).faults result }
        ensures script { GoesBy self.old (step.PublishFile k n at.now) self.new result }
    {
        self.turn()?;
        self.store.publish_file(k, n, at)
    }

    fn publish_listing(&mut self, k: u32, n: u32, at: &Digest) -> Result<(), DevFault>
        requires { Asks (mem_seen self.old) (step.PublishListing k n at.now) }
        ensures step { Does (mem_seen self.old) (step.PublishListing k n at.now) (mem_seen self.new) result }
        ensures kept { Keeps (mem_seen self.old) (mem_seen self.new) }
        ensures cause { HasCause (mem_seen self.old).faults (mem_seen self.new).faults result }
        ensures script { GoesBy self.old (step.PublishListing k n at.now) self.new result }
    {
        self.turn()?;
        self.store.publish_listing(k, n, at)
    }

    fn drop_temp(&mut self, k: u32, n: Option<u32>) -> Result<(), DevFault>
        requires { Asks (mem_seen self.old) (step.DropTemp k n) }
        ensures step { Does (mem_seen self.old) (step.DropTemp k n) (mem_seen self.new) result }
        ensures kept { Keeps (mem_seen self.old) (mem_seen self.new) }
        ensures cause { HasCause (mem_seen self.old).faults (mem_seen self.new).faults result }
        ensures script { GoesBy self.old (step.DropTemp k n) self.new result }
    {
        self.turn()?;
        self.store.drop_temp(k, n)
    }

    fn read(
        &mut self,
        place: Place,
        at: &Digest,
        from: u64,
        into: &mut [u8],
    ) -> Result<Option<usize>, DevFault>
        requires { 0 < length into.old }
        ensures within { IfOk result (λ found. IfSome found (λ n. n ≤ length into.old)) }
        ensures step { Answers (mem_seen self.old) step.Read (mem_seen self.new) result (λ w found. IsRead ((objects w place).bytes at.now) from into.new found) }
        ensures kept { Keeps (mem_seen self.old) (mem_seen self.new) }
        ensures cause { HasCause (mem_seen self.old).faults (mem_seen self.new).faults result }
        ensures script { GoesBy self.old step.Read self.new result }
    {
        self.turn()?; // the answer is by the world that the others left
        self.store.read(place, at, from, into)
    }

    fn list(&mut self, place: Place) -> Result<Vec<Digest>, DevFault>
        ensures step { Answers (mem_seen self.old) step.Read (mem_seen self.new) result (λ w all. AreAddresses (objects w place) all.items) }
        ensures kept { Keeps (mem_seen self.old) (mem_seen self.new) }
        ensures cause { HasCause (mem_seen self.old).faults (mem_seen self.new).faults result }
        ensures script { GoesBy self.old step.Read self.new result }
    {
        self.turn()?;
        self.store.list(place)
    }

    fn numbers(&mut self) -> Result<Vec<u32>, DevFault>
        ensures step { Answers (mem_seen self.old) step.Read (mem_seen self.new) result (λ w all. AreNumbersOf w.temps all.items) }
        ensures kept { Keeps (mem_seen self.old) (mem_seen self.new) }
        ensures cause { HasCause (mem_seen self.old).faults (mem_seen self.new).faults result }
        ensures script { GoesBy self.old step.Read self.new result }
    {
        self.turn()?;
        self.store.numbers()
    }

    fn discard(&mut self, what: Discard) -> Result<(), DevFault>
        ensures step { Does (mem_seen self.old) (step.Discard what) (mem_seen self.new) result }
        ensures kept { Keeps (mem_seen self.old) (mem_seen self.new) }
        ensures cause { HasCause (mem_seen self.old).faults (mem_seen self.new).faults result }
        ensures script { GoesBy self.old (step.Discard what) self.new result }
    {
        self.turn()?;
        self.store.discard(what)
    }
}
