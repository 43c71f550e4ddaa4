// A store in memory that never fails.
ghost use Rattle.std.specs.Prelude.{◌≡◌, ◌⊎◌, ◌++◌, ◌∷◌, [], Some, OnOk, OnErr, IfErr};
ghost use Rattle.pn_storecore.specs.Steps.{world_of};
ghost use Rattle.pn_storecore.specs.Lawful.{IsLawful, IsDiscard};
ghost use Rattle.pn_storecore.specs.Seen.{Seen, fresh};
ghost use Rattle.pn_memstore.specs.Came.{OthersCame};
ghost use Rattle.pn_memstore.specs.Script.{DueCame, IsLater};
ghost use Rattle.pn_memstore.specs.Schedule.{to_come};

use crate::ledger::Ledger;
use crate::others::others_come;
use crate::schedule::Schedule;
use crate::temps;
use pn_digest::Digest;
use pn_storecore::{Bytes, Discard, Place, StoreDisk, StoreStep};
use pn_text::DevFault;
use std::alloc::Global;

/// A store in memory. No call fails: `Memory` is the only refusal. A call makes no step but its own.
#[derive(Drop)]
pub struct SureStore {
    alloc: Global,
    me: u64,
    ledger: Ledger,
}

impl SureStore {
    ghost use Rattle.pn_memstore.specs.Stores.{Alone};

    /// An empty store, for the installer with this number.
    pub fn new(alloc: Global, me: u64) -> SureStore
        ensures { ⟦<SureStore as StoreDisk>⟧.seen result ≡ fresh me }
    {
        SureStore {
            alloc,
            me,
            ledger: Ledger::new(alloc),
        }
    }

    fn make(&mut self, step: StoreStep) -> Result<(), DevFault>
        requires { IsLawful self.old.me step (world_of self.old.ledger.journal.items) ⊎ IsDiscard step }
        ensures ok { OnOk result (self.new.ledger.journal.items ≡ self.old.ledger.journal.items ++ (self.old.me, step) ∷ []) }
        ensures err { OnErr result (self.new.ledger.journal.items ≡ self.old.ledger.journal.items) }
        ensures me { self.new.me ≡ self.old.me }
        ensures alone { Alone self.old step self.new result }
        ensures cause { IfErr result (λ e. e ≡ DevFault.Memory) }
    {
        self.ledger.take(self.me, step)?;
        Ok(())
    }

    /// Lets the steps of other installers come that stand before a call.
    pub(crate) fn others_come(&mut self, call: u64, schedule: &mut Schedule) -> Result<(), DevFault>
        ensures came { OthersCame self.old.me self.old.ledger.journal.items self.new.ledger.journal.items }
        ensures due { DueCame self.old.me call (to_come schedule.old) (to_come schedule.new) self.old.ledger.journal.items [] self.new.ledger.journal.items }
        ensures all { OnOk result (IsLater call (to_come schedule.new)) }
        ensures me { self.new.me ≡ self.old.me }
        ensures cause { IfErr result (λ e. e ≡ DevFault.Memory) }
    {
        others_come(self.alloc, &mut self.ledger, self.me, call, schedule)?;
        Ok(())
    }
}

impl StoreDisk for SureStore {
    ghost use Rattle.std.specs.Prelude.{◌≤◌, ◌<◌, IfOk, IfSome, length};
    ghost use Rattle.pn_text.specs.Causes.{HasCause};
    ghost use Rattle.pn_storecore.specs.World.{objects};
    ghost use Rattle.pn_storecore.specs.declared.step.StoreStep.TheVariants as step;
    ghost use Rattle.pn_storecore.specs.Seen.{Keeps, Asks};
    ghost use Rattle.pn_storecore.specs.Calls.{Answers, Does, Appends, IsClaim, IsRead, AreAddresses, AreNumbersOf};
    ghost use Rattle.pn_memstore.specs.Stores.{sure_seen, Alone};

    ghost seen = { sure_seen };

    fn claim(&mut self, k: u32) -> Result<bool, DevFault>
        ensures step { Answers (sure_seen self.old) (step.Claim k) (sure_seen self.new) result (IsClaim k) }
        ensures kept { Keeps (sure_seen self.old) (sure_seen self.new) }
        ensures cause { HasCause (sure_seen self.old).faults (sure_seen self.new).faults result }
        ensures alone { Alone self.old (step.Claim k) self.new result }
    {
        let free = !self.ledger.world.stands(k);
        self.make(StoreStep::Claim(k))?;
        Ok(free)
    }

    fn create(&mut self, k: u32, n: u32) -> Result<(), DevFault>
        requires { Asks (sure_seen self.old) (step.Create k n) }
        ensures step { Does (sure_seen self.old) (step.Create k n) (sure_seen self.new) result }
        ensures kept { Keeps (sure_seen self.old) (sure_seen self.new) }
        ensures cause { HasCause (sure_seen self.old).faults (sure_seen self.new).faults result }
        ensures alone { Alone self.old (step.Create k n) self.new result }
    {
        self.make(StoreStep::Create(k, n))
    }

    fn append(&mut self, k: u32, n: u32, bytes: &[u8]) -> Result<(), DevFault>
        requires { Asks (sure_seen self.old) (step.Append k n bytes.now) }
        ensures step { Appends (sure_seen self.old) k n bytes.now (sure_seen self.new) result }
        ensures kept { Keeps (sure_seen self.old) (sure_seen self.new) }
        ensures cause { HasCause (sure_seen self.old).faults (sure_seen self.new).faults result }
        ensures alone { Alone self.old (step.Append k n bytes.now) self.new result }
    {
        let more = Bytes::of(self.alloc, bytes)?;
        self.make(StoreStep::Append(k, n, more))
    }

    fn shard(&mut self, place: Place, first: u8) -> Result<(), DevFault>
        ensures step { Does (sure_seen self.old) (step.Shard place first) (sure_seen self.new) result }
        ensures kept { Keeps (sure_seen self.old) (sure_seen self.new) }
        ensures cause { HasCause (sure_seen self.old).faults (sure_seen self.new).faults result }
        ensures alone { Alone self.old (step.Shard place first) self.new result }
    {
        self.make(StoreStep::Shard(place, first))
    }

    fn publish_file(&mut self, k: u32, n: u32, at: &Digest) -> Result<(), DevFault>
        requires { Asks (sure_seen self.old) (step.PublishFile k n at.now) }
        ensures step { Does (sure_seen self.old) (step.PublishFile k n at.now) (sure_seen self.new) result }
        ensures kept { Keeps (sure_seen self.old) (sure_seen self.new) }
        ensures cause { HasCause (sure_seen self.old).faults (sure_seen self.new).faults result }
        ensures alone { Alone self.old (step.PublishFile k n at.now) self.new result }
    {
        self.make(StoreStep::PublishFile(k, n, at.copy()))
    }

    fn publish_listing(&mut self, k: u32, n: u32, at: &Digest) -> Result<(), DevFault>
        requires { Asks (sure_seen self.old) (step.PublishListing k n at.now) }
        ensures step { Does (sure_seen self.old) (step.PublishListing k n at.now) (sure_seen self.new) result }
        ensures kept { Keeps (sure_seen self.old) (sure_seen self.new) }
        ensures cause { HasCause (sure_seen self.old).faults (sure_seen self.new).faults result }
        ensures alone { Alone self.old (step.PublishListing k n at.now) self.new result }
    {
        self.make(StoreStep::PublishListing(k, n, at.copy()))
    }

    fn drop_temp(&mut self, k: u32, n: Option<u32>) -> Result<(), DevFault>
        requires { Asks (sure_seen self.old) (step.DropTemp k n) }
        ensures step { Does (sure_seen self.old) (step.DropTemp k n) (sure_seen self.new) result }
        ensures kept { Keeps (sure_seen self.old) (sure_seen self.new) }
        ensures cause { HasCause (sure_seen self.old).faults (sure_seen self.new).faults result }
        ensures alone { Alone self.old (step.DropTemp k n) self.new result }
    {
        self.make(StoreStep::DropTemp(k, n))
    }

    fn read(
        &mut self,
        place: Place,
        at: &Digest,
        from: u64,
        into: &mut [u8],
    ) -> Result<Option<usize>, DevFault>
        requires { 0 < length into.old }
        ensures within { IfOk result (λ found. IfSome found (λ n. n ≤ length into.old)) }
        ensures step { Answers (sure_seen self.old) step.Read (sure_seen self.new) result (λ w found. IsRead ((objects w place).bytes at.now) from into.new found) }
        ensures kept { Keeps (sure_seen self.old) (sure_seen self.new) }
        ensures cause { HasCause (sure_seen self.old).faults (sure_seen self.new).faults result }
        ensures alone { Alone self.old step.Read self.new result }
    {
        self.make(StoreStep::Read)?;
        Ok(self.ledger.world.objects(place).read(at, from, into))
    }

    fn list(&mut self, place: Place) -> Result<Vec<Digest>, DevFault>
        ensures step { Answers (sure_seen self.old) step.Read (sure_seen self.new) result (λ w all. AreAddresses (objects w place) all.items) }
        ensures kept { Keeps (sure_seen self.old) (sure_seen self.new) }
        ensures cause { HasCause (sure_seen self.old).faults (sure_seen self.new).faults result }
        ensures alone { Alone self.old step.Read self.new result }
    {
        let all = self.ledger.world.objects(place).addresses(self.alloc)?;
        self.make(StoreStep::Read)?;
        Ok(all)
    }

    fn numbers(&mut self) -> Result<Vec<u32>, DevFault>
        ensures step { Answers (sure_seen self.old) step.Read (sure_seen self.new) result (λ w all. AreNumbersOf w.temps all.items) }
        ensures kept { Keeps (sure_seen self.old) (sure_seen self.new) }
        ensures cause { HasCause (sure_seen self.old).faults (sure_seen self.new).faults result }
        ensures alone { Alone self.old step.Read self.new result }
    {
        let all = temps::numbers(self.alloc, &self.ledger.world.temps)?;
        self.make(StoreStep::Read)?;
        Ok(all)
    }

    fn discard(&mut self, what: Discard) -> Result<(), DevFault>
        ensures step { Does (sure_seen self.old) (step.Discard what) (sure_seen self.new) result }
        ensures kept { Keeps (sure_seen self.old) (sure_seen self.new) }
        ensures cause { HasCause (sure_seen self.old).faults (sure_seen self.new).faults result }
        ensures alone { Alone self.old (step.Discard what) self.new result }
    {
        self.make(StoreStep::Discard(what))
    }
}
