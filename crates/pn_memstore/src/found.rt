// A store in memory that was found as some steps left it.
ghost use Rattle.std.specs.Prelude.{◌≡◌, ◌++◌, ◌∷◌, [], Some, OnOk, OnErr, IfOk, IfErr};
ghost use Rattle.pn_storecore.specs.Steps.{world_of};
ghost use Rattle.pn_memstore.specs.Kept.{world_in};
ghost use Rattle.pn_memstore.specs.Sets.{World-set};

use crate::temps;
use crate::world::StoreWorld;
use pn_digest::Digest;
use pn_storecore::{Bytes, Discard, Place, StoreDisk, StoreStep};
use pn_text::{DevFault, Memory};
use std::alloc::Global;

/// A store in memory that was found as some steps left it, lawful or not: it may be damaged. No call fails: `Memory` is
/// the only refusal. No other installer is at work.
#[derive(Drop)]
pub struct FoundStore {
    alloc: Global,
    me: u64,
    journal: Vec<(u64, StoreStep)>,
    world: StoreWorld,
    ghost made: { world_of journal.items ≡ world_in world } by { World-set (world_of journal.items) (world_in world) },
}

// The world that steps made.
fn world_after(alloc: Global, steps: &[(u64, StoreStep)]) -> Result<StoreWorld, Memory>
    ensures { IfOk result (λ w. world_of steps.now ≡ world_in w) }
{
    let mut world = StoreWorld::new(alloc);
    'steps: for (who, step) in steps {
        world.take(*who, step)?;
    }
    Ok(world)
}

impl FoundStore {
    ghost use Rattle.pn_memstore.specs.Stores.{found_seen, FoundAlone};

    /// The store that these steps left, each with the number of its installer, for the installer `me`.
    pub fn new(alloc: Global, me: u64, before: Vec<(u64, StoreStep)>) -> Result<FoundStore, Memory>
        ensures { IfOk result (λ s. found_seen s ≡ record { journal = Some before.items; me = me; faults = 0 }) }
    {
        let world = world_after(alloc, before.as_slice())?;
        Ok(FoundStore {
            alloc,
            me,
            journal: before,
            world,
        })
    }

    fn make(&mut self, step: StoreStep) -> Result<(), DevFault>
        ensures ok { OnOk result (self.new.journal.items ≡ self.old.journal.items ++ (self.old.me, step) ∷ []) }
        ensures err { OnErr result (self.new.journal.items ≡ self.old.journal.items) }
        ensures me { self.new.me ≡ self.old.me }
        ensures alone { FoundAlone self.old step self.new result }
        ensures cause { IfErr result (λ e. e ≡ DevFault.Memory) }
    {
        self.journal.reserve(1)?;
        self.world.take(self.me, &step)?;
        self.journal.push_reserved((self.me, step));
        Ok(())
    }
}

impl StoreDisk for FoundStore {
    ghost use Rattle.std.specs.Prelude.{◌≤◌, ◌<◌, IfSome, length};
    ghost use Rattle.pn_text.specs.Causes.{HasCause};
    ghost use Rattle.pn_storecore.specs.World.{objects};
    ghost use Rattle.pn_storecore.specs.declared.step.StoreStep.TheVariants as step;
    ghost use Rattle.pn_storecore.specs.Seen.{Keeps, Asks};
    ghost use Rattle.pn_storecore.specs.Calls.{Answers, Does, Appends, IsClaim, IsRead, AreAddresses, AreNumbersOf};
    ghost use Rattle.pn_memstore.specs.Stores.{found_seen, FoundAlone};

    ghost seen = { found_seen };

    fn claim(&mut self, k: u32) -> Result<bool, DevFault>
        ensures step { Answers (found_seen self.old) (step.Claim k) (found_seen self.new) result (IsClaim k) }
        ensures kept { Keeps (found_seen self.old) (found_seen self.new) }
        ensures cause { HasCause (found_seen self.old).faults (found_seen self.new).faults result }
        ensures alone { FoundAlone self.old (step.Claim k) self.new result }
    {
        let free = !self.world.stands(k);
        self.make(StoreStep::Claim(k))?;
        Ok(free)
    }

    fn create(&mut self, k: u32, n: u32) -> Result<(), DevFault>
        requires { Asks (found_seen self.old) (step.Create k n) }
        ensures step { Does (found_seen self.old) (step.Create k n) (found_seen self.new) result }
        ensures kept { Keeps (found_seen self.old) (found_seen self.new) }
        ensures cause { HasCause (found_seen self.old).faults (found_seen self.new).faults result }
        ensures alone { FoundAlone self.old (step.Create k n) self.new result }
    {
        self.make(StoreStep::Create(k, n))
    }

    fn append(&mut self, k: u32, n: u32, bytes: &[u8]) -> Result<(), DevFault>
        requires { Asks (found_seen self.old) (step.Append k n bytes.now) }
        ensures step { Appends (found_seen self.old) k n bytes.now (found_seen self.new) result }
        ensures kept { Keeps (found_seen self.old) (found_seen self.new) }
        ensures cause { HasCause (found_seen self.old).faults (found_seen self.new).faults result }
        ensures alone { FoundAlone self.old (step.Append k n bytes.now) self.new result }
    {
        let more = Bytes::of(self.alloc, bytes)?;
        self.make(StoreStep::Append(k, n, more))
    }

    fn shard(&mut self, place: Place, first: u8) -> Result<(), DevFault>
        ensures step { Does (found_seen self.old) (step.Shard place first) (found_seen self.new) result }
        ensures kept { Keeps (found_seen self.old) (found_seen self.new) }
        ensures cause { HasCause (found_seen self.old).faults (found_seen self.new).faults result }
        ensures alone { FoundAlone self.old (step.Shard place first) self.new result }
    {
        self.make(StoreStep::Shard(place, first))
    }

    fn publish_file(&mut self, k: u32, n: u32, at: &Digest) -> Result<(), DevFault>
        requires { Asks (found_seen self.old) (step.PublishFile k n at.now) }
        ensures step { Does (found_seen self.old) (step.PublishFile k n at.now) (found_seen self.new) result }
        ensures kept { Keeps (found_seen self.old) (found_seen self.new) }
        ensures cause { HasCause (found_seen self.old).faults (found_seen self.new).faults result }
        ensures alone { FoundAlone self.old (step.PublishFile k n at.now) self.new result }
    {
        self.make(StoreStep::PublishFile(k, n, at.copy()))
    }

    fn publish_listing(&mut self, k: u32, n: u32, at: &Digest) -> Result<(), DevFault>
        requires { Asks (found_seen self.old) (step.PublishListing k n at.now) }
        ensures step { Does (found_seen self.old) (step.PublishListing k n at.now) (found_seen self.new) result }
        ensures kept { Keeps (found_seen self.old) (found_seen self.new) }
        ensures cause { HasCause (found_seen self.old).faults (found_seen self.new).faults result }
        ensures alone { FoundAlone self.old (step.PublishListing k n at.now) self.new result }
    {
        self.make(StoreStep::PublishListing(k, n, at.copy()))
    }

    fn drop_temp(&mut self, k: u32, n: Option<u32>) -> Result<(), DevFault>
        requires { Asks (found_seen self.old) (step.DropTemp k n) }
        ensures step { Does (found_seen self.old) (step.DropTemp k n) (found_seen self.new) result }
        ensures kept { Keeps (found_seen self.old) (found_seen self.new) }
        ensures cause { HasCause (found_seen self.old).faults (found_seen self.new).faults result }
        ensures alone { FoundAlone self.old (step.DropTemp k n) self.new result }
    {
        self.make(StoreStep::DropTemp(k, n))
    }

    fn read(
        &mut self,
        place: Place,
        at: &Digest,
        from: u64,
        into: &mut [u8],
    ) -> Result<Option<usize>, DevFault>
        requires { 0 < length into.old }
        ensures within { IfOk result (λ found. IfSome found (λ n. n ≤ length into.old)) }
        ensures step { Answers (found_seen self.old) step.Read (found_seen self.new) result (λ w found. IsRead ((objects w place).bytes at.now) from into.new found) }
        ensures kept { Keeps (found_seen self.old) (found_seen self.new) }
        ensures cause { HasCause (found_seen self.old).faults (found_seen self.new).faults result }
        ensures alone { FoundAlone self.old step.Read self.new result }
    {
        self.make(StoreStep::Read)?;
        Ok(self.world.objects(place).read(at, from, into))
    }

    fn list(&mut self, place: Place) -> Result<Vec<Digest>, DevFault>
        ensures step { Answers (found_seen self.old) step.Read (found_seen self.new) result (λ w all. AreAddresses (objects w place) all.items) }
        ensures kept { Keeps (found_seen self.old) (found_seen self.new) }
        ensures cause { HasCause (found_seen self.old).faults (found_seen self.new).faults result }
        ensures alone { FoundAlone self.old step.Read self.new result }
    {
        let all = self.world.objects(place).addresses(self.alloc)?;
        self.make(StoreStep::Read)?;
        Ok(all)
    }

    fn numbers(&mut self) -> Result<Vec<u32>, DevFault>
        ensures step { Answers (found_seen self.old) step.Read (found_seen self.new) result (λ w all. AreNumbersOf w.temps all.items) }
        ensures kept { Keeps (found_seen self.old) (found_seen self.new) }
        ensures cause { HasCause (found_seen self.old).faults (found_seen self.new).faults result }
        ensures alone { FoundAlone self.old step.Read self.new result }
    {
        let all = temps::numbers(self.alloc, &self.world.temps)?;
        self.make(StoreStep::Read)?;
        Ok(all)
    }

    fn discard(&mut self, what: Discard) -> Result<(), DevFault>
        ensures step { Does (found_seen self.old) (step.Discard what) (found_seen self.new) result }
        ensures kept { Keeps (found_seen self.old) (found_seen self.new) }
        ensures cause { HasCause (found_seen self.old).faults (found_seen self.new).faults result }
        ensures alone { FoundAlone self.old (step.Discard what) self.new result }
    {
        self.make(StoreStep::Discard(what))
    }
}
