// Calls that are counted, some of which fail.
ghost use Rattle.std.specs.Prelude.{◌≡◌, ℕ, ◌+◌, ◌-◌, ◌^◌, true, false, OnOk, IfErr};
ghost use Rattle.std.specs.List.Sorted.{IsNonDecreasing};
ghost use Rattle.pn_text.specs.Causes.{HasCause};
ghost use Rattle.pn_text.specs.Causes.{is_listed, count_after};

use crate::fault::DevFault;

/// The numbers of the calls that fail, the number of the next call, and how many failed.
#[derive(Drop)]
pub struct Turns {
    pub fail: Vec<u64>,
    pub calls: u64,
    pub faults: u64,
    ghost rising: { IsNonDecreasing fail.items },
}

impl Turns {
    pub fn new(mut fail: Vec<u64>) -> Turns
        ensures fail { (n : ℕ) → is_listed result.fail.items n ≡ is_listed fail.items n }
        ensures calls { result.calls ≡ 0 }
        ensures faults { result.faults ≡ 0 }
    {
        fail.sort_unstable();
        Turns {
            fail,
            calls: 0,
            faults: 0,
        }
    }

    /// Counts a call, and gives its number.
    pub fn count(&mut self) -> u64
        ensures call { result ≡ self.old.calls }
        ensures calls { self.new.calls ≡ count_after self.old.calls }
        ensures fail { self.new.fail ≡ self.old.fail }
        ensures faults { self.new.faults ≡ self.old.faults }
    {
        let call = self.calls;
        self.calls = call.saturating_add(1);
        call
    }

    fn is_listed(&self, call: u64) -> bool
        ensures { result ≡ is_listed self.now.fail.items call }
    {
        self.fail.binary_search(&call).is_ok()
    }

    /// Fails the call with a number exactly where it is listed.
    pub fn answer(&mut self, call: u64) -> Result<(), DevFault>
        ensures ok { OnOk result ((is_listed self.old.fail.items call ≡ false) × (self.new.faults ≡ self.old.faults)) }
        ensures failed { IfErr result (λ e. (e ≡ DevFault.Failed) × (is_listed self.old.fail.items call ≡ true) × (self.new.faults ≡ count_after self.old.faults)) }
        ensures calls { self.new.calls ≡ self.old.calls }
        ensures fail { self.new.fail ≡ self.old.fail }
        ensures cause { HasCause self.old.faults self.new.faults result }
    {
        if self.is_listed(call) {
            self.faults = self.faults.saturating_add(1);
            return Err(DevFault::Failed);
        }
        Ok(())
    }

    /// Counts a call, and fails it exactly where it is listed.
    pub fn take(&mut self) -> Result<(), DevFault>
        ensures ok { OnOk result ((is_listed self.old.fail.items self.old.calls ≡ false) × (self.new.faults ≡ self.old.faults)) }
        ensures failed { IfErr result (λ e. (e ≡ DevFault.Failed) × (is_listed self.old.fail.items self.old.calls ≡ true) × (self.new.faults ≡ count_after self.old.faults)) }
        ensures calls { self.new.calls ≡ count_after self.old.calls }
        ensures fail { self.new.fail ≡ self.old.fail }
        ensures cause { HasCause self.old.faults self.new.faults result }
    {
        let call = self.count();
        self.answer(call)
    }
}
