// A sink in memory whose calls fail at given numbers.
ghost use Rattle.std.specs.Prelude.{◌≡◌, Some};
ghost use Rattle.pn_fs.specs.Seen.{Taken};
ghost use Rattle.pn_fs.specs.Fresh.{untaken};
ghost use Rattle.pn_text.specs.Causes.{is_listed};

use crate::sink::Sink;
use pn_text::{DevFault, Turns};
use std::alloc::Global;

/// A sink in memory. The calls with given numbers fail.
#[derive(Drop)]
pub struct MemSink {
    bytes: Vec<u8>,
    turns: Turns,
}

impl MemSink {
    ghost use Rattle.pn_fs.specs.Scripts.{sink_script};

    /// Nothing taken. The calls with these numbers fail; the first one is 0.
    pub fn new(alloc: Global, fail: Vec<u64>) -> MemSink
        ensures seen { ⟦<MemSink as Sink>⟧.seen result ≡ untaken }
        ensures script { sink_script result ≡ record { fails = is_listed fail.items; next = 0; faults = 0 } }
    {
        MemSink {
            bytes: Vec::new(alloc),
            turns: Turns::new(fail),
        }
    }

    /// What it took.
    pub fn bytes(&self) -> &[u8]
        ensures { (⟦<MemSink as Sink>⟧.seen self.now).bytes ≡ Some result.now }
    {
        self.bytes.as_slice()
    }

    /// The number of the next call.
    pub fn calls(&self) -> u64
        ensures { result ≡ (sink_script self.now).next }
    {
        self.turns.calls
    }
}

impl Sink for MemSink {
    ghost use Rattle.pn_text.specs.Causes.{HasCause, count_after};
    ghost use Rattle.pn_fs.specs.Takes.{Takes};
    ghost use Rattle.pn_fs.specs.Scripts.{mem_taken, sink_script, Goes};

    ghost seen = { mem_taken };

    fn write(&mut self, bytes: &[u8]) -> Result<(), DevFault>
        ensures took { Takes (mem_taken self.old).bytes bytes.now (mem_taken self.new).bytes result }
        ensures asked { (mem_taken self.new).calls ≡ count_after (mem_taken self.old).calls }
        ensures cause { HasCause (mem_taken self.old).faults (mem_taken self.new).faults result }
        ensures script { Goes (sink_script self.old) (sink_script self.new) result }
    {
        self.turns.take()?;
        self.bytes.extend_from_slice(bytes)?;
        Ok(())
    }
}
