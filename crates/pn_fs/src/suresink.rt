// A sink in memory that never fails.
ghost use Rattle.std.specs.Prelude.{◌≡◌, Some};
ghost use Rattle.pn_fs.specs.Seen.{Taken};
ghost use Rattle.pn_fs.specs.Fresh.{untaken};

use crate::sink::Sink;
use pn_text::DevFault;
use std::alloc::Global;

/// A sink in memory. No call fails: `Memory` is the only refusal.
#[derive(Drop)]
pub struct SureSink {
    bytes: Vec<u8>,
    calls: u64,
}

impl SureSink {
    pub fn new(alloc: Global) -> SureSink
        ensures { ⟦<SureSink as Sink>⟧.seen result ≡ untaken }
    {
        SureSink {
            bytes: Vec::new(alloc),
            calls: 0,
        }
    }

    /// What it took.
    pub fn bytes(&self) -> &[u8]
        ensures { (⟦<SureSink as Sink>⟧.seen self.now).bytes ≡ Some result.now }
    {
        self.bytes.as_slice()
    }
}

impl Sink for SureSink {
    ghost seen = { λ s. record { bytes = Some s.bytes.items; calls = s.calls; faults = 0 } };

    fn write(&mut self, bytes: &[u8]) -> Result<(), DevFault> {
        self.calls = self.calls.saturating_add(1);
        self.bytes.extend_from_slice(bytes)?;
        Ok(())
    }
}
