// A real stream.
ghost use Rattle.pn_real.specs.Told.{untold_bytes};

use crate::faults::counted;
use pn_fs::Sink;
use pn_text::DevFault;
use std::io::Print;

/// A stream of the process. It tells nothing of what it took.
#[derive(Drop)]
pub struct RealSink<W: Print + Drop> {
    stream: W,
    calls: u64,
    faults: u64,
}

impl<W: Print + Drop> RealSink<W> {
    /// The stream that the process was given.
    pub fn new(stream: W) -> Self {
        RealSink {
            stream,
            calls: 0,
            faults: 0,
        }
    }
}

impl<W: Print + Drop> Sink for RealSink<W> {
    ghost seen = { λ s. untold_bytes s.calls s.faults };

    fn write(&mut self, bytes: &[u8]) -> Result<(), DevFault> {
        self.calls = self.calls.saturating_add(1);
        counted(&mut self.faults, self.stream.write_all(bytes))
    }
}
