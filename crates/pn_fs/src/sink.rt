// Where text goes.
ghost use Rattle.std.specs.Prelude.{◌≡◌};
ghost use Rattle.pn_text.specs.Causes.{HasCause, count_after};
ghost use Rattle.pn_fs.specs.Seen.{Taken};
ghost use Rattle.pn_fs.specs.Takes.{Takes};

use pn_text::DevFault;

/// Where text goes. A call answers `Failed` only where the count of faults rose in it.
pub trait Sink {
    /// What it took, where that is told, and the counts of calls and of faults.
    ghost seen: { Self → Taken };

    /// Takes all of the bytes, or refuses after a prefix of them.
    fn write(&mut self, bytes: &[u8]) -> Result<(), DevFault>
        ensures took { Takes (seen self.old).bytes bytes.now (seen self.new).bytes result }
        ensures asked { (seen self.new).calls ≡ count_after (seen self.old).calls }
        ensures cause { HasCause (seen self.old).faults (seen self.new).faults result };
}
