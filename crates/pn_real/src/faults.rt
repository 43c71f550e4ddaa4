// The count of a real object's faults.
ghost use Rattle.std.specs.Prelude.{◌≡◌, Ok, IfOk};
ghost use Rattle.pn_text.specs.Causes.{HasCause};

use pn_text::DevFault;
use std::io;

/// What a system call gave. One that failed is counted.
pub fn counted<T: Drop>(faults: &mut u64, done: io::Result<T>) -> Result<T, DevFault>
    ensures same { IfOk result (λ v. done ≡ Ok v) }
    ensures cause { HasCause faults.old faults.new result }
{
    match done {
        Ok(value) => Ok(value),
        Err(_) => {
            *faults = faults.saturating_add(1);
            Err(DevFault::Failed)
        }
    }
}
