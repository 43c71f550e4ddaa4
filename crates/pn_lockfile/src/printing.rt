// The text of a lockfile.
ghost use Rattle.std.specs.Prelude.{◌≡◌, ◌≤◌, IfOk, IfErr, length};
ghost use Rattle.pn_yaml_print.specs.Printing.{printed};
ghost use Rattle.pn_lock_print.specs.LockData.{lock_data};
ghost use Rattle.pn_lock_read.specs.LockTexts.{Spells};
ghost use Rattle.pn_lockfile.specs.Texts.{Untold};
ghost use Rattle.pn_lockfile.specs.declared.limits.TheConstants.{LOCKFILE_LIMIT};

use crate::fault::TextFault;
use crate::limits::LOCKFILE_LIMIT;
use pn_lock::Lock;
use pn_lock_print::print;
use pn_lock_read::read_law;
use std::alloc::Global;

/// The text of a lock, which spells it, or a refusal where it would have more than 67,108,864 bytes.
pub fn lockfile_text(alloc: Global, lock: &Lock) -> Result<Vec<u8>, TextFault>
    ensures text { IfOk result (λ v. v.items ≡ printed (lock_data lock.now)) }
    ensures spells { IfOk result (λ v. Spells v.items lock.now) }
    ensures short { IfOk result (λ v. length v.items ≤ LOCKFILE_LIMIT) }
    ensures refused { IfErr result (Untold (printed (lock_data lock.now))) }
{
    let _importers = lock.importers(); // for its `kept`
    read_law();
    let text = print(alloc, lock)?;
    let length = text.len() as u64;
    if length > LOCKFILE_LIMIT {
        return Err(TextFault::TooLarge(length));
    }
    Ok(text)
}
