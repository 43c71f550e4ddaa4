// Folders of projects.
ghost use Rattle.std.specs.Prelude.{◌≡◌, ◌≢◌, IfOk, false};
ghost use Rattle.pn_lock.specs.Folders.{is_folder, is_rel};

use pn_text::{Memory, PathFault, RelPath};
use std::alloc::Global;

/// Whether a text is a project's folder: `.`, or a relative path.
pub fn is_folder(alloc: Global, text: &str) -> Result<bool, Memory>
    ensures { IfOk result (λ is. is ≡ is_folder text.now) }
{
    if text == "." {
        return Ok(true);
    }
    is_rel(alloc, text)
}

fn is_rel(alloc: Global, text: &str) -> Result<bool, Memory>
    ensures { IfOk result (λ is. is ≡ is_rel text.now) }
{
    match RelPath::read(alloc, text) {
        Ok(path) => {
            let _short = path.as_str(); // says its length
            Ok(true)
        }
        Err(fault) => refused(fault),
    }
}

// What is refused is no path, but for want of memory.
fn refused(fault: PathFault) -> Result<bool, Memory>
    ensures { IfOk result (λ is. (is ≡ false) × (fault ≢ PathFault.Memory)) }
{
    match fault {
        PathFault::Memory => Err(Memory),
        PathFault::NotAbsolute => Ok(false),
        PathFault::BadPart(_) => Ok(false),
        PathFault::Long => Ok(false),
    }
}
