// What stands behind `npm:`.
ghost use Rattle.std.specs.Prelude.{◌≡◌, IfOk, IfErr, codes};
ghost use Rattle.pn_spec.specs.Forms.{IsAlias, IsWant};
ghost use Rattle.pn_spec.specs.Refusals.{FitsNoAlias, Refuses};

use crate::fault::SpecFault;
use crate::parts::{parted, read_name};
use crate::want::{Want, read_want};
use pn_ranges::Range;
use pn_text::PkgName;
use std::alloc::Global;

/// Reads what stands behind `npm:`.
pub(crate) fn read_alias(alloc: Global, text: &str) -> Result<(PkgName, Want), SpecFault>
    ensures ok { IfOk result (λ r. IsAlias text.now r.0 r.1) }
    ensures fault { IfErr result (Refuses (FitsNoAlias text.now)) }
{
    match parted(text) {
        Some((front, behind)) => {
            let name = read_name(alloc, front)?;
            let want = read_want(alloc, behind)?;
            Ok((name, want))
        }
        None => {
            let name = read_name(alloc, text)?;
            let any = any(alloc)?;
            Ok((name, any))
        }
    }
}

// The want of a name alone.
fn any(alloc: Global) -> Result<Want, SpecFault>
    ensures ok { IfOk result (IsWant (codes "*")) }
    ensures fault { IfErr result (λ e. e ≡ SpecFault.Memory) }
{
    match Range::any(alloc) {
        Ok(range) => Ok(Want::Range(range)),
        Err(_) => Err(SpecFault::Memory),
    }
}
