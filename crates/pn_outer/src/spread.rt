// The instances that have one outer pair.
ghost use Rattle.std.specs.Prelude.{◌≡◌, ◌<◌, ℕ, [], OnOk, length};
ghost use Rattle.std.specs.List.{Contains};
ghost use Rattle.pn_components.specs.Rows.{AreWithin, rows_of};
ghost use Rattle.pn_outer.specs.Founds.{AreMet, IsMarked, Passes};

use crate::found::Found;
use crate::instance::Instance;
use pn_text::{Memory, PkgName};

/// Meets the instances that have a pair of that name, where these have it first.
pub(crate) fn spread(
    instances: &[Instance],
    dependents: &[Vec<u32>],
    starts: &[u32],
    name: &PkgName,
    found: &mut Found,
) -> Result<(), Memory>
    requires marked { IsMarked found.old.seen.items found.old.order.items }
    requires none { found.old.order.items ≡ [] }
    requires count { length found.old.seen.items ≡ length instances.now }
    requires rows { length dependents.now ≡ length instances.now }
    requires starts { (k : ℕ) → Contains starts.now k → k < length instances.now }
    requires within { AreWithin (rows_of dependents.now) }
    ensures marked { OnOk result (IsMarked found.new.seen.items found.new.order.items) }
    ensures count { length found.new.seen.items ≡ length found.old.seen.items }
    ensures met { OnOk result (AreMet (Passes instances.now name.now (rows_of dependents.now)) (Contains starts.now) found.new.order.items) }
{
    found.meet_all(starts)?;
    for at in 0..instances.len() {
        if at >= found.order.len() {
            return Ok(());
        }
        let from = found.order[at] as usize;
        found.meet_open(instances, dependents[from].as_slice(), name)?;
    }
    Ok(())
}
