// The steps of other installers on a store in memory.
ghost use Rattle.std.specs.Prelude.{◌≡◌, ◌++◌, OnOk, OnErr, [], ◌∷◌};
ghost use Rattle.pn_storecore.specs.Steps.{Journal, world_of};
ghost use Rattle.pn_memstore.specs.Came.{OthersCame};
ghost use Rattle.pn_memstore.specs.Script.{AreDue, DueCame, IsLater};
ghost use Rattle.pn_memstore.specs.Schedule.{to_come};

use crate::check::is_lawful;
use crate::ledger::Ledger;
use crate::schedule::Schedule;
use pn_storecore::StoreStep;
use pn_text::Memory;
use std::alloc::Global;

// Makes a step of another installer, if it is lawful.
fn comes(
    alloc: Global,
    ledger: &mut Ledger,
    me: u64,
    scheduled: &(u64, u64, StoreStep),
) -> Result<(), Memory>
    ensures came { OthersCame me ledger.old.journal.items ledger.new.journal.items }
    ensures due { OnOk result ((came : Journal) × AreDue me (world_of ledger.old.journal.items) (scheduled.now ∷ []) came × (ledger.new.journal.items ≡ ledger.old.journal.items ++ came)) }
    ensures err { OnErr result (ledger.new.journal.items ≡ ledger.old.journal.items) }
{
    let (_, who, step) = scheduled;
    if *who == me {
        return Ok(());
    }
    if !is_lawful(alloc, &ledger.world, *who, step)? {
        return Ok(());
    }
    ledger.take(*who, step.copy(alloc)?)
}

/// Makes the steps of other installers that come before a call, in their order. One that isn't lawful
/// is passed over. Where memory is wanted, what had no turn yet is still to come.
pub fn others_come(
    alloc: Global,
    ledger: &mut Ledger,
    me: u64,
    call: u64,
    schedule: &mut Schedule,
) -> Result<(), Memory>
    ensures came { OthersCame me ledger.old.journal.items ledger.new.journal.items }
    ensures due { DueCame me call (to_come schedule.old) (to_come schedule.new) ledger.old.journal.items [] ledger.new.journal.items }
    ensures all { OnOk result (IsLater call (to_come schedule.new)) }
{
    'entries: while let Some(scheduled) = schedule.next(call) {
        comes(alloc, ledger, me, scheduled)?;
        schedule.pass();
    }
    Ok(())
}
