// A number is claimed, and given back.
ghost use Rattle.std.specs.Prelude.{◌≡◌, ◌≤◌, ◌≢◌, ◌⊎◌, ℕ, OnOk, OnErr, IfOk, IfErr};
ghost use Rattle.std.specs.Bool.{OnTrue, OnFalse};
ghost use Rattle.pn_storecore.specs.Held.{IsFree};
ghost use Rattle.pn_storecore.specs.Grew.{Grew, Stood, TookNone};
ghost use Rattle.pn_store.specs.Own.{Made, IsDropOf};
ghost use Rattle.pn_store.specs.Leaves.{LeavesOthers};
ghost use Rattle.pn_store.specs.Claims.{IsClaimed, IsFirst, IsTried, IsLeft, OnlyClaims, ClaimRefused};
ghost use Rattle.pn_store.specs.Held.{HoldsFile, IsHeld};
ghost use Rattle.pn_store.specs.Reads.{ReadRefused};
ghost use Rattle.pn_store.specs.Faults.{StoreRefuses};

use crate::calls::drop_file;
use crate::fault::{ClaimFault, PutFault, ReadFault, of_store};
use crate::number::{Claim, NUMBERS};
use pn_storecore::{StoreDisk, asks_law, claims_law, did_law, grew_law, holds_law, leaves_law};
use pn_text::DevFault;

/// Claims the first number that is free, of 65,536. A refusal leaves at most one number taken: `Fault` for a call that
/// failed, `NumbersFull` where each was found taken, `Memory`.
pub fn claim<D: StoreDisk>(disk: &mut D) -> Result<Claim, ClaimFault>
    ensures claimed { IfOk result (λ k. IsClaimed k (D.seen disk.old) (D.seen disk.new)) }
    ensures first { IfOk result (λ k. IsFirst k (D.seen disk.old) (D.seen disk.new)) }
    ensures left { OnErr result (IsLeft (D.seen disk.old) (D.seen disk.new)) }
    ensures only { OnlyClaims (D.seen disk.old) (D.seen disk.new) }
    ensures grew { Grew (D.seen disk.old) (D.seen disk.new) }
    ensures later { (D.seen disk.old).faults ≤ (D.seen disk.new).faults }
    ensures fault { IfErr result (ClaimRefused (D.seen disk.old) (D.seen disk.new)) }
{
    grew_law();
    claims_law();
    'numbers: for k in 0..NUMBERS {
        let free = take(disk, k)?;
        if free {
            return Ok(Claim::of(k));
        }
    }
    Err(ClaimFault::NumbersFull)
}

// Tries one number.
fn take<D: StoreDisk>(disk: &mut D, k: u32) -> Result<bool, ClaimFault>
    ensures claimed { IfOk result (λ free. OnTrue free (IsClaimed k (D.seen disk.old) (D.seen disk.new))) }
    ensures stood { IfOk result (λ free. OnFalse free (Stood k (D.seen disk.old) (D.seen disk.new))) }
    ensures others { IfOk result (λ free. OnFalse free ((j : ℕ) → TookNone j (D.seen disk.old) (D.seen disk.new))) }
    ensures left { OnErr result (IsTried k (D.seen disk.old) (D.seen disk.new)) }
    ensures only { OnlyClaims (D.seen disk.old) (D.seen disk.new) }
    ensures grew { Grew (D.seen disk.old) (D.seen disk.new) }
    ensures later { (D.seen disk.old).faults ≤ (D.seen disk.new).faults }
    ensures fault { IfErr result (λ e. e ≢ ClaimFault.NumbersFull × ClaimRefused (D.seen disk.old) (D.seen disk.new) e) }
{
    holds_law();
    did_law();
    grew_law();
    leaves_law();
    claims_law();
    match disk.claim(k) {
        Ok(free) => Ok(free),
        Err(DevFault::Failed) => Err(ClaimFault::Fault),
        Err(DevFault::Memory) => Err(ClaimFault::Memory),
    }
}

/// Drops the claim's file and its folder. After a refusal the claim is spent, and the number stays taken or is free.
pub fn release<D: StoreDisk>(disk: &mut D, claim: Claim) -> Result<(), ReadFault>
    requires { IsHeld (D.seen disk.old) claim }
    ensures free { OnOk result (IsFree (D.seen disk.new) claim) }
    ensures left { OnErr result (IsHeld (D.seen disk.new) claim ⊎ IsFree (D.seen disk.new) claim) }
    ensures others { LeavesOthers claim (D.seen disk.old) (D.seen disk.new) }
    ensures own { Made (IsDropOf claim) (D.seen disk.old) (D.seen disk.new) }
    ensures grew { Grew (D.seen disk.old) (D.seen disk.new) }
    ensures later { (D.seen disk.old).faults ≤ (D.seen disk.new).faults }
    ensures fault { IfErr result (ReadRefused (D.seen disk.old) (D.seen disk.new)) }
{
    match give_back(disk, claim.number()) {
        Ok(()) => Ok(()),
        Err(PutFault::StoreFault) => Err(ReadFault::Fault),
        Err(_) => Err(ReadFault::Memory),
    }
}

fn give_back<D: StoreDisk>(disk: &mut D, k: u32) -> Result<(), PutFault>
    requires { IsHeld (D.seen disk.old) k }
    ensures free { OnOk result (IsFree (D.seen disk.new) k) }
    ensures left { OnErr result (IsHeld (D.seen disk.new) k ⊎ IsFree (D.seen disk.new) k) }
    ensures others { LeavesOthers k (D.seen disk.old) (D.seen disk.new) }
    ensures own { Made (IsDropOf k) (D.seen disk.old) (D.seen disk.new) }
    ensures grew { Grew (D.seen disk.old) (D.seen disk.new) }
    ensures later { (D.seen disk.old).faults ≤ (D.seen disk.new).faults }
    ensures fault { IfErr result (StoreRefuses (D.seen disk.old) (D.seen disk.new)) }
{
    grew_law();
    claims_law();
    drop_file(disk, k)?;
    drop_folder(disk, k)
}

fn drop_folder<D: StoreDisk>(disk: &mut D, k: u32) -> Result<(), PutFault>
    requires { HoldsFile (D.seen disk.old) k None }
    ensures free { OnOk result (IsFree (D.seen disk.new) k) }
    ensures left { OnErr result (IsHeld (D.seen disk.new) k ⊎ IsFree (D.seen disk.new) k) }
    ensures others { LeavesOthers k (D.seen disk.old) (D.seen disk.new) }
    ensures own { Made (IsDropOf k) (D.seen disk.old) (D.seen disk.new) }
    ensures grew { Grew (D.seen disk.old) (D.seen disk.new) }
    ensures later { (D.seen disk.old).faults ≤ (D.seen disk.new).faults }
    ensures fault { IfErr result (StoreRefuses (D.seen disk.old) (D.seen disk.new)) }
{
    asks_law();
    holds_law();
    did_law();
    grew_law();
    leaves_law();
    claims_law();
    of_store(disk.drop_temp(k, None))
}
