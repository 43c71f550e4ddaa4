// What stands at a path.
ghost use Rattle.std.specs.Prelude.{◌≡◌, IfOk, IfErr, IfSome};
ghost use Rattle.pn_fs.specs.Calls.{kind_of};
ghost use Rattle.pn_fs.specs.Seen.{Keeps, GaveNothing};
ghost use Rattle.pn_repair.specs.RepairFaults.{TreeRefused};

use pn_fs::{Kind, ReadFs};
use pn_repair::RepairFault;
use pn_text::{AbsPath, DevFault};

pub fn kind_at<P: ReadFs>(fs: &mut P, path: &AbsPath) -> Result<Kind, RepairFault>
    ensures kind { IfSome (P.seen fs.old).tree (λ t. IfOk result (λ k. k ≡ kind_of (t path.now))) }
    ensures gave { IfSome (P.seen fs.old).tree (λ t. GaveNothing (P.seen fs.old) (P.seen fs.new)) }
    ensures kept { Keeps (P.seen fs.old) (P.seen fs.new) }
    ensures fault { IfErr result (TreeRefused (P.seen fs.old).faults (P.seen fs.new).faults) }
{
    match fs.kind(path) {
        Ok(kind) => Ok(kind),
        Err(DevFault::Failed) => Err(RepairFault::Fault),
        Err(DevFault::Memory) => Err(RepairFault::Memory),
    }
}
