// What stands at and below managed folders.
ghost use Rattle.std.specs.Prelude.{◌≡◌, ◌++◌, ◌∷◌, [], IfOk, IfErr, IfSome, OnOk};
ghost use Rattle.pn_text.specs.declared.limits.TheConstants.{ENTRY_LIMIT};
ghost use Rattle.pn_fs.specs.Seen.{Keeps, GaveAtMost};
ghost use Rattle.pn_scan.specs.Managed.{AreApart, AreOurs};
ghost use Rattle.pn_scan.specs.Scans.{IsScan, IsRising};
ghost use Rattle.pn_scan.specs.ScanFaults.{HasFew, ScanRefused};
ghost use Rattle.pn_scan.specs.Looks.{GaveListings, marker_bytes};
ghost use Rattle.pn_scan.specs.Turns.{KeepsPaths};

use crate::fault::ScanFault;
use crate::order::in_order;
use crate::ours::look_at_all;
use crate::result::{Scan, scanned};
use crate::walk::walk;
use pn_fs::{Kind, ReadFs};
use pn_text::{AbsPath, Memory, Text};
use std::alloc::Global;

/// Looks at the managed folders in their order, each folder's path from `/` down and then its marker, and only then lists
/// all that stands below them. None of the folders may be at or below another one.
pub fn scan<P: ReadFs>(
    alloc: Global,
    fs: &mut P,
    managed: &[(AbsPath, Text)],
) -> Result<Scan, ScanFault>
    requires apart { AreApart managed.now }
    ensures managed { IfOk result (λ s. s.managed ≡ managed.now) }
    ensures scan { IfSome (P.seen fs.old).tree (λ t. IfOk result (IsScan t)) }
    ensures ours { IfSome (P.seen fs.old).tree (λ t. OnOk result (AreOurs t managed.now)) }
    ensures few { IfSome (P.seen fs.old).tree (λ t. OnOk result (HasFew t managed.now)) }
    ensures gave_few { IfSome (P.seen fs.old).tree (λ t. OnOk result (GaveAtMost (P.seen fs.old) (marker_bytes managed.now) ENTRY_LIMIT (P.seen fs.new))) }
    ensures gave { IfSome (P.seen fs.old).tree (λ t. GaveListings t managed.now (marker_bytes managed.now) ENTRY_LIMIT (P.seen fs.old) (P.seen fs.new)) }
    ensures kept { Keeps (P.seen fs.old) (P.seen fs.new) }
    ensures fault { IfErr result (ScanRefused managed.now (P.seen fs.old) (P.seen fs.new)) }
{
    match look_at_all(alloc, fs, managed) {
        Ok(ours) => match walk(alloc, fs, managed, ours) {
            Ok(found) => gather(alloc, managed, found),
            Err(fault) => Err(fault),
        },
        Err(fault) => Err(fault),
    }
}

// The folders and what was found, in order.
fn gather(
    alloc: Global,
    managed: &[(AbsPath, Text)],
    found: Vec<(AbsPath, Kind)>,
) -> Result<Scan, ScanFault>
    requires apart { AreApart managed.now }
    ensures managed { IfOk result (λ s. s.managed ≡ managed.now) }
    ensures keeps { IfOk result (λ s. KeepsPaths found.items s.entries) }
    ensures memory { IfErr result (λ e. e ≡ ScanFault.Memory) }
{
    let entries = in_order(found)?;
    let managed = copies(alloc, managed)?;
    Ok(scanned(managed, entries))
}

fn copies(alloc: Global, managed: &[(AbsPath, Text)]) -> Result<Vec<(AbsPath, Text)>, Memory>
    ensures { IfOk result (λ v. v.items ≡ managed.now) }
{
    let mut all = Vec::new(alloc);
    for one in managed {
        let folder = one.0.copy(alloc)?;
        let text = one.1.copy(alloc)?;
        all.push((folder, text))?;
    }
    Ok(all)
}
