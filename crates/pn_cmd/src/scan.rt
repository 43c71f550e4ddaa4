// The point at which what stands in the managed folder is scanned.
ghost use Rattle.std.specs.Prelude.{◌≡◌, ◌≤◌, length, OnOk, IfOk, IfErr, IfSome};
ghost use Rattle.pn_text.specs.declared.limits.TheConstants.{PATH_LIMIT};
ghost use Rattle.pn_text.specs.Path.{path_text};
ghost use Rattle.pn_fs.specs.Seen.{Seen, Taken, Keeps};
ghost use Rattle.pn_scan.specs.Scans.{IsScan};
ghost use Rattle.pn_layout.specs.Layout.{marker_text};
ghost use Rattle.pn_storecore.specs.Seen.{Seen as Stored};
ghost use Rattle.pn_cmd.specs.World.{world};
ghost use Rattle.pn_cmd.specs.Points.{Refuses};
ghost use Rattle.pn_cmd.specs.Names.{modules_path};
ghost use Rattle.pn_cmd.specs.Scans.{IsScanned, Unscanned, managed_of, scan_status};
ghost use Rattle.pn_cmd.specs.Readies.{HasScan};

use crate::entry::{EntryFault, entry};
use crate::ready::Scanned;
use pn_fs::ReadFs;
use pn_scan::{Scan, ScanFault, scan};
use pn_status::{Status, Which};
use pn_text::{AbsPath, ENTRY_LIMIT, Memory, Text};
use std::alloc::Global;

/// The managed folder of a project's folder, with what stands at and below it: the folder is the installer's.
pub fn scanned<P: ReadFs>(
    alloc: Global,
    folder: &AbsPath,
    project: &mut P,
) -> Result<Scanned, Status>
    ensures modules { IfOk result (λ s. s.modules ≡ modules_path folder.now) }
    ensures scan { IfOk result (λ s. HasScan (P.seen project.old).tree folder.now s.scan) }
    ensures passed { OnOk result (IsScanned (P.seen project.old).tree (modules_path folder.now)) }
    ensures refused { (registry : Seen) (store : Stored) (out : Taken) → IfErr result (Refuses (Unscanned (modules_path folder.now)) (world (P.seen project.old) registry store out) (world (P.seen project.new) registry store out)) }
    ensures kept { Keeps (P.seen project.old) (P.seen project.new) }
{
    let modules = match entry(alloc, folder, "node_modules") {
        Ok(path) => path,
        Err(EntryFault::Long(length)) => return Err(Status::Limit(Which::Path, length)),
        Err(EntryFault::Memory) => return Err(Status::Memory),
    };
    match scan_folder(alloc, &modules, project) {
        Ok(scan) => Ok(Scanned { modules, scan }),
        Err(status) => Err(status),
    }
}

// What stands at and below a managed folder.
fn scan_folder<P: ReadFs>(alloc: Global, modules: &AbsPath, project: &mut P) -> Result<Scan, Status>
    requires fits { length (path_text modules.now) ≤ PATH_LIMIT }
    ensures managed { IfOk result (λ s. s.managed ≡ managed_of modules.now) }
    ensures found { IfSome (P.seen project.old).tree (λ t. IfOk result (IsScan t)) }
    ensures passed { OnOk result (IsScanned (P.seen project.old).tree modules.now) }
    ensures refused { (registry : Seen) (store : Stored) (out : Taken) → IfErr result (Refuses (Unscanned modules.now) (world (P.seen project.old) registry store out) (world (P.seen project.new) registry store out)) }
    ensures kept { Keeps (P.seen project.old) (P.seen project.new) }
{
    let managed = [managed(alloc, modules)?];
    match scan(alloc, project, &managed) {
        Ok(scan) => Ok(scan),
        Err(fault) => Err(unscanned(fault)),
    }
}

// A managed folder with the text of its marker.
fn managed(alloc: Global, modules: &AbsPath) -> Result<(AbsPath, Text), Memory>
    ensures { IfOk result (λ m. m ≡ (modules.now, marker_text)) }
{
    let text = Text::of(alloc, "pnpm-rs 1\n")?;
    let modules = modules.copy(alloc)?;
    Ok((modules, text))
}

// The status where the folder isn't scanned.
fn unscanned(fault: ScanFault) -> Status
    ensures { result ≡ scan_status fault }
{
    match fault {
        ScanFault::Foreign(path) => Status::Foreign(path),
        ScanFault::Entries => Status::Limit(Which::Entries, ENTRY_LIMIT + 1),
        ScanFault::Fault => Status::ProjectFault,
        ScanFault::Memory => Status::Memory,
    }
}
