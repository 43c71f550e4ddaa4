// The top call.
ghost use Rattle.std.specs.Prelude.{map, string_bytes};
ghost use Rattle.pn_cmd.specs.World.{world, inputs};
ghost use Rattle.pn_cmd.specs.Endings.{Ends};
ghost use Rattle.pn_status.specs.Texts.{Tells};

use crate::gather::gather;
use crate::plan::report;
use crate::prepare::prepare;
use crate::write::{tell_report, write};
use pn_fs::{Fs, ReadFs, Sink};
use pn_status::{Status, tell};
use pn_storecore::{StoreDisk, grew_law};
use pn_text::AbsPath;
use std::alloc::Global;

/// Runs the command that the words are, for the project in the folder `place`, which is its own real
/// path. The registry's folder is `/` of `registry`. Package files go into `store`, which other installers may
/// use at once. The report goes to `out`, a refusal's text to `err`. No status tells of a fault of `err`.
pub fn run<P: Fs, R: ReadFs, D: StoreDisk, O: Sink, E: Sink>(
    alloc: Global,
    words: &[String],
    place: &AbsPath,
    project: &mut P,
    registry: &mut R,
    store: &mut D,
    out: &mut O,
    err: &mut E,
) -> Status
    ensures ends { Ends (inputs (map string_bytes words.now) place.now) (world (P.seen project.old) (R.seen registry.old) (D.seen store.old) (O.seen out.old)) (world (P.seen project.new) (R.seen registry.new) (D.seen store.new) (O.seen out.new)) result }
    ensures tells { Tells (Ends (inputs (map string_bytes words.now) place.now) (world (P.seen project.old) (R.seen registry.old) (D.seen store.old) (O.seen out.old)) (world (P.seen project.new) (R.seen registry.new) (D.seen store.new) (O.seen out.new))) (E.seen err.old) (E.seen err.new) result }
{
    let status = install(alloc, words, place, project, registry, store, out);
    tell(alloc, status, err)
}

fn install<P: Fs, R: ReadFs, D: StoreDisk, O: Sink>(
    alloc: Global,
    words: &[String],
    place: &AbsPath,
    project: &mut P,
    registry: &mut R,
    store: &mut D,
    out: &mut O,
) -> Status
    ensures { Ends (inputs (map string_bytes words.now) place.now) (world (P.seen project.old) (R.seen registry.old) (D.seen store.old) (O.seen out.old)) (world (P.seen project.new) (R.seen registry.new) (D.seen store.new) (O.seen out.new)) result }
{
    grew_law();
    let gathered = match gather(alloc, words, place, project, registry) {
        Ok(gathered) => gathered,
        Err(status) => return status,
    };
    let report = match report(alloc, gathered.packages.len()) {
        Ok(report) => report,
        Err(_) => return Status::Memory,
    };
    let ready = match prepare(alloc, place, &gathered, registry, store) {
        Ok(ready) => ready,
        Err(status) => return status,
    };
    if let Err(status) = write(alloc, &ready.plan, &gathered.scan, project, store) {
        return status;
    }
    tell_report(report.as_str(), out)
}
