// The point at which the packages' files are listed.
ghost use Rattle.std.specs.Prelude.{◌≡◌, IfOk, IfErr};
ghost use Rattle.pn_fs.specs.Seen.{Seen, Taken, Keeps};
ghost use Rattle.pn_collect.specs.Outline.{direct_of};
ghost use Rattle.pn_collect.specs.Packages.{ArePackages, AreShort, FoldersStand};
ghost use Rattle.pn_storecore.specs.Seen.{Seen as Stored};
ghost use Rattle.pn_cmd.specs.World.{world};
ghost use Rattle.pn_cmd.specs.Points.{Refuses};
ghost use Rattle.pn_cmd.specs.Packages.{Unlisted, collect_status};

use pn_collect::{CollectFault, Collected, collect};
use pn_fs::ReadFs;
use pn_graph::Plain;
use pn_status::{Status, Which};
use pn_text::ENTRY_LIMIT;
use std::alloc::Global;

/// The packages of the graph with their files, in byte order of `name@version`, and the project's links to them.
pub fn packages<R: ReadFs>(
    alloc: Global,
    plain: &Plain,
    registry: &mut R,
) -> Result<Collected, Status>
    requires stand { FoldersStand (R.seen registry.old).tree plain.now }
    requires short { AreShort plain.now }
    ensures direct { IfOk result (λ c. c.direct ≡ direct_of plain.now) }
    ensures packages { IfOk result (λ c. ArePackages (R.seen registry.old).tree plain.now c.packages.items) }
    ensures refused { (project : Seen) (store : Stored) (out : Taken) → IfErr result (Refuses (Unlisted plain.now) (world project (R.seen registry.old) store out) (world project (R.seen registry.new) store out)) }
    ensures kept { Keeps (R.seen registry.old) (R.seen registry.new) }
{
    match collect(alloc, registry, plain) {
        Ok(collected) => Ok(collected),
        Err(fault) => Err(unlisted(fault)),
    }
}

// The status where a package has no files.
fn unlisted(fault: CollectFault) -> Status
    ensures { result ≡ collect_status fault }
{
    match fault {
        CollectFault::Modules(id, path) => Status::Bundled(id, path),
        CollectFault::TooLarge(length) => Status::Limit(Which::File, length),
        CollectFault::Entries => Status::Limit(Which::Entries, ENTRY_LIMIT + 1),
        CollectFault::Fault => Status::RegistryFault,
        CollectFault::Memory => Status::Memory,
    }
}
