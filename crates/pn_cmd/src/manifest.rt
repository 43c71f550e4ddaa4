// The point of the project's manifest.
ghost use Rattle.std.specs.Prelude.{◌≡◌, ◌≤◌, ◌+◌, ◌∷◌, ℕ, List, length, IfOk, IfErr, IfSome};
ghost use Rattle.pn_text.specs.declared.limits.TheConstants.{PATH_LIMIT, TEXT_LIMIT};
ghost use Rattle.pn_text.specs.Path.{path_text};
ghost use Rattle.pn_fs.specs.Seen.{Seen, Taken, Keeps, GaveAtMost};
ghost use Rattle.pn_manifest.specs.Refusals.{ManifestRefused};
ghost use Rattle.pn_manifest.specs.Said.{IsRisingSaid};
ghost use Rattle.pn_manifest.specs.Says.{said_of};
ghost use Rattle.pn_workspace.specs.Contents.{IsText};
ghost use Rattle.pn_cmd.specs.Names.{package_name};
ghost use Rattle.pn_storecore.specs.Seen.{Seen as Stored};
ghost use Rattle.pn_cmd.specs.World.{world};
ghost use Rattle.pn_cmd.specs.Points.{Refuses};
ghost use Rattle.pn_cmd.specs.Manifests.{NoManifest, Declares, FoundIn, BytesRefused};

use crate::entry::{EntryFault, entry};
use crate::workspace::not_yet;
use pn_choice::unbuilt_field;
use pn_fs::ReadFs;
use pn_manifest::{Manifest, ManifestFault, ManifestWhy};
use pn_read::{SmallFault, read_small};
use pn_status::{FileWhy, Status, Which};
use pn_text::{AbsPath, TEXT_LIMIT, Text};
use std::alloc::Global;

/// Reads the manifest in the project's folder.
pub fn read_manifest<P: ReadFs>(
    alloc: Global,
    folder: &AbsPath,
    project: &mut P,
) -> Result<Manifest, Status>
    ensures found { IfOk result (λ m. Declares (P.seen project.old).tree (package_name ∷ folder.now) (said_of m)) }
    ensures rising { IfOk result (λ m. IsRisingSaid (said_of m)) }
    ensures refused { (registry : Seen) (store : Stored) (out : Taken) → IfErr result (Refuses (NoManifest (package_name ∷ folder.now)) (world (P.seen project.old) registry store out) (world (P.seen project.new) registry store out)) }
    ensures gave { IfSome (P.seen project.old).tree (λ t. GaveAtMost (P.seen project.old) (TEXT_LIMIT + 1) 0 (P.seen project.new)) }
    ensures kept { Keeps (P.seen project.old) (P.seen project.new) }
{
    let path = match entry(alloc, folder, "package.json") {
        Ok(path) => path,
        Err(EntryFault::Long(length)) => return Err(Status::Limit(Which::Path, length)),
        Err(EntryFault::Memory) => return Err(Status::Memory),
    };
    let bytes = match read_text(alloc, &path, project) {
        Ok(bytes) => bytes,
        Err(status) => return Err(status),
    };
    parse(alloc, &path, bytes.as_slice())
}

// Reads a file of the project within the limit.
fn read_text<P: ReadFs>(alloc: Global, path: &AbsPath, project: &mut P) -> Result<Vec<u8>, Status>
    requires { length (path_text path.now) ≤ PATH_LIMIT }
    ensures found { IfOk result (λ v. IfSome (P.seen project.old).tree (λ t. IsText (t path.now) v.items)) }
    ensures refused { (registry : Seen) (store : Stored) (out : Taken) → IfErr result (Refuses (NoManifest path.now) (world (P.seen project.old) registry store out) (world (P.seen project.new) registry store out)) }
    ensures gave { IfSome (P.seen project.old).tree (λ t. GaveAtMost (P.seen project.old) (TEXT_LIMIT + 1) 0 (P.seen project.new)) }
    ensures kept { Keeps (P.seen project.old) (P.seen project.new) }
{
    match read_small(alloc, project, path, TEXT_LIMIT) {
        Ok(bytes) => Ok(bytes),
        Err(SmallFault::Missing) => {
            let text = Text::of(alloc, path.as_str())?;
            Err(Status::Manifest(text, FileWhy::Manifest(ManifestWhy::Missing)))
        }
        Err(SmallFault::TooLarge(length)) => Err(Status::Limit(Which::Text, length)),
        Err(SmallFault::Fault) => Err(Status::ProjectFault),
        Err(SmallFault::Memory) => Err(Status::Memory),
    }
}

// The manifest that the bytes say.
fn parse(alloc: Global, path: &AbsPath, bytes: &[u8]) -> Result<Manifest, Status>
    ensures found { IfOk result (FoundIn bytes.now) }
    ensures rising { IfOk result (λ m. IsRisingSaid (said_of m)) }
    ensures refused { IfErr result (BytesRefused path.now bytes.now) }
{
    let manifest = match Manifest::read(alloc, bytes) {
        Ok(manifest) => manifest,
        Err(fault) => return Err(refusal(alloc, path, fault)),
    };
    match unbuilt_field(&manifest) {
        Some(field) => Err(not_yet(alloc, field)),
        None => Ok(manifest),
    }
}

// The status for a refused manifest.
fn refusal(alloc: Global, path: &AbsPath, fault: ManifestFault) -> Status
    ensures { (bytes : List ℕ) → ManifestRefused bytes fault → BytesRefused path.now bytes result }
{
    let why = match fault {
        ManifestFault::Wrong(why) => why,
        ManifestFault::Memory => return Status::Memory,
    };
    match Text::of(alloc, path.as_str()) {
        Ok(text) => Status::Manifest(text, FileWhy::Manifest(why)),
        Err(_) => Status::Memory,
    }
}
