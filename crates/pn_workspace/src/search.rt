// The search for a workspace.
ghost use Rattle.std.specs.Prelude.{◌≡◌, ◌≤◌, ◌+◌, [], None, OnOk, IfOk, IfErr, IfSome, length};
ghost use Rattle.pn_text.specs.declared.limits.TheConstants.{TEXT_LIMIT};
ghost use Rattle.pn_fs.specs.Seen.{GaveAtMost, GaveNothing, Keeps};
ghost use Rattle.pn_config.specs.Files.{ReadsConfig};
ghost use Rattle.pn_workspace.specs.Contents.{SaysBytes};
ghost use Rattle.pn_workspace.specs.Roots.{settings_path};
ghost use Rattle.pn_workspace.specs.Workspaces.{Fits, HasFile, IsFound, IsReadAt, IsWorkspace, Refused, Unread, Unsaid, of_yaml};

use crate::fault::{WorkspaceFault, WorkspaceWhy};
use pn_config::{Config, ConfigFault};
use pn_fs::{Kind, ReadFs};
use pn_read::{SmallFault, read_small};
use pn_text::{AbsPath, DevFault, Memory, PATH_LIMIT, PathFault, TEXT_LIMIT};
use pn_yaml::{YamlFault, read};
use std::alloc::Global;

const NAME: &str = "pnpm-workspace.yaml";

/// A workspace: the folder of its root, and its settings.
#[derive(Drop)]
pub struct Workspace {
    pub root: AbsPath,
    pub config: Config,
}

// A root's workspace file: the folder, the file's path, and its bytes.
#[derive(Drop)]
pub(crate) struct Found {
    root: AbsPath,
    path: AbsPath,
    bytes: Vec<u8>,
}

/// The workspace that a folder lies in: the nearest of the folder and those above it that has a `pnpm-workspace.yaml`,
/// with what that file says, or a refusal where it has more than 16,777,216 bytes; the folder itself with the default
/// settings where none has. No other file is read.
pub fn find<P: ReadFs>(
    alloc: Global,
    place: &AbsPath,
    fs: &mut P,
) -> Result<Workspace, WorkspaceFault>
    ensures fits { OnOk result (Fits place.now) }
    ensures found { IfSome (P.seen fs.old).tree (λ t. IfOk result (IsWorkspace t place.now)) }
    ensures refused { IfErr result (Refused (P.seen fs.old) (P.seen fs.new) place.now) }
    ensures gave { IfSome (P.seen fs.old).tree (λ t. GaveAtMost (P.seen fs.old) (TEXT_LIMIT + 1) 0 (P.seen fs.new)) }
    ensures kept { Keeps (P.seen fs.old) (P.seen fs.new) }
{
    let length = place.child_length(NAME);
    if length > PATH_LIMIT as u64 {
        return Err(WorkspaceFault::Long(length));
    }
    match search(alloc, place, fs)? {
        Some(found) => with_file(alloc, found),
        None => without_file(alloc, place),
    }
}

// The nearest workspace file on the way up from a folder.
fn search<P: ReadFs>(
    alloc: Global,
    place: &AbsPath,
    fs: &mut P,
) -> Result<Option<Found>, WorkspaceFault>
    requires { Fits place.now }
    ensures found { IfSome (P.seen fs.old).tree (λ t. IfOk result (IsFound t place.now)) }
    ensures file { IfOk result (λ o. IfSome o HasFile) }
    ensures refused { IfErr result (Refused (P.seen fs.old) (P.seen fs.new) place.now) }
    ensures gave { IfSome (P.seen fs.old).tree (λ t. GaveAtMost (P.seen fs.old) (TEXT_LIMIT + 1) 0 (P.seen fs.new)) }
    ensures kept { Keeps (P.seen fs.old) (P.seen fs.new) }
{
    let mut at = place.copy(alloc)?;
    'folders: loop {
        let path = settings_path(alloc, &at)?;
        if let Some(bytes) = read_file(alloc, &path, fs)? {
            return Ok(Some(Found {
                root: at,
                path,
                bytes,
            }));
        }
        match at.parent(alloc)? {
            Some(folder) => at = folder,
            None => return Ok(None),
        }
    }
}

// The path of a folder's workspace file.
fn settings_path(alloc: Global, folder: &AbsPath) -> Result<AbsPath, Memory>
    requires { Fits folder.now }
    ensures { IfOk result (λ p. p ≡ settings_path folder.now) }
{
    match folder.child(alloc, NAME) {
        Ok(path) => Ok(path),
        Err(PathFault::Memory) => Err(Memory),
        Err(_) => unreachable!(),
    }
}

// The bytes of the file at a path; none where no file is there.
fn read_file<P: ReadFs>(
    alloc: Global,
    path: &AbsPath,
    fs: &mut P,
) -> Result<Option<Vec<u8>>, WorkspaceFault>
    ensures read { IfSome (P.seen fs.old).tree (λ t. IfOk result (IsReadAt (t path.now))) }
    ensures short { IfOk result (λ o. IfSome o (λ bytes. length bytes.items ≤ TEXT_LIMIT)) }
    ensures unread { IfErr result (Unread (P.seen fs.old) (P.seen fs.new) path.now) }
    ensures gave { IfSome (P.seen fs.old).tree (λ t. GaveAtMost (P.seen fs.old) (TEXT_LIMIT + 1) 0 (P.seen fs.new)) }
    ensures none { IfSome (P.seen fs.old).tree (λ t. IfOk result (λ o. o ≡ None → GaveNothing (P.seen fs.old) (P.seen fs.new))) }
    ensures kept { Keeps (P.seen fs.old) (P.seen fs.new) }
{
    match fs.kind(path) {
        Ok(Kind::File(_)) => {}
        Ok(_) => return Ok(None),
        Err(DevFault::Failed) => return Err(WorkspaceFault::Fault),
        Err(DevFault::Memory) => return Err(WorkspaceFault::Memory),
    }
    match read_small(alloc, fs, path, TEXT_LIMIT) {
        Ok(bytes) => Ok(Some(bytes)),
        Err(SmallFault::Missing) => Ok(None),
        Err(SmallFault::TooLarge(length)) => Err(WorkspaceFault::TooLarge(length)),
        Err(SmallFault::Fault) => Err(WorkspaceFault::Fault),
        Err(SmallFault::Memory) => Err(WorkspaceFault::Memory),
    }
}

// The workspace of a file.
fn with_file(alloc: Global, found: Found) -> Result<Workspace, WorkspaceFault>
    requires { HasFile found }
    ensures root { IfOk result (λ w. w.root ≡ found.root) }
    ensures says { IfOk result (λ w. SaysBytes found.bytes.items w.config) }
    ensures unsaid { IfErr result (Unsaid found.path found.bytes.items) }
{
    let Found { root, path, bytes } = found;
    let config = settings(alloc, path, bytes.as_slice())?;
    Ok(Workspace { root, config })
}

// The workspace of a folder without a file.
fn without_file(alloc: Global, place: &AbsPath) -> Result<Workspace, WorkspaceFault>
    ensures root { IfOk result (λ w. w.root ≡ place.now) }
    ensures says { IfOk result (λ w. ReadsConfig None [] w.config) }
    ensures memory { IfErr result (λ e. e ≡ WorkspaceFault.Memory) }
{
    let root = place.copy(alloc)?;
    match Config::read(alloc, None, &[]) {
        Ok(config) => Ok(Workspace { root, config }),
        Err(ConfigFault::Memory) => Err(WorkspaceFault::Memory),
        Err(ConfigFault::BadKey(_)) => unreachable!(),
    }
}

// The settings that the bytes of a file say.
fn settings(alloc: Global, path: AbsPath, bytes: &[u8]) -> Result<Config, WorkspaceFault>
    requires { length bytes.now ≤ TEXT_LIMIT }
    ensures says { IfOk result (SaysBytes bytes.now) }
    ensures unsaid { IfErr result (Unsaid path bytes.now) }
{
    let node = match read(alloc, bytes) {
        Ok(node) => node,
        Err(fault) => return Err(no_yaml(path, fault)),
    };
    match Config::read(alloc, Some(&node), &[]) {
        Ok(config) => Ok(config),
        Err(ConfigFault::BadKey(key)) => {
            Err(WorkspaceFault::Wrong(path, WorkspaceWhy::BadKey(key)))
        }
        Err(ConfigFault::Memory) => Err(WorkspaceFault::Memory),
    }
}

// The refusal of a file that is no text of the YAML subset.
fn no_yaml(path: AbsPath, fault: YamlFault) -> WorkspaceFault
    ensures { result ≡ of_yaml path fault }
{
    match fault {
        YamlFault::NotUtf8 => WorkspaceFault::Wrong(path, WorkspaceWhy::NotUtf8),
        YamlFault::Line(line, why) => WorkspaceFault::Wrong(path, WorkspaceWhy::Line(line, why)),
        YamlFault::TooDeep => WorkspaceFault::Wrong(path, WorkspaceWhy::TooDeep),
        YamlFault::Memory => WorkspaceFault::Memory,
    }
}
