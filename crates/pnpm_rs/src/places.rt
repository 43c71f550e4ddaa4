// The words of the command line, and the folders that a run works in.

use pn_cmd::Status;
use pn_text::{AbsPath, PathFault};
use std::alloc::Global;
use std::env::{self, VarError};
use std::fs;
use std::io::ErrorKind;
use std::rt::{Env, Files};

/// The words behind the program's name. Words that aren't UTF-8 are no command's.
pub fn words<R: Env + Alloc<A = Global>>(rt: &R) -> Result<Vec<String>, Status> {
    let all = match env::args(rt) {
        Ok(all) => all,
        Err(e) if e.kind() == ErrorKind::OutOfMemory => return Err(Status::Memory),
        Err(_) => return Err(Status::Usage),
    };
    let mut words = Vec::new(rt.alloc());
    for word in all.skip(1) {
        if words.push(word).is_err() {
            return Err(Status::Memory);
        }
    }
    Ok(words)
}

/// The real path of the current folder.
pub fn current_folder<R: Env + Alloc<A = Global>>(rt: &R) -> Result<AbsPath, Status> {
    match env::current_dir(rt) {
        Ok(folder) => read_path(rt.alloc(), folder.as_str(), Status::ProjectFault),
        Err(_) => Err(Status::ProjectFault),
    }
}

/// The registry's folder: the environment's `PNPM_RS_REGISTRY`, else `pnpm-rs-registry` in the current
/// folder. It needn't stand.
pub fn registry_folder<R: Env + Files + Alloc<A = Global>>(
    rt: &R,
    place: &AbsPath,
) -> Result<AbsPath, Status> {
    folder(
        rt,
        place,
        "PNPM_RS_REGISTRY",
        "pnpm-rs-registry",
        Status::RegistryFault,
    )
}

/// The store's folder: the environment's `PNPM_RS_STORE`, else `pnpm-rs-store` in the current folder. It
/// needn't stand.
pub fn store_folder<R: Env + Files + Alloc<A = Global>>(
    rt: &R,
    place: &AbsPath,
) -> Result<AbsPath, Status> {
    folder(
        rt,
        place,
        "PNPM_RS_STORE",
        "pnpm-rs-store",
        Status::StoreFault,
    )
}

// The folder that a variable of the environment names, else one in the current folder.
fn folder<R: Env + Files + Alloc<A = Global>>(
    rt: &R,
    place: &AbsPath,
    variable: &str,
    name: &str,
    fault: Status,
) -> Result<AbsPath, Status> {
    match env::var(rt, variable) {
        Ok(text) => named_folder(rt, place, text.as_str(), fault),
        Err(VarError::NotPresent) => below(rt.alloc(), place, name, fault),
        Err(VarError::OutOfMemory) => Err(Status::Memory),
        Err(VarError::NotUnicode) => Err(fault),
    }
}

// The real path of a folder that stands, else the path as it is written.
fn named_folder<R: Files + Alloc<A = Global>>(
    rt: &R,
    place: &AbsPath,
    text: &str,
    fault: Status,
) -> Result<AbsPath, Status> {
    if let Ok(found) = fs::canonicalize(rt, text) {
        return read_path(rt.alloc(), found.as_str(), fault);
    }
    if text.starts_with('/') {
        read_path(rt.alloc(), text, fault)
    } else {
        below(rt.alloc(), place, text, fault)
    }
}

fn below(alloc: Global, place: &AbsPath, text: &str, fault: Status) -> Result<AbsPath, Status> {
    let Ok(mut path) = String::from_str(alloc, place.as_str()) else {
        return Err(Status::Memory);
    };
    if !place.is_root() && path.push_str("/").is_err() {
        return Err(Status::Memory);
    }
    if path.push_str(text).is_err() {
        return Err(Status::Memory);
    }
    read_path(alloc, path.as_str(), fault)
}

fn read_path(alloc: Global, text: &str, fault: Status) -> Result<AbsPath, Status> {
    match AbsPath::read(alloc, text) {
        Ok(path) => Ok(path),
        Err(PathFault::Memory) => Err(Status::Memory),
        Err(_) => Err(fault),
    }
}
