//! The program: makes the real objects, runs the words, and ends with the status.
#![tactic(auto)]

mod places;

use crate::places::{current_folder, registry_folder, store_folder, words};
use pn_cmd::{Status, run, tell};
use pn_real::{RealFs, RealSink, RealStore};
use pn_text::AbsPath;
use std::process::ExitCode;

fn main(rt: HostRuntime) -> ExitCode {
    ExitCode::from(start(rt).code())
}

// Runs the words in the current folder.
fn start(rt: HostRuntime) -> Status {
    let alloc = rt.alloc();
    let mut err = RealSink::new(rt.stderr());
    let words = match words(&rt) {
        Ok(words) => words,
        Err(status) => return tell(alloc, status, &mut err),
    };
    let place = match current_folder(&rt) {
        Ok(place) => place,
        Err(status) => return tell(alloc, status, &mut err),
    };
    let folders = match folders(&rt, &place) {
        Ok(folders) => folders,
        Err(status) => return tell(alloc, status, &mut err),
    };
    let mut out = RealSink::new(rt.stdout());
    let mut project = RealFs::new(rt, folders.root);
    let mut registry = RealFs::new(rt, folders.registry);
    let mut store = RealStore::new(rt, folders.store);
    run(
        alloc,
        words.as_slice(),
        &place,
        &mut project,
        &mut registry,
        &mut store,
        &mut out,
        &mut err,
    )
}

// The folders that are `/` of the project's and the registry's file system, and the store's.
#[derive(Drop)]
struct Roots {
    root: AbsPath,
    registry: AbsPath,
    store: AbsPath,
}

fn folders(rt: &HostRuntime, place: &AbsPath) -> Result<Roots, Status> {
    let Ok(root) = AbsPath::root(rt.alloc()) else {
        return Err(Status::Memory);
    };
    let registry = registry_folder(rt, place)?;
    let store = store_folder(rt, place)?;
    Ok(Roots {
        root,
        registry,
        store,
    })
}
