// The folders that the check works in.

use pn_text::AbsPath;
use std::alloc::Global;
use std::env::{self, VarError};
use std::io::{self, ErrorKind};
use std::rt::Env;

/// A path from `/` on, or from the current folder.
pub fn absolute<R: Env + Alloc<A = Global>>(rt: &R, text: &str) -> io::Result<AbsPath> {
    if text.starts_with('/') {
        return read_path(rt.alloc(), text);
    }
    let place = env::current_dir(rt)?;
    let mut path = String::from_str(rt.alloc(), place.as_str())?;
    if !path.as_str().ends_with('/') {
        path.push_str("/")?;
    }
    path.push_str(text)?;
    read_path(rt.alloc(), path.as_str())
}

/// The store's folder: the environment's `PNPM_RS_STORE`, else `pnpm-rs-store` in the current folder.
pub fn store_folder<R: Env + Alloc<A = Global>>(rt: &R) -> io::Result<AbsPath> {
    match env::var(rt, "PNPM_RS_STORE") {
        Ok(text) => absolute(rt, text.as_str()),
        Err(VarError::NotPresent) => absolute(rt, "pnpm-rs-store"),
        Err(VarError::OutOfMemory) => Err(io::Error::from(ErrorKind::OutOfMemory)),
        Err(VarError::NotUnicode) => Err(io::Error::from(ErrorKind::InvalidData)),
    }
}

fn read_path(alloc: Global, text: &str) -> io::Result<AbsPath> {
    match AbsPath::read(alloc, text) {
        Ok(path) => Ok(path),
        Err(_) => Err(io::Error::from(ErrorKind::InvalidInput)),
    }
}
