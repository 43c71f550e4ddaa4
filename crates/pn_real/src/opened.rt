// A file that stays open for the calls to come.

use std::fs::{self, File};
use std::io::{self, ErrorKind, Write};
use std::rt::Files;

/// A file, and the path that it was opened by.
#[derive(Drop)]
pub struct Opened {
    pub path: String,
    pub file: File,
}

/// Whether this path's file is open.
pub fn is_open(opened: &Option<Opened>, path: &str) -> bool {
    match opened {
        Some(one) => one.path.as_str() == path,
        None => false,
    }
}

/// Adds bytes to a file, which is opened where another one is open.
pub fn append_bytes<R: Files<File = File>>(
    rt: &R,
    opened: &mut Option<Opened>,
    path: String,
    bytes: &[u8],
) -> io::Result<()> {
    if !is_open(opened, path.as_str()) {
        *opened = None;
        let file = fs::OpenOptions::new().append(true).open(rt, path.as_str())?;
        *opened = Some(Opened { path, file });
    }
    match opened {
        Some(one) => one.file.write_all(bytes),
        None => Err(io::Error::from(ErrorKind::NotFound)),
    }
}
