//! Reads lines of a folder's path, a tab and a package name, and prints for each the path of the package that the name
//! finds from the folder's real path: `-` where it finds none, and `!` with a word where there is no answer: `!line`
//! without a tab, `!path` and `!name` for what is none, `!folder` without a real path, `!fault` where the file system
//! fails, `!memory`.
#![tactic(auto)]

use pn_fs::ReadFs;
use pn_node::{find, real};
use pn_real::RealFs;
use pn_text::{AbsPath, DevFault, NameFault, PathFault, PkgName};
use std::alloc::Global;
use std::io;

fn read_path(alloc: Global, text: &str) -> Result<AbsPath, &'static str> {
    match AbsPath::read(alloc, text) {
        Ok(path) => Ok(path),
        Err(PathFault::Memory) => Err("!memory"),
        Err(_) => Err("!path"),
    }
}

fn read_name(alloc: Global, text: &str) -> Result<PkgName, &'static str> {
    match PkgName::read(alloc, text) {
        Ok(name) => Ok(name),
        Err(NameFault::Memory) => Err("!memory"),
        Err(_) => Err("!name"),
    }
}

fn fault_word(fault: DevFault) -> &'static str {
    match fault {
        DevFault::Failed => "!fault",
        DevFault::Memory => "!memory",
    }
}

fn real_folder<R: ReadFs>(
    alloc: Global,
    fs: &mut R,
    path: &AbsPath,
) -> Result<AbsPath, &'static str> {
    match real(alloc, fs, path) {
        Ok(Some(folder)) => Ok(folder),
        Ok(None) => Err("!folder"),
        Err(fault) => Err(fault_word(fault)),
    }
}

// The package that a name finds, or the word for none.
fn package<R: ReadFs>(
    alloc: Global,
    fs: &mut R,
    from: &str,
    name: &str,
) -> Result<AbsPath, &'static str> {
    let from = read_path(alloc, from)?;
    let name = read_name(alloc, name)?;
    let folder = real_folder(alloc, fs, &from)?;
    match find(alloc, fs, &folder, &name) {
        Ok(Some(found)) => Ok(found),
        Ok(None) => Err("-"),
        Err(fault) => Err(fault_word(fault)),
    }
}

fn answer<R: ReadFs>(alloc: Global, fs: &mut R, line: &str) -> Result<AbsPath, &'static str> {
    match line.split_once('\t') {
        Some((from, name)) => package(alloc, fs, from, name),
        None => Err("!line"),
    }
}

fn main(rt: HostRuntime) -> io::Result<()> {
    let alloc = rt.alloc();
    let root = match AbsPath::read(alloc, "/") {
        Ok(root) => root,
        Err(_) => return Err(io::Error::from(io::ErrorKind::OutOfMemory)),
    };
    let mut fs = RealFs::new(rt, root);
    for line in rt.lines(alloc) {
        let line = line?;
        match answer(alloc, &mut fs, line.as_str()) {
            Ok(found) => {
                let text = found.as_str();
                println!(rt; "{text}")?;
            }
            Err(word) => println!(rt; "{word}")?,
        }
    }
    Ok(())
}
