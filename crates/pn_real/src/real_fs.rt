// The real file system below a folder.
ghost use Rattle.std.specs.Prelude.{◌≡◌, ◌≤◌, IfErr, IfOk, length};
ghost use Rattle.pn_real.specs.Told.{untold_tree, no_tree, no_finite_tree};

use crate::faults::counted;
use crate::names::names;
use crate::opened::{Opened, append_bytes, is_open};
use pn_fs::{Fs, Kind, ReadFs};
use pn_text::{AbsPath, DevFault, Text};
use std::alloc::Global;
use std::fs::File;
use std::io::ErrorKind;
use std::os::unix::fs::{FileExt, symlink};
use std::rt::Files;
use std::{fs, io};

/// The file system whose `/` is a folder of the real one. It tells nothing of what it holds.
#[derive(Drop)]
pub struct RealFs<R: Files<File = File> + Alloc<A = Global> + Clone + Drop> {
    rt: R,
    base: AbsPath,
    reading: Option<Opened>,
    writing: Option<Opened>,
    faults: u64,
}

impl<R: Files<File = File> + Alloc<A = Global> + Clone + Drop> RealFs<R> {
    /// The file system below a folder, which needn't stand.
    pub fn new(rt: R, base: AbsPath) -> Self {
        RealFs {
            rt,
            base,
            reading: None,
            writing: None,
            faults: 0,
        }
    }
}

// The text of the real path.
fn real_text(alloc: Global, base: &AbsPath, path: &AbsPath) -> Result<String, DevFault>
    ensures { IfErr result (λ e. e ≡ DevFault.Memory) }
{
    if base.is_root() {
        return Ok(String::from_str(alloc, path.as_str())?);
    }
    let mut text = String::from_str(alloc, base.as_str())?;
    text.push_str(path.as_str())?;
    Ok(text)
}

fn kind_of<R: Files>(rt: &R, text: &str) -> io::Result<Kind> {
    match fs::symlink_metadata(rt, text) {
        Ok(found) if found.is_dir() => Ok(Kind::Folder),
        Ok(found) if found.is_symlink() => Ok(Kind::Link),
        Ok(found) if found.is_file() => Ok(Kind::File(found.len())),
        Ok(_) => Err(io::Error::from(ErrorKind::InvalidInput)),
        Err(e) if e.kind() == ErrorKind::NotFound => Ok(Kind::Absent),
        Err(e) if e.kind() == ErrorKind::NotADirectory => Ok(Kind::Absent),
        Err(e) => Err(e),
    }
}

fn link_text<R: Files + Alloc<A = Global>>(rt: &R, text: &str) -> io::Result<Text> {
    let found = fs::read_link(rt, text)?;
    match found.as_path().to_str() {
        Some(text) => match Text::of(rt.alloc(), text) {
            Ok(text) => Ok(text),
            Err(_) => Err(io::Error::from(ErrorKind::OutOfMemory)),
        },
        None => Err(io::Error::from(ErrorKind::InvalidData)),
    }
}

fn remove_entry<R: Files>(rt: &R, text: &str) -> io::Result<()> {
    if fs::symlink_metadata(rt, text)?.is_dir() {
        fs::remove_dir(rt, text)
    } else {
        fs::remove_file(rt, text)
    }
}

// Opens a file for reading, where another one is open.
fn reopen<R: Files<File = File>>(
    rt: &R,
    opened: &mut Option<Opened>,
    path: String,
) -> io::Result<()> {
    if is_open(opened, path.as_str()) {
        return Ok(());
    }
    *opened = None;
    let file = fs::open(rt, path.as_str())?;
    *opened = Some(Opened { path, file });
    Ok(())
}

fn piece<R: Files<File = File>>(
    rt: &R,
    opened: &mut Option<Opened>,
    path: String,
    at: u64,
    into: &mut [u8],
) -> io::Result<usize>
    ensures { IfOk result (λ n. n ≤ length into.old) }
{
    reopen(rt, opened, path)?;
    match opened {
        Some(one) => one.file.read_at(into, at),
        None => Err(io::Error::from(ErrorKind::NotFound)),
    }
}

// Makes an empty file, which stays open for the bytes to come.
fn create_file<R: Files<File = File>>(
    rt: &R,
    opened: &mut Option<Opened>,
    path: String,
) -> io::Result<()> {
    *opened = None;
    let file = fs::create(rt, path.as_str())?;
    *opened = Some(Opened { path, file });
    Ok(())
}

impl<R: Files<File = File> + Alloc<A = Global> + Clone + Drop> ReadFs for RealFs<R> {
    ghost seen = { λ s. untold_tree s.faults };

    ghost well_formed = { λ _ t told. no_tree t told };

    ghost finite = { λ _ t told. no_finite_tree t told };

    fn kind(&mut self, path: &AbsPath) -> Result<Kind, DevFault> {
        let text = real_text(self.rt.alloc(), &self.base, path)?;
        counted(&mut self.faults, kind_of(&self.rt, text.as_str()))
    }

    fn list(&mut self, path: &AbsPath) -> Result<Vec<Text>, DevFault> {
        let text = real_text(self.rt.alloc(), &self.base, path)?;
        let done = names(&self.rt, text.as_str(), path);
        counted(&mut self.faults, done)
    }

    fn read_piece(&mut self, path: &AbsPath, at: u64, into: &mut [u8]) -> Result<usize, DevFault> {
        let text = real_text(self.rt.alloc(), &self.base, path)?;
        let done = piece(&self.rt, &mut self.reading, text, at, into);
        counted(&mut self.faults, done)
    }

    fn read_link(&mut self, path: &AbsPath) -> Result<Text, DevFault> {
        let text = real_text(self.rt.alloc(), &self.base, path)?;
        counted(&mut self.faults, link_text(&self.rt, text.as_str()))
    }
}

impl<R: Files<File = File> + Alloc<A = Global> + Clone + Drop> Fs for RealFs<R> {
    fn make_folder(&mut self, path: &AbsPath) -> Result<(), DevFault> {
        let text = real_text(self.rt.alloc(), &self.base, path)?;
        counted(&mut self.faults, fs::create_dir(&self.rt, text.as_str()))
    }

    fn create(&mut self, path: &AbsPath) -> Result<(), DevFault> {
        let text = real_text(self.rt.alloc(), &self.base, path)?;
        let done = create_file(&self.rt, &mut self.writing, text);
        counted(&mut self.faults, done)
    }

    fn append(&mut self, path: &AbsPath, bytes: &[u8]) -> Result<(), DevFault> {
        let text = real_text(self.rt.alloc(), &self.base, path)?;
        let done = append_bytes(&self.rt, &mut self.writing, text, bytes);
        counted(&mut self.faults, done)
    }

    fn link(&mut self, path: &AbsPath, text: &Text) -> Result<(), DevFault> {
        let at = real_text(self.rt.alloc(), &self.base, path)?;
        counted(
            &mut self.faults,
            symlink(&self.rt, text.as_str(), at.as_str()),
        )
    }

    fn rename(&mut self, from: &AbsPath, to: &AbsPath) -> Result<(), DevFault> {
        self.reading = None;
        self.writing = None;
        let from = real_text(self.rt.alloc(), &self.base, from)?;
        let to = real_text(self.rt.alloc(), &self.base, to)?;
        counted(
            &mut self.faults,
            fs::rename(&self.rt, from.as_str(), to.as_str()),
        )
    }

    fn remove(&mut self, path: &AbsPath) -> Result<(), DevFault> {
        self.reading = None;
        self.writing = None;
        let text = real_text(self.rt.alloc(), &self.base, path)?;
        counted(&mut self.faults, remove_entry(&self.rt, text.as_str()))
    }
}
