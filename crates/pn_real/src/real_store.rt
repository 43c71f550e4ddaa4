// A store in a folder of the real file system.
ghost use Rattle.std.specs.Prelude.{◌≡◌, ◌≤◌, IfOk, IfSome, length};
ghost use Rattle.pn_real.specs.Told.{untold_store};

use crate::faults::counted;
use crate::opened::{Opened, append_bytes};
use crate::store_names::{addresses, numbers};
use crate::store_paths::{
    object_file, place_folder, shard_folder, temp_file, temp_folder, temps_folder,
};
use pn_digest::Digest;
use pn_storecore::{Discard, Place, StoreDisk};
use pn_text::{AbsPath, DevFault};
use std::alloc::Global;
use std::fs::File;
use std::io::ErrorKind;
use std::os::unix::fs::FileExt;
use std::rt::Files;
use std::{fs, io};

/// The store in a folder of the real file system, which its first call makes where it doesn't stand. A number is claimed
/// by making its folder, and what is published is moved to its address by one rename. It tells nothing of what it holds.
/// Nothing is forced onto the disk: what a loss of power leaves isn't promised.
#[derive(Drop)]
pub struct RealStore<R: Files<File = File> + Alloc<A = Global> + Clone + Drop> {
    rt: R,
    base: AbsPath,
    ready: bool,
    files: [bool; 256],
    listings: [bool; 256],
    writing: Option<Opened>,
    faults: u64,
}

impl<R: Files<File = File> + Alloc<A = Global> + Clone + Drop> RealStore<R> {
    /// The store in a folder, which needn't stand; the folder above it does.
    pub fn new(rt: R, base: AbsPath) -> Self {
        RealStore {
            rt,
            base,
            ready: false,
            files: [false; 256],
            listings: [false; 256],
            writing: None,
            faults: 0,
        }
    }

    // Whether the folder of a first byte was made.
    fn has_shard(&self, place: Place, first: u8) -> bool {
        match place {
            Place::Files => self.files[first as usize],
            Place::Listings => self.listings[first as usize],
        }
    }

    fn keep_shard(&mut self, place: Place, first: u8)
        ensures { self.new.faults ≡ self.old.faults }
    {
        match place {
            Place::Files => self.files[first as usize] = true,
            Place::Listings => self.listings[first as usize] = true,
        }
    }
}

fn make_folder<R: Files>(rt: &R, path: &str) -> io::Result<()> {
    match fs::create_dir(rt, path) {
        Ok(()) => Ok(()),
        Err(e) if e.kind() == ErrorKind::AlreadyExists => Ok(()),
        Err(e) => Err(e),
    }
}

// Makes the store's folders once, where they don't stand.
fn make_ready<R: Files + Alloc<A = Global>>(
    rt: &R,
    base: &AbsPath,
    ready: &mut bool,
) -> io::Result<()> {
    if *ready {
        return Ok(());
    }
    make_folder(rt, base.as_str())?;
    for name in ["/tmp", "/files", "/listings"] {
        let mut path = String::from_str(rt.alloc(), base.stem())?;
        path.push_str(name)?;
        make_folder(rt, path.as_str())?;
    }
    *ready = true;
    Ok(())
}

// Whether the folder was made; one that stands isn't.
fn claim_folder<R: Files>(rt: &R, path: &str) -> io::Result<bool> {
    match fs::create_dir(rt, path) {
        Ok(()) => Ok(true),
        Err(e) if e.kind() == ErrorKind::AlreadyExists => Ok(false),
        Err(e) => Err(e),
    }
}

// Makes an empty file where none stands, which stays open for the bytes to come.
fn create_file<R: Files<File = File>>(
    rt: &R,
    opened: &mut Option<Opened>,
    path: String,
) -> io::Result<()> {
    *opened = None;
    let file = fs::OpenOptions::new()
        .write(true)
        .create_new(true)
        .open(rt, path.as_str())?;
    *opened = Some(Opened { path, file });
    Ok(())
}

// A piece of a file that stands.
fn piece<R: Files<File = File>>(
    rt: &R,
    path: &str,
    from: u64,
    into: &mut [u8],
) -> io::Result<Option<usize>>
    ensures { IfOk result (λ found. IfSome found (λ n. n ≤ length into.old)) }
{
    let file = match fs::open(rt, path) {
        Ok(file) => file,
        Err(e) if e.kind() == ErrorKind::NotFound => return Ok(None),
        Err(e) => return Err(e),
    };
    match file.read_at(into, from) {
        Ok(count) => Ok(Some(count)),
        Err(e) => Err(e),
    }
}

// What isn't there is gone.
fn gone(done: io::Result<()>) -> io::Result<()> {
    match done {
        Ok(()) => Ok(()),
        Err(e) if e.kind() == ErrorKind::NotFound => Ok(()),
        Err(e) => Err(e),
    }
}

impl<R: Files<File = File> + Alloc<A = Global> + Clone + Drop> StoreDisk for RealStore<R> {
    ghost seen = { λ s. untold_store s.faults };

    fn claim(&mut self, k: u32) -> Result<bool, DevFault> {
        let path = temp_folder(self.rt.alloc(), &self.base, k)?;
        let done = match make_ready(&self.rt, &self.base, &mut self.ready) {
            Ok(()) => claim_folder(&self.rt, path.as_str()),
            Err(e) => Err(e),
        };
        counted(&mut self.faults, done)
    }

    fn create(&mut self, k: u32, n: u32) -> Result<(), DevFault> {
        let path = temp_file(self.rt.alloc(), &self.base, k, n)?;
        let done = create_file(&self.rt, &mut self.writing, path);
        counted(&mut self.faults, done)
    }

    fn append(&mut self, k: u32, n: u32, bytes: &[u8]) -> Result<(), DevFault> {
        let path = temp_file(self.rt.alloc(), &self.base, k, n)?;
        let done = append_bytes(&self.rt, &mut self.writing, path, bytes);
        counted(&mut self.faults, done)
    }

    fn shard(&mut self, place: Place, first: u8) -> Result<(), DevFault> {
        if self.has_shard(place, first) {
            return Ok(());
        }
        let path = shard_folder(self.rt.alloc(), &self.base, place, first)?;
        let done = match make_ready(&self.rt, &self.base, &mut self.ready) {
            Ok(()) => make_folder(&self.rt, path.as_str()),
            Err(e) => Err(e),
        };
        if done.is_ok() {
            self.keep_shard(place, first);
        }
        counted(&mut self.faults, done)
    }

    fn publish_file(&mut self, k: u32, n: u32, at: &Digest) -> Result<(), DevFault> {
        self.writing = None;
        let from = temp_file(self.rt.alloc(), &self.base, k, n)?;
        let to = object_file(self.rt.alloc(), &self.base, Place::Files, at)?;
        counted(
            &mut self.faults,
            fs::rename(&self.rt, from.as_str(), to.as_str()),
        )
    }

    fn publish_listing(&mut self, k: u32, n: u32, at: &Digest) -> Result<(), DevFault> {
        self.writing = None;
        let from = temp_file(self.rt.alloc(), &self.base, k, n)?;
        let to = object_file(self.rt.alloc(), &self.base, Place::Listings, at)?;
        counted(
            &mut self.faults,
            fs::rename(&self.rt, from.as_str(), to.as_str()),
        )
    }

    fn drop_temp(&mut self, k: u32, n: Option<u32>) -> Result<(), DevFault> {
        self.writing = None;
        match n {
            Some(n) => {
                let path = temp_file(self.rt.alloc(), &self.base, k, n)?;
                counted(
                    &mut self.faults,
                    gone(fs::remove_file(&self.rt, path.as_str())),
                )
            }
            None => {
                let path = temp_folder(self.rt.alloc(), &self.base, k)?;
                counted(&mut self.faults, fs::remove_dir(&self.rt, path.as_str()))
            }
        }
    }

    fn read(
        &mut self,
        place: Place,
        at: &Digest,
        from: u64,
        into: &mut [u8],
    ) -> Result<Option<usize>, DevFault> {
        let path = object_file(self.rt.alloc(), &self.base, place, at)?;
        let done = piece(&self.rt, path.as_str(), from, into);
        counted(&mut self.faults, done)
    }

    fn list(&mut self, place: Place) -> Result<Vec<Digest>, DevFault> {
        let path = place_folder(self.rt.alloc(), &self.base, place)?;
        let done = match make_ready(&self.rt, &self.base, &mut self.ready) {
            Ok(()) => addresses(&self.rt, path.as_str()),
            Err(e) => Err(e),
        };
        counted(&mut self.faults, done)
    }

    fn numbers(&mut self) -> Result<Vec<u32>, DevFault> {
        let path = temps_folder(self.rt.alloc(), &self.base)?;
        let done = match make_ready(&self.rt, &self.base, &mut self.ready) {
            Ok(()) => numbers(&self.rt, path.as_str()),
            Err(e) => Err(e),
        };
        counted(&mut self.faults, done)
    }

    fn discard(&mut self, what: Discard) -> Result<(), DevFault> {
        match what {
            Discard::Temp(k) => {
                let path = temp_folder(self.rt.alloc(), &self.base, k)?;
                let done = fs::remove_dir_all(&self.rt, path.as_str());
                counted(&mut self.faults, gone(done))
            }
            Discard::File(at) => {
                let path = object_file(self.rt.alloc(), &self.base, Place::Files, &at)?;
                let done = fs::remove_file(&self.rt, path.as_str());
                counted(&mut self.faults, gone(done))
            }
            Discard::Listing(at) => {
                let path = object_file(self.rt.alloc(), &self.base, Place::Listings, &at)?;
                let done = fs::remove_file(&self.rt, path.as_str());
                counted(&mut self.faults, gone(done))
            }
        }
    }
}
