//! Reads lines of a file's path. Puts each file, and a listing of it alone as `x`, into the store in the folder that
//! `PNPM_RS_STORE` names, else in `pnpm-rs-store` in the current folder, under a number that it claims and releases, and
//! reads both back. Prints for each line the SHA-512 of the file's bytes, their number and the listing's integrity, and `!`
//! with a word where there is no answer: `!path` for what is none, `!claim`, `!file`, `!put`, `!listing`, `!release` and
//! `!read` for a call that was refused, `!other` where something else was read than put, `!memory`.
#![tactic(auto)]

mod places;
mod put;
mod read;

use crate::places::{absolute, store_folder};
use crate::put::{Stored, put};
use crate::read::reads_back;
use pn_fs::ReadFs;
use pn_real::{RealFs, RealStore};
use pn_store::has;
use pn_storecore::StoreDisk;
use pn_text::{AbsPath, Memory, Text};
use std::alloc::Global;
use std::io;

// Puts a file, and looks whether it came back.
fn answer<D: StoreDisk, R: ReadFs>(
    alloc: Global,
    disk: &mut D,
    tree: &mut R,
    path: &AbsPath,
) -> Result<Stored, &'static str> {
    let stored = put(alloc, disk, tree, path)?;
    match has(disk, &stored.at) {
        Ok(true) => {}
        Ok(false) => return Err("!other"),
        Err(_) => return Err("!read"),
    }
    if reads_back(alloc, disk, &stored)? {
        Ok(stored)
    } else {
        Err("!other")
    }
}

// The texts of the digest and of the integrity.
fn texts(alloc: Global, stored: &Stored) -> Result<(Text, Text), Memory> {
    let hex = stored.digest.hex(alloc)?;
    let at = stored.at.print(alloc)?;
    Ok((hex, at))
}

fn main(rt: HostRuntime) -> io::Result<()> {
    let alloc = rt.alloc();
    let folder = store_folder(&rt)?;
    let root = absolute(&rt, "/")?;
    let mut disk = RealStore::new(rt, folder);
    let mut tree = RealFs::new(rt, root);
    for line in rt.lines(alloc) {
        let line = line?;
        let Ok(path) = absolute(&rt, line.as_str()) else {
            println!(rt; "!path")?;
            continue;
        };
        match answer(alloc, &mut disk, &mut tree, &path) {
            Ok(stored) => match texts(alloc, &stored) {
                Ok((hex, at)) => {
                    println!(rt; "{} {} {}", hex.as_str(), stored.length, at.as_str())?;
                }
                Err(_) => println!(rt; "!memory")?,
            },
            Err(word) => println!(rt; "{word}")?,
        }
    }
    Ok(())
}
