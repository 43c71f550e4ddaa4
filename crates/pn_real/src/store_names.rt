// The names in the folders of a store.

use pn_digest::Digest;
use std::alloc::Global;
use std::fs::{self, DirEntry};
use std::io::{self, ErrorKind};
use std::rt::Files;

/// The numbers whose folder stands, rising. Other entries are passed over.
pub fn numbers<R: Files + Alloc<A = Global> + Clone + Drop>(
    rt: &R,
    folder: &str,
) -> io::Result<Vec<u32>> {
    let mut all = Vec::new(rt.alloc());
    for entry in fs::read_dir(rt, folder)? {
        let entry = entry?;
        if let Some(k) = number_of(entry.file_name())
            && is_folder(&entry)?
        {
            all.push(k)?;
        }
    }
    all.sort_unstable();
    Ok(all)
}

/// The addresses at which a file stands, in byte order. Other entries are passed over.
pub fn addresses<R: Files + Alloc<A = Global> + Clone + Drop>(
    rt: &R,
    folder: &str,
) -> io::Result<Vec<Digest>> {
    let mut all = Vec::new(rt.alloc());
    for entry in fs::read_dir(rt, folder)? {
        let entry = entry?;
        if entry.file_name().len() == 2 && is_folder(&entry)? {
            take_shard(rt, folder, entry.file_name(), &mut all)?;
        }
    }
    all.sort()?;
    Ok(all)
}

// Adds the addresses of one shard folder.
fn take_shard<R: Files + Alloc<A = Global> + Clone + Drop>(
    rt: &R,
    folder: &str,
    shard: &str,
    all: &mut Vec<Digest>,
) -> io::Result<()> {
    let mut path = String::from_str(rt.alloc(), folder)?;
    path.push_str("/")?;
    path.push_str(shard)?;
    for entry in fs::read_dir(rt, path.as_str())? {
        let entry = entry?;
        let mut digits = String::from_str(rt.alloc(), shard)?;
        digits.push_str(entry.file_name())?;
        if let Some(at) = Digest::from_hex(digits.as_bytes())
            && is_file(&entry)?
        {
            all.push(at)?;
        }
    }
    Ok(())
}

// The number with this name in decimal, without a sign or a leading zero.
fn number_of(name: &str) -> Option<u32> {
    if name.is_empty() || name.len() > 1 && name.starts_with('0') {
        return None;
    }
    let mut number = 0u32;
    for byte in name.as_bytes() {
        let digit = match byte {
            b'0'..=b'9' => u32::from(*byte - b'0'),
            _ => return None,
        };
        number = number.checked_mul(10)?.checked_add(digit)?;
    }
    Some(number)
}

// An entry that is gone meanwhile is neither a folder nor a file.
fn is_folder<R: Files>(entry: &DirEntry<R, Global>) -> io::Result<bool> {
    match entry.file_type() {
        Ok(kind) => Ok(kind.is_dir()),
        Err(e) if e.kind() == ErrorKind::NotFound => Ok(false),
        Err(e) => Err(e),
    }
}

fn is_file<R: Files>(entry: &DirEntry<R, Global>) -> io::Result<bool> {
    match entry.file_type() {
        Ok(kind) => Ok(kind.is_file()),
        Err(e) if e.kind() == ErrorKind::NotFound => Ok(false),
        Err(e) => Err(e),
    }
}
