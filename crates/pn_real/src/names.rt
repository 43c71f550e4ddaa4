// The names in a folder of the real file system.
ghost use Rattle.std.specs.Prelude.{◌≡◌, IfOk, IsTrue, true, OnOk};
ghost use Rattle.std.specs.List.{All};
ghost use Rattle.pn_text.specs.Path.{is_part};
ghost use Rattle.pn_fs.specs.Calls.{IsEntryName};

use pn_text::{AbsPath, PATH_LIMIT, Text};
use std::alloc::Global;
use std::io::ErrorKind;
use std::rt::Files;
use std::{fs, io};

/// The names of a folder's entries, in byte order. A name that isn't UTF-8, or that makes a path of
/// more than 4,096 bytes, is an error.
pub fn names<R: Files + Alloc<A = Global> + Clone + Drop>(
    rt: &R,
    text: &str,
    folder: &AbsPath,
) -> io::Result<Vec<Text>>
    ensures { IfOk result (λ names. All (IsEntryName folder.now) names.items) }
{
    let mut names = read_names(rt, text)?;
    names.sort()?;
    if all_good(folder, names.as_slice()) {
        Ok(names)
    } else {
        Err(io::Error::from(ErrorKind::InvalidFilename))
    }
}

fn read_names<R: Files + Alloc<A = Global> + Clone + Drop>(
    rt: &R,
    text: &str,
) -> io::Result<Vec<Text>> {
    let mut names = Vec::new(rt.alloc());
    for entry in fs::read_dir(rt, text)? {
        let entry = entry?;
        let Ok(name) = Text::of(rt.alloc(), entry.file_name()) else {
            return Err(io::Error::from(ErrorKind::OutOfMemory));
        };
        names.push(name)?;
    }
    Ok(names)
}

fn all_good(folder: &AbsPath, names: &[Text]) -> bool
    ensures { result ≡ true → All (IsEntryName folder.now) names.now }
{
    for name in names {
        if !is_good(folder, name.as_str()) {
            return false;
        }
    }
    true
}

// Whether a name makes a path with its folder.
fn is_good(folder: &AbsPath, name: &str) -> bool
    ensures { result ≡ true → IsEntryName folder.now name.now }
{
    let is_part = match name.as_bytes() {
        [] | [b'.'] | [b'.', b'.'] => false,
        bytes => !bytes.contains(&b'/'),
    };
    is_part && folder.as_str().len() + 1 + name.len() <= PATH_LIMIT
}
