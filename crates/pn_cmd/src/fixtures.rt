// Trees from texts, and runs over them.

use crate::run;
use pn_fs::{Body, Fs, Kind, ReadFs, Sink, SureFs, SureSink, try_make};
use pn_memstore::SureStore;
use pn_read::read_small;
use pn_storecore::StoreDisk;
use pn_text::AbsPath;
use std::alloc::Global;
use std::test::Fail;

/// A project that depends on `a`.
pub const PROJECT: &str = r#"/w/package.json {"dependencies":{"a":"1.0.0"}}"#;

/// The package `a`, which depends on `b`.
pub const A: &str = r#"
/a/1.0.0/package.json {"name":"a","version":"1.0.0","dependencies":{"b":"1.0.0"}}
/a/1.0.0/index.js first
"#;

/// The package `b`.
pub const B: &str = r#"
/b/1.0.0/package.json {"name":"b","version":"1.0.0"}
/b/1.0.0/index.js second
"#;

/// How a run over trees in memory ended, and what it left.
#[derive(Drop)]
pub struct Outcome {
    pub code: u8,
    pub project: SureFs,
    pub out: SureSink,
    pub err: SureSink,
}

/// Runs words in `/w`, where the project's tree and the registry have these files.
pub fn run_over(
    alloc: Global,
    words: &str,
    project: &str,
    registry: &str,
) -> Result<Outcome, Fail> {
    let mut tree = SureFs::new(alloc);
    fill(alloc, &mut tree, project)?;
    let mut packages = SureFs::new(alloc);
    fill(alloc, &mut packages, registry)?;
    let mut out = SureSink::new(alloc);
    let mut err = SureSink::new(alloc);
    let code = run_in(
        alloc,
        "/w",
        words,
        &mut tree,
        &mut packages,
        &mut out,
        &mut err,
    )?;
    Ok(Outcome {
        code,
        project: tree,
        out,
        err,
    })
}

/// Runs words in a folder over a store of its own, and answers the status.
pub fn run_in<P: Fs, R: ReadFs, O: Sink, E: Sink>(
    alloc: Global,
    place: &str,
    words: &str,
    project: &mut P,
    registry: &mut R,
    out: &mut O,
    err: &mut E,
) -> Result<u8, Fail> {
    let mut store = SureStore::new(alloc, 1);
    run_on(alloc, place, words, project, registry, &mut store, out, err)
}

/// The same over a store.
pub fn run_on<P: Fs, R: ReadFs, D: StoreDisk, O: Sink, E: Sink>(
    alloc: Global,
    place: &str,
    words: &str,
    project: &mut P,
    registry: &mut R,
    store: &mut D,
    out: &mut O,
    err: &mut E,
) -> Result<u8, Fail> {
    let place = AbsPath::read(alloc, place)?;
    let words = words_of(alloc, words)?;
    let status = run(
        alloc,
        words.as_slice(),
        &place,
        project,
        registry,
        store,
        out,
        err,
    );
    Ok(status.code())
}

fn words_of(alloc: Global, text: &str) -> Result<Vec<String>, Fail> {
    let mut words = Vec::new(alloc);
    for word in text.split_whitespace() {
        words.push(String::from_str(alloc, word)?)?;
    }
    Ok(words)
}

/// Makes files, a path and its bytes a line, with the folders above them.
pub fn fill<P: Fs>(alloc: Global, fs: &mut P, files: &str) -> Result<(), Fail> {
    for line in files.lines() {
        if let Some((path, bytes)) = line.split_once(' ') {
            put_folders(alloc, fs, path)?;
            put_file(alloc, fs, path, bytes)?;
        }
    }
    Ok(())
}

fn put_file<P: Fs>(alloc: Global, fs: &mut P, path: &str, bytes: &str) -> Result<(), Fail> {
    let path = AbsPath::read(alloc, path)?;
    let body = Body::File(Vec::from_slice(alloc, bytes.as_bytes())?);
    if try_make(fs, alloc, &path, &body)? {
        Ok(())
    } else {
        Err(Fail::from("not made"))
    }
}

fn put_folders<P: Fs>(alloc: Global, fs: &mut P, path: &str) -> Result<(), Fail> {
    let mut above = String::new(alloc);
    for part in path.split('/') {
        if !above.is_empty() {
            put_folder(alloc, fs, above.as_str())?;
        }
        if !part.is_empty() {
            above.push_str("/")?;
            above.push_str(part)?;
        }
    }
    Ok(())
}

// Makes a folder where nothing stands.
fn put_folder<P: Fs>(alloc: Global, fs: &mut P, path: &str) -> Result<(), Fail> {
    let path = AbsPath::read(alloc, path)?;
    try_make(fs, alloc, &path, &Body::Folder)?;
    Ok(())
}

/// What stands at a path: a link's text, a file's bytes, or which kind it is of.
pub fn shown<P: ReadFs>(alloc: Global, fs: &mut P, path: &str) -> Result<String, Fail> {
    let path = AbsPath::read(alloc, path)?;
    match fs.kind(&path)? {
        Kind::Absent => Ok(String::from_str(alloc, "nothing")?),
        Kind::Folder => Ok(String::from_str(alloc, "a folder")?),
        Kind::Link => {
            let text = fs.read_link(&path)?;
            let text = text.as_str();
            Ok(format!(in alloc; "to {text}")?)
        }
        Kind::File(_) => {
            let bytes = read_small(alloc, fs, &path, 4096)?;
            Ok(String::from_utf8(bytes)?)
        }
    }
}
