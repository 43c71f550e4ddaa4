// What is told of a status.
ghost use Rattle.std.specs.Prelude.{◌≡◌, ◌⊎◌, IfOk, string_bytes, codes, true, false, ◌++◌};
ghost use Rattle.std.specs.Fmt.{decimal};
ghost use Rattle.hex.specs.Hex.{encode_lower};
ghost use Rattle.pn_text.specs.Path.{path_text};
ghost use Rattle.pn_status.specs.Told.{TookSome};
ghost use Rattle.pn_yaml.specs.WhyTexts.{why_text as yaml_text};
ghost use Rattle.pn_status.specs.Texts.{status_line, why_text, space_text, file_text, which_text, edge_text, tail_text, found_text, integrity_text, TellsLine, Tells, OrMemory};

use crate::status::{FileWhy, IntegrityWhy, Status, Which};
use pn_digest::Digest;
use pn_fs::Sink;
use pn_manifest::ManifestWhy;
use pn_text::{AbsPath, DevFault, Edge, RelPath};
use pn_workspace::WorkspaceWhy;
use pn_yaml::Why;
use std::alloc::{AllocError, Global};

/// Tells a refusal. It answers the status, or Memory where there was none to tell a refusal.
pub fn tell<E: Sink>(alloc: Global, status: Status, err: &mut E) -> Status
    ensures same { OrMemory status result }
    ensures told { Tells (OrMemory status) (E.seen err.old) (E.seen err.new) result }
{
    if let Status::Done = &status {
        return status;
    }
    if tell_line(alloc, &status, err) {
        status
    } else {
        Status::Memory
    }
}

// Whether there was memory to tell a refusal.
fn tell_line<E: Sink>(alloc: Global, status: &Status, err: &mut E) -> bool
    ensures told { result ≡ true → TellsLine status.now (E.seen err.old) (E.seen err.new) }
    ensures other { result ≡ false → TookSome (status_line status.now) (E.seen err.old) (E.seen err.new) ⊎ TookSome (status_line Status.Memory) (E.seen err.old) (E.seen err.new) }
{
    let Ok(text) = line_of(alloc, status) else {
        let _ = err.write(b"pnpm-rs: out of memory\n");
        return false;
    };
    match err.write(text.as_bytes()) {
        Ok(()) => true,
        Err(DevFault::Failed) => true,
        Err(DevFault::Memory) => false,
    }
}

fn line_of(alloc: Global, status: &Status) -> Result<String, AllocError>
    ensures { IfOk result (λ s. string_bytes s ≡ status_line status.now) }
{
    match status {
        Status::Done => Ok(String::new(alloc)),
        Status::Memory => String::from_str(alloc, "pnpm-rs: out of memory\n"),
        Status::Usage => String::from_str(alloc, "pnpm-rs: usage: install\n"),
        Status::Manifest(path, why) => manifest_line(alloc, path.as_str(), why),
        Status::NoVersion(edge) => edge_line(alloc, "pnpm-rs: no version: ", " needs ", edge),
        Status::Unsupported(edge) => edge_line(alloc, "pnpm-rs: unsupported: ", " has ", edge),
        Status::Integrity(why) => integrity_line(alloc, why),
        Status::Foreign(path) => foreign_line(alloc, path),
        Status::Limit(which, count) => limit_line(alloc, *which, *count),
        Status::Bundled(id, path) => bundled_line(alloc, id.as_str(), path),
        Status::DigestClash(at) => clash_line(alloc, at),
        Status::ProjectFault => String::from_str(alloc, "pnpm-rs: project fault\n"),
        Status::StoreFault => String::from_str(alloc, "pnpm-rs: store fault\n"),
        Status::RegistryFault => String::from_str(alloc, "pnpm-rs: registry fault\n"),
        Status::SinkFault => String::from_str(alloc, "pnpm-rs: output fault\n"),
        Status::NotYet(text) => {
            let text = text.as_str();
            format!(in alloc; "pnpm-rs: not yet: {text}\n")
        }
    }
}

fn manifest_line(alloc: Global, path: &str, why: &FileWhy) -> Result<String, AllocError>
    ensures { IfOk result (λ s. string_bytes s ≡ codes "pnpm-rs: manifest: " ++ path.now ++ codes ": " ++ file_text why.now) }
{
    let why = file_line(alloc, why)?;
    let mut line = String::from_str(alloc, "pnpm-rs: manifest: ")?;
    line.push_str(path)?;
    line.push_str(": ")?;
    line.push_str(why.as_str())?;
    Ok(line)
}

fn file_line(alloc: Global, why: &FileWhy) -> Result<String, AllocError>
    ensures { IfOk result (λ s. string_bytes s ≡ file_text why.now) }
{
    match why {
        FileWhy::Manifest(why) => why_line(alloc, why),
        FileWhy::Workspace(why) => space_line(alloc, why),
        FileWhy::BadTags => String::from_str(alloc, "bad tags\n"),
    }
}

fn space_line(alloc: Global, why: &WorkspaceWhy) -> Result<String, AllocError>
    ensures { IfOk result (λ s. string_bytes s ≡ space_text why.now) }
{
    match why {
        WorkspaceWhy::NotUtf8 => String::from_str(alloc, "not UTF-8\n"),
        WorkspaceWhy::TooDeep => String::from_str(alloc, "too deep\n"),
        WorkspaceWhy::Line(line, why) => yaml_line(alloc, *line, *why),
        WorkspaceWhy::BadKey(key) => bad_key_line(alloc, key.as_str()),
    }
}

fn yaml_line(alloc: Global, line: u32, why: Why) -> Result<String, AllocError>
    ensures { IfOk result (λ s. string_bytes s ≡ codes "line " ++ decimal line ++ codes ": " ++ yaml_text why ++ codes "\n") }
{
    let mut text = format!(in alloc; "line {line}: ")?;
    text.push_str(why.text())?;
    text.push_str("\n")?;
    Ok(text)
}

fn bad_key_line(alloc: Global, key: &str) -> Result<String, AllocError>
    ensures { IfOk result (λ s. string_bytes s ≡ codes "bad key " ++ key.now ++ codes "\n") }
{
    let mut line = String::from_str(alloc, "bad key ")?;
    line.push_str(key)?;
    line.push_str("\n")?;
    Ok(line)
}

fn why_line(alloc: Global, why: &ManifestWhy) -> Result<String, AllocError>
    ensures { IfOk result (λ s. string_bytes s ≡ why_text why.now) }
{
    match why {
        ManifestWhy::Missing => String::from_str(alloc, "missing\n"),
        ManifestWhy::NotJson => String::from_str(alloc, "not JSON\n"),
        ManifestWhy::BadField(field, key) => bad_field_line(alloc, field.as_str(), key.as_str()),
    }
}

fn bad_field_line(alloc: Global, field: &str, key: &str) -> Result<String, AllocError>
    ensures { IfOk result (λ s. string_bytes s ≡ codes "bad field " ++ field.now ++ codes " " ++ key.now ++ codes "\n") }
{
    let mut line = String::from_str(alloc, "bad field ")?;
    line.push_str(field)?;
    line.push_str(" ")?;
    line.push_str(key)?;
    line.push_str("\n")?;
    Ok(line)
}

fn edge_line(alloc: Global, head: &str, verb: &str, edge: &Edge) -> Result<String, AllocError>
    ensures { IfOk result (λ s. string_bytes s ≡ head.now ++ edge_text verb.now edge.now) }
{
    let edge = edge_words(
        alloc,
        edge.from.as_str(),
        verb,
        edge.alias.as_str(),
        edge.specifier.as_str(),
    )?;
    let mut line = String::from_str(alloc, head)?;
    line.push_str(edge.as_str())?;
    Ok(line)
}

fn edge_words(
    alloc: Global,
    from: &str,
    verb: &str,
    alias: &str,
    specifier: &str,
) -> Result<String, AllocError>
    ensures { IfOk result (λ s. string_bytes s ≡ from.now ++ verb.now ++ alias.now ++ codes "@" ++ specifier.now ++ codes "\n") }
{
    let mut line = String::from_str(alloc, from)?;
    line.push_str(verb)?;
    line.push_str(alias)?;
    line.push_str("@")?;
    line.push_str(specifier)?;
    line.push_str("\n")?;
    Ok(line)
}

fn bundled_line(alloc: Global, id: &str, path: &RelPath) -> Result<String, AllocError>
    ensures { IfOk result (λ s. string_bytes s ≡ codes "pnpm-rs: bundled: " ++ id.now ++ codes " " ++ tail_text path.now ++ codes "\n") }
{
    let path = tail(path);
    let mut line = String::from_str(alloc, "pnpm-rs: bundled: ")?;
    line.push_str(id)?;
    line.push_str(" ")?;
    line.push_str(path)?;
    line.push_str("\n")?;
    Ok(line)
}

fn integrity_line(alloc: Global, why: &IntegrityWhy) -> Result<String, AllocError>
    ensures { IfOk result (λ s. string_bytes s ≡ codes "pnpm-rs: integrity: " ++ integrity_text why.now) }
{
    match why {
        IntegrityWhy::Stored(at, found) => stored_line(alloc, at, found),
    }
}

fn stored_line(alloc: Global, at: &Digest, found: &Option<Digest>) -> Result<String, AllocError>
    ensures { IfOk result (λ s. string_bytes s ≡ codes "pnpm-rs: integrity: " ++ integrity_text (IntegrityWhy.Stored at.now found.now)) }
{
    let at = hex_of(alloc, at)?;
    let found = found_line(alloc, found)?;
    let mut line = String::from_str(alloc, "pnpm-rs: integrity: stored ")?;
    line.push_str(at.as_str())?;
    line.push_str(" is ")?;
    line.push_str(found.as_str())?;
    line.push_str("\n")?;
    Ok(line)
}

fn found_line(alloc: Global, found: &Option<Digest>) -> Result<String, AllocError>
    ensures { IfOk result (λ s. string_bytes s ≡ found_text found.now) }
{
    match found {
        Some(digest) => hex_of(alloc, digest),
        None => String::from_str(alloc, "absent"),
    }
}

fn hex_of(alloc: Global, digest: &Digest) -> Result<String, AllocError>
    ensures { IfOk result (λ s. string_bytes s ≡ encode_lower digest.now) }
{
    match digest.hex(alloc) {
        Ok(hex) => String::from_str(alloc, hex.as_str()),
        Err(_) => Err(AllocError),
    }
}

fn foreign_line(alloc: Global, path: &AbsPath) -> Result<String, AllocError>
    ensures { IfOk result (λ s. string_bytes s ≡ codes "pnpm-rs: foreign: " ++ path_text path.now ++ codes "\n") }
{
    let mut line = String::from_str(alloc, "pnpm-rs: foreign: ")?;
    line.push_str(path.as_str())?;
    line.push_str("\n")?;
    Ok(line)
}

fn clash_line(alloc: Global, at: &Digest) -> Result<String, AllocError>
    ensures { IfOk result (λ s. string_bytes s ≡ codes "pnpm-rs: digest clash: " ++ encode_lower at.now ++ codes "\n") }
{
    let Ok(hex) = at.hex(alloc) else {
        return Err(AllocError);
    };
    let mut line = String::from_str(alloc, "pnpm-rs: digest clash: ")?;
    line.push_str(hex.as_str())?;
    line.push_str("\n")?;
    Ok(line)
}

fn tail(path: &RelPath) -> &str
    ensures { result.now ≡ tail_text path.now }
{
    path.as_str()
}

fn limit_line(alloc: Global, which: Which, count: u64) -> Result<String, AllocError>
    ensures { IfOk result (λ s. string_bytes s ≡ codes "pnpm-rs: limit: " ++ which_text which ++ decimal count ++ codes "\n") }
{
    match which {
        Which::Packages => format!(in alloc; "pnpm-rs: limit: packages {count}\n"),
        Which::File => format!(in alloc; "pnpm-rs: limit: file {count}\n"),
        Which::Text => format!(in alloc; "pnpm-rs: limit: text {count}\n"),
        Which::Path => format!(in alloc; "pnpm-rs: limit: path {count}\n"),
        Which::Entries => format!(in alloc; "pnpm-rs: limit: entries {count}\n"),
        Which::Numbers => format!(in alloc; "pnpm-rs: limit: numbers {count}\n"),
    }
}
