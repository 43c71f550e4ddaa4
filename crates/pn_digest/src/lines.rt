// The lines of a listing's text.
ghost use Rattle.std.specs.Prelude.{◌≡◌, MatchOption, IfOk, IfErr, List, ℕ, false};
ghost use Rattle.pn_digest.specs.Listing.{IsEntry, IsRelPath, has_feed, line_text, listing_text, rel_text};
ghost use Rattle.pn_digest.specs.ListingFaults.{UnlessSo};
ghost use Rattle.pn_digest.specs.Lines.{AreEntries, AreFileLines, BeginsWithFile, HasParts, IsCut, IsFileLine, IsPathText, TakesFile, line_fault};

use crate::digest::Digest;
use crate::fault::ListingFault;
use pn_text::{PathFault, RelPath};
use std::alloc::Global;

// Two hex digits a byte.
const DIGITS: usize = 128;

/// The files of a text's lines, in their order. Refuses with `NotListing` where some line is no file's.
pub fn files_of(alloc: Global, bytes: &[u8]) -> Result<Vec<(RelPath, Digest)>, ListingFault>
    ensures ok { IfOk result (λ files. bytes.now ≡ listing_text files.items) }
    ensures entries { IfOk result (λ files. AreEntries files.items) }
    ensures refused { IfErr result (UnlessSo (AreFileLines bytes.now)) }
{
    let mut files = Vec::new(alloc);
    let mut rest = bytes;
    'lines: while !rest.is_empty() {
        rest = take_line(alloc, &mut files, rest)?;
    }
    Ok(files)
}

// Takes the file of the first line, and gives what stands behind the line.
fn take_line<'a>(
    alloc: Global,
    files: &mut Vec<(RelPath, Digest)>,
    bytes: &'a [u8],
) -> Result<&'a [u8], ListingFault>
    ensures taken { IfOk result (λ rest. TakesFile files.old.items files.new.items bytes.now rest.now) }
    ensures refused { IfErr result (UnlessSo (BeginsWithFile bytes.now)) }
{
    let Some((line, rest)) = first_line(bytes) else {
        return Err(ListingFault::NotListing);
    };
    let file = file_of(alloc, line)?;
    files.push(file)?;
    Ok(rest)
}

// The first line, and what stands behind its line feed.
fn first_line(bytes: &[u8]) -> Option<(&[u8], &[u8])>
    ensures { MatchOption result (has_feed bytes.now ≡ false) (λ cut. IsCut bytes.now cut.0.now cut.1.now) }
{
    for (i, b) in bytes.iter().enumerate() {
        if *b == b'\n' {
            let (line, _) = bytes.split_at(i);
            let (_, rest) = bytes.split_at(i + 1);
            return Some((line, rest));
        }
    }
    None
}

// The file of a line.
fn file_of(alloc: Global, line: &[u8]) -> Result<(RelPath, Digest), ListingFault>
    ensures ok { IfOk result (λ e. line.now ≡ line_text e) }
    ensures entry { IfOk result (λ e. has_feed line.now ≡ false → IsEntry e) }
    ensures refused { IfErr result (UnlessSo (IsFileLine line.now)) }
{
    let Some((digits, path)) = parts(line) else {
        return Err(ListingFault::NotListing);
    };
    let Some(digest) = Digest::from_hex(digits) else {
        return Err(ListingFault::NotListing);
    };
    let path = path_of(alloc, path)?;
    Ok((path, digest))
}

// What stands before the space of a line and behind it.
fn parts(line: &[u8]) -> Option<(&[u8], &[u8])>
    ensures { MatchOption result ((digits : List ℕ) (path : List ℕ) → HasParts line.now digits path → ⊥) (λ cut. HasParts line.now cut.0.now cut.1.now) }
{
    if line.len() <= DIGITS || line[DIGITS] != b' ' {
        return None;
    }
    let (digits, _) = line.split_at(DIGITS);
    let (_, path) = line.split_at(DIGITS + 1);
    Some((digits, path))
}

fn path_of(alloc: Global, bytes: &[u8]) -> Result<RelPath, ListingFault>
    ensures ok { IfOk result (λ p. bytes.now ≡ rel_text p) }
    ensures path { IfOk result IsRelPath }
    ensures refused { IfErr result (UnlessSo (IsPathText bytes.now)) }
{
    let Ok(text) = str::from_utf8(bytes) else {
        return Err(ListingFault::NotListing);
    };
    match RelPath::read(alloc, text) {
        Ok(path) => {
            // the path is looked at for what is known of its text
            let _ = path.as_str();
            Ok(path)
        }
        Err(fault) => Err(line_fault(fault)),
    }
}

// What the refusal of a path is for its line.
fn line_fault(fault: PathFault) -> ListingFault
    ensures { result ≡ line_fault fault }
{
    match fault {
        PathFault::Memory => ListingFault::Memory,
        PathFault::NotAbsolute | PathFault::BadPart(_) | PathFault::Long => {
            ListingFault::NotListing
        }
    }
}
