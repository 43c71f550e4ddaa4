// Files with their digests, and what a listing asks of them.
ghost use Rattle.std.specs.Prelude.{◌≡◌, MatchOption, IfOk, IsPermutation, IsSortedBy, None};
ghost use Rattle.std.specs.Bool.{MatchBool};
ghost use Rattle.std.specs.List.{Contains};
ghost use Rattle.std.specs.BTreeSet.{contains_text};
ghost use Rattle.std.specs.Ordering.{is_lt, nat_cmp};
ghost use Rattle.std.specs.Cmp.Lexicographic.{slice_cmp};
ghost use Rattle.pn_digest.specs.Digests.{IsDigest};
ghost use Rattle.pn_digest.specs.Listing.{Entry, IsEntry, IsRelPath, IsRising, has_feed, rel_text};
ghost use Rattle.pn_digest.specs.ListingFaults.{IsBadAt, IsTwiceAt, IsFirst, IsNowhere};
ghost use Rattle.pn_digest.specs.Folders.{HasFolders};

use crate::digest::Digest;
use pn_text::{Memory, RelPath};
use std::alloc::Global;
use std::cmp::Ordering;
use std::collections::BTreeSet;

/// The text of a file's path.
pub fn text_of(file: &(RelPath, Digest)) -> &str
    ensures text { result.now ≡ rel_text file.now.0 }
    ensures path { IsRelPath file.now.0 }
    ensures digest { IsDigest file.now.1 }
{
    // the digest is looked at for what is known of its bytes
    let _ = file.1.as_bytes();
    file.0.as_str()
}

/// The first place of a path with a line feed, or of one that is a folder of another.
pub fn first_bad(files: &[(RelPath, Digest)], folders: &BTreeSet<String>) -> Option<usize>
    requires { HasFolders files.now (contains_text folders.now) }
    ensures first { MatchOption result (IsNowhere (IsBadAt files.now)) (IsFirst (IsBadAt files.now)) }
    ensures entries { result ≡ None → (e : Entry) → Contains files.now e → IsEntry e }
{
    for (i, file) in files.iter().enumerate() {
        let text = text_of(file);
        if has_feed(text) || folders.contains(text) {
            return Some(i);
        }
    }
    None
}

/// The first place of a path that stands at an earlier place too.
pub fn first_twice(alloc: Global, files: &[(RelPath, Digest)]) -> Result<Option<usize>, Memory>
    ensures { IfOk result (λ found. MatchOption found (IsNowhere (IsTwiceAt files.now)) (IsFirst (IsTwiceAt files.now))) }
{
    let mut seen = BTreeSet::new(alloc);
    for (i, file) in files.iter().enumerate() {
        let text = String::from_str(alloc, text_of(file))?;
        let is_new = seen.insert(text)?;
        if !is_new {
            return Ok(Some(i));
        }
    }
    Ok(None)
}

/// The files in byte order of their paths.
pub fn in_order(mut files: Vec<(RelPath, Digest)>) -> Result<Vec<(RelPath, Digest)>, Memory>
    ensures permutation { IfOk result (λ sorted. IsPermutation files.items sorted.items) }
    ensures sorted { IfOk result (λ sorted. IsSortedBy (λ a b. is_lt (slice_cmp nat_cmp (rel_text a.0) (rel_text b.0))) sorted.items) }
{
    files.sort_by(|a, b| by_path(a, b))?;
    Ok(files)
}

/// Whether the paths rise in byte order.
pub fn is_rising(files: &[(RelPath, Digest)]) -> bool
    ensures { MatchBool result (IsRising files.now) (IsRising files.now → ⊥) }
{
    files.is_sorted_by(|a, b| by_path(a, b).is_lt())
}

// The byte order of the paths of two files.
fn by_path(a: &(RelPath, Digest), b: &(RelPath, Digest)) -> Ordering
    ensures { result ≡ slice_cmp nat_cmp (rel_text a.now.0) (rel_text b.now.0) }
{
    text_of(a).cmp(text_of(b))
}

fn has_feed(text: &str) -> bool
    ensures { result ≡ has_feed text.now }
{
    text.as_bytes().contains(&b'\n')
}
