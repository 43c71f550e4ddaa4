// Listings.
ghost use Rattle.std.specs.Prelude.{◌≡◌, ◌++◌, ◌∷◌, [], IfOk, IfErr, OnOk, IsPermutation, length};
ghost use Rattle.sha2.specs.Sha512.{sha512};
ghost use Rattle.pn_digest.specs.Listing.{IsListing, line_text, listing_text};
ghost use Rattle.pn_digest.specs.ListingFaults.{FilesRefused, BytesRefused};

use crate::digest::Digest;
use crate::fault::ListingFault;
use crate::files::{first_bad, first_twice, in_order, is_rising, text_of};
use crate::folders::folders;
use crate::integrity::Integrity;
use crate::lines::files_of;
use pn_text::{Memory, RelPath};
use std::alloc::Global;
use std::marker::Model;

/// The files of a package, each with its digest, in byte order of their paths. No path stands twice, has a line feed,
/// or is a folder of another one. Contracts see the list of pairs.
#[derive(Drop)]
pub struct Listing {
    files: Vec<(RelPath, Digest)>,
}

impl Model for Listing {
    ghost use Rattle.std.specs.Prelude.{List};
    ghost use Rattle.pn_digest.specs.Listing.{Entry, IsListing};

    ghost Value = { List Entry };

    ghost view = { λ a. a.files.items };

    ghost invariant = { λ a. IsListing a.files.items };
}

impl Listing {
    /// Puts files in order. Refuses with `BadPath` where a path has a line feed or is a folder of another one, then with
    /// `Twice` where one stands at an earlier place too, then with `Memory`; the number is the first such place.
    pub fn of_files(alloc: Global, files: Vec<(RelPath, Digest)>) -> Result<Listing, ListingFault>
        ensures ok { IfOk result (λ listing. IsPermutation files.items listing) }
        ensures listing { IfOk result IsListing }
        ensures refused { IfErr result (FilesRefused files.items) }
    {
        let folders = folders(alloc, files.as_slice())?;
        if let Some(at) = first_bad(files.as_slice(), &folders) {
            return Err(ListingFault::BadPath(at));
        }
        if let Some(at) = first_twice(alloc, files.as_slice())? {
            return Err(ListingFault::Twice(at));
        }
        Ok(listed(in_order(files)?))
    }

    /// Reads a text: `NotListing` exactly where it is no listing's.
    pub fn read(alloc: Global, bytes: &[u8]) -> Result<Listing, ListingFault>
        ensures ok { IfOk result (λ listing. bytes.now ≡ listing_text listing) }
        ensures listing { IfOk result IsListing }
        ensures refused { IfErr result (BytesRefused bytes.now) }
    {
        let files = files_of(alloc, bytes)?;
        if !is_rising(files.as_slice()) {
            return Err(ListingFault::NotListing);
        }
        let folders = folders(alloc, files.as_slice())?;
        if first_bad(files.as_slice(), &folders).is_some() {
            return Err(ListingFault::NotListing);
        }
        Ok(listed(files))
    }

    /// The text, which `read` gives back: a line a file.
    pub fn print(&self, alloc: Global) -> Result<Vec<u8>, Memory>
        ensures { IfOk result (λ text. text.items ≡ listing_text self.now) }
    {
        print_files(alloc, self.as_slice())
    }

    /// The integrity of the text.
    pub fn integrity(&self, alloc: Global) -> Result<Integrity, Memory>
        ensures { IfOk result (λ integrity. integrity ≡ sha512 (listing_text self.now)) }
    {
        let text = self.print(alloc)?;
        Ok(Integrity::of(Digest::of_bytes(text.as_slice())))
    }

    /// The files in order.
    pub fn as_slice(&self) -> &[(RelPath, Digest)]
        ensures files { result.now ≡ self.now }
        ensures listing { IsListing self.now }
    {
        self.files.as_slice()
    }

    /// How many files.
    pub fn len(&self) -> usize
        ensures { result ≡ length self.now }
    {
        self.files.len()
    }
}

fn listed(files: Vec<(RelPath, Digest)>) -> Listing
    requires { IsListing files.items }
    ensures files { result ≡ files.items }
    ensures listing { IsListing result }
{
    Listing { files }
}

fn print_files(alloc: Global, files: &[(RelPath, Digest)]) -> Result<Vec<u8>, Memory>
    ensures { IfOk result (λ text. text.items ≡ listing_text files.now) }
{
    let mut text = Vec::new(alloc);
    for file in files {
        print_line(&mut text, file)?;
    }
    Ok(text)
}

fn print_line(text: &mut Vec<u8>, file: &(RelPath, Digest)) -> Result<(), Memory>
    ensures { OnOk result (text.new.items ≡ text.old.items ++ (line_text file.now ++ 10 ∷ [])) }
{
    text.extend_from_slice(&file.1.hex_digits())?;
    text.push(b' ')?;
    text.extend_from_slice(text_of(file).as_bytes())?;
    text.push(b'\n')?;
    Ok(())
}
