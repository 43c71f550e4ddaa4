// Where the entries of a store are in its folder.
ghost use Rattle.std.specs.Prelude.{◌≡◌, IfErr};

use pn_digest::Digest;
use pn_storecore::Place;
use pn_text::{AbsPath, DevFault};
use std::alloc::Global;

/// The folder of the numbers.
pub fn temps_folder(alloc: Global, base: &AbsPath) -> Result<String, DevFault>
    ensures { IfErr result (λ e. e ≡ DevFault.Memory) }
{
    let mut path = String::from_str(alloc, base.stem())?;
    path.push_str("/tmp")?;
    Ok(path)
}

/// The folder of a number's temporary files.
pub fn temp_folder(alloc: Global, base: &AbsPath, k: u32) -> Result<String, DevFault>
    ensures { IfErr result (λ e. e ≡ DevFault.Memory) }
{
    let number = format!(in alloc; "{k}")?;
    let mut path = temps_folder(alloc, base)?;
    path.push_str("/")?;
    path.push_str(number.as_str())?;
    Ok(path)
}

/// A temporary file of a number.
pub fn temp_file(alloc: Global, base: &AbsPath, k: u32, n: u32) -> Result<String, DevFault>
    ensures { IfErr result (λ e. e ≡ DevFault.Memory) }
{
    let number = format!(in alloc; "{n}")?;
    let mut path = temp_folder(alloc, base, k)?;
    path.push_str("/")?;
    path.push_str(number.as_str())?;
    Ok(path)
}

/// The folder of a place.
pub fn place_folder(alloc: Global, base: &AbsPath, place: Place) -> Result<String, DevFault>
    ensures { IfErr result (λ e. e ≡ DevFault.Memory) }
{
    let mut path = String::from_str(alloc, base.stem())?;
    path.push_str(match place {
        Place::Files => "/files",
        Place::Listings => "/listings",
    })?;
    Ok(path)
}

/// The folder of a first byte, named by its two hex digits.
pub fn shard_folder(
    alloc: Global,
    base: &AbsPath,
    place: Place,
    first: u8,
) -> Result<String, DevFault>
    ensures { IfErr result (λ e. e ≡ DevFault.Memory) }
{
    let name = hex::encode(alloc, [first])?;
    let mut path = place_folder(alloc, base, place)?;
    path.push_str("/")?;
    path.push_str(name.as_str())?;
    Ok(path)
}

/// The file at an address, named by the 126 hex digits of the other bytes.
pub fn object_file(
    alloc: Global,
    base: &AbsPath,
    place: Place,
    at: &Digest,
) -> Result<String, DevFault>
    ensures { IfErr result (λ e. e ≡ DevFault.Memory) }
{
    let bytes = at.as_bytes();
    let name = hex::encode(alloc, &bytes[1..])?;
    let mut path = shard_folder(alloc, base, place, bytes[0])?;
    path.push_str("/")?;
    path.push_str(name.as_str())?;
    Ok(path)
}
