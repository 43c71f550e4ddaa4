// The name of a dep path's folder where no other one has it.
ghost use Rattle.std.specs.Prelude.{◌≡◌, IfOk, take};
ghost use Rattle.hex.specs.Hex.{encode_lower};
ghost use Rattle.sha2.specs.Sha256.{sha256};
ghost use Rattle.pn_deppath.specs.Folders.{fitted, plain_name, spelled, spelled_byte, without_last_close};

use pn_text::{ID_LIMIT, Memory};
use sha2::{Digest, Sha256};
use std::alloc::Global;

// A long name begins with so many of its bytes; a `_` and 32 hex digits follow.
const FRONT: usize = 87;

/// The name without an ordinal.
#[tactic(auto, unfolding(crate::specs::Folders::plain_name))]
pub(crate) fn plain_name(alloc: Global, path: &[u8]) -> Result<Vec<u8>, Memory>
    ensures { IfOk result (λ name. name.items ≡ plain_name path.now) }
{
    let name = spelled(alloc, without_last_close(path))?;
    fitted(alloc, path, name)
}

fn without_last_close(path: &[u8]) -> &[u8]
    ensures { result.now ≡ without_last_close path.now }
{
    if path.is_empty() {
        return path;
    }
    let last = path.len() - 1;
    if path[last] == b')' {
        return path.split_at(last).0;
    }
    path
}

// Parentheses become `_`, and two that meet only one; slashes and colons become `+`.
fn spelled(alloc: Global, path: &[u8]) -> Result<Vec<u8>, Memory>
    ensures { IfOk result (λ name. name.items ≡ spelled path.now) }
{
    let mut name = Vec::new(alloc);
    let mut before = 0;
    for b in path {
        if before != b')' || *b != b'(' {
            name.push(spelled_byte(*b))?;
        }
        before = *b;
    }
    Ok(name)
}

fn spelled_byte(b: u8) -> u8
    ensures { result ≡ spelled_byte b }
{
    match b {
        b'(' | b')' => b'_',
        b'/' | b':' => b'+',
        _ => b,
    }
}

// A name that fits into a folder's name.
#[tactic(auto, unfolding(crate::specs::Folders::fitted))]
fn fitted(alloc: Global, path: &[u8], name: Vec<u8>) -> Result<Vec<u8>, Memory>
    ensures { IfOk result (λ v. v.items ≡ fitted path.now name.items) }
{
    if name.len() <= ID_LIMIT {
        return Ok(name);
    }
    let (front, _) = name.split_at(FRONT);
    let mut short = Vec::from_slice(alloc, front)?;
    short.push(b'_')?;
    short.extend_from_slice(&first_digits(path))?;
    Ok(short)
}

/// The first hex digits of the bytes' SHA-256.
pub(crate) fn first_digits(bytes: &[u8]) -> [u8; 32]
    ensures { result ≡ take 32 (encode_lower (sha256 bytes.now)) }
{
    first_32(&digits(bytes))
}

fn digits(bytes: &[u8]) -> [u8; 64]
    ensures { result ≡ encode_lower (sha256 bytes.now) }
{
    let mut hasher = Sha256::new();
    hasher.update(bytes);
    let digest = hasher.finalize();
    let mut digits = [0u8; 64];
    let _ = hex::encode_to_slice(digest.as_slice(), &mut digits);
    digits
}

fn first_32(digits: &[u8; 64]) -> [u8; 32]
    ensures { result ≡ take 32 digits.now }
{
    let mut front = [0u8; 32];
    front.copy_from_slice(&digits[..32]);
    front
}
