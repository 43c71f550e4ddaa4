// What was put, read back.

use crate::put::Stored;
use pn_digest::Hasher512;
use pn_store::{listing, read_piece};
use pn_storecore::StoreDisk;
use pn_text::PIECE;
use std::alloc::Global;

/// Whether the listing is there, and the file with its bytes.
pub fn reads_back<D: StoreDisk>(
    alloc: Global,
    disk: &mut D,
    stored: &Stored,
) -> Result<bool, &'static str> {
    let listed = match listing(alloc, disk, &stored.at) {
        Ok(Some(listing)) => match listing.as_slice() {
            [(_, digest)] => *digest == stored.digest,
            _ => false,
        },
        Ok(None) => false,
        Err(_) => return Err("!read"),
    };
    if !listed {
        return Ok(false);
    }
    match vec![in alloc; 0u8; PIECE] {
        Ok(mut buffer) => file_is_there(disk, stored, &mut buffer),
        Err(_) => Err("!memory"),
    }
}

fn file_is_there<D: StoreDisk>(
    disk: &mut D,
    stored: &Stored,
    buffer: &mut [u8],
) -> Result<bool, &'static str> {
    if buffer.is_empty() {
        return Ok(false);
    }
    let mut hasher = Hasher512::new();
    let mut from = 0u64;
    for _ in 0..u64::MAX {
        let count = match read_piece(disk, &stored.digest, from, buffer) {
            Ok(Some(count)) => count,
            Ok(None) => return Ok(false),
            Err(_) => return Err("!read"),
        };
        if count == 0 {
            break;
        }
        let (front, _) = buffer.split_at(count);
        hasher.push(front);
        from = from.saturating_add(count as u64);
    }
    Ok(from == stored.length && hasher.end() == stored.digest)
}
