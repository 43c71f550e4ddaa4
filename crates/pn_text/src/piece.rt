// A piece of bytes in memory.
ghost use Rattle.std.specs.Prelude.{◌≡◌, ◌≤◌, ◌<◌, length, take, min};
ghost use Rattle.pn_text.specs.Pieces.{IsPieceOf};

/// Copies the bytes from a place on, as many as there is room for.
pub fn copy_piece(bytes: &[u8], from: u64, into: &mut [u8]) -> usize
    requires { 0 < length into.old }
    ensures within { result ≤ length into.old }
    ensures piece { IsPieceOf bytes.now from into.new result }
{
    let mut start = bytes.len();
    if from < start as u64 {
        start = from as usize;
    }
    let (_, rest) = bytes.split_at(start);
    copy_front(rest, into)
}

/// Copies as many of the bytes as there is room for.
pub fn copy_front(bytes: &[u8], into: &mut [u8]) -> usize
    ensures count { result ≡ min (length bytes.now) (length into.old) }
    ensures came { take result into.new ≡ take result bytes.now }
{
    let count = bytes.len().min(into.len());
    let (front, _) = bytes.split_at(count);
    let (place, _) = into.split_at_mut(count);
    place.copy_from_slice(front);
    count
}
