// The parts of a text between slashes.
ghost use Rattle.std.specs.Prelude.{◌≡◌, ◌≤◌, ◌++◌, IfSome, IsTrue, MatchOption, length};
ghost use Rattle.std.specs.Str.{bytes_eq};
ghost use Rattle.pn_text.specs.Name.{modules, holds_modules};
ghost use Rattle.pn_text.specs.Path.{Path, tail_of, is_flat, is_filled, IsPartsEnd, SpellsParts, HasBadPart};

// Whether a text without a slash is a part.
fn is_good(part: &[u8]) -> bool
    ensures { result ≡ is_filled part.now }
{
    match part {
        [] => false,
        [b'.'] => false,
        [b'.', b'.'] => false,
        _ => true,
    }
}

// The first part, and what stands behind it.
pub fn first_part(text: &[u8]) -> (&[u8], &[u8])
    ensures whole { text.now ≡ result.0.now ++ result.1.now }
    ensures flat { IsTrue (is_flat result.0.now) }
    ensures ends { IsPartsEnd result.1.now }
{
    for (i, b) in text.iter().enumerate() {
        if *b == b'/' {
            return text.split_at(i);
        }
    }
    text.split_at(text.len())
}

// Where the first bad part begins.
pub fn bad_part(text: &[u8]) -> Option<usize>
    ensures within { IfSome result (λ at. at ≤ length text.now) }
    ensures found { MatchOption result ((p : Path) × SpellsParts text.now p) (HasBadPart text.now) }
{
    let mut start = 0;
    'parts: loop {
        let (_, rest) = text.split_at(start);
        let (part, after) = first_part(rest);
        if !is_good(part) {
            return Some(start);
        }
        if after.is_empty() {
            return None;
        }
        start += part.len() + 1;
    }
}

// Whether a part between slashes is `node_modules`.
pub fn holds_modules(parts: &[u8]) -> bool
    ensures { result ≡ holds_modules (tail_of parts.now) }
{
    let mut rest = parts;
    'parts: loop {
        let (part, after) = first_part(rest);
        if is_modules(part) {
            return true;
        }
        match after {
            [_, more @ ..] => rest = more,
            [] => return false,
        }
    }
}

fn is_modules(part: &[u8]) -> bool
    ensures { result ≡ bytes_eq part.now modules }
{
    part == b"node_modules".as_slice()
}
