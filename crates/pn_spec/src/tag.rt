// Tags, and names of catalogs.
ghost use Rattle.std.specs.Prelude.{◌≡◌};
ghost use Rattle.std.specs.List.{list_all};
ghost use Rattle.pn_text.specs.Name.{is_name_byte};
ghost use Rattle.pn_spec.specs.Tags.{is_letter, is_tag};

/// Whether a text may be a tag: letters, digits, `-`, `.` and `_`, the first a letter.
pub(crate) fn is_tag(text: &[u8]) -> bool
    ensures { result ≡ is_tag text.now }
{
    match text.split_first() {
        Some((first, rest)) => is_letter(*first) && is_plain(rest),
        None => false,
    }
}

/// Whether each byte is a letter, a digit, `-`, `.` or `_`.
pub(crate) fn is_plain(text: &[u8]) -> bool
    ensures { result ≡ list_all is_name_byte text.now }
{
    text.iter().all(|b| is_name_byte(*b))
}

fn is_letter(b: u8) -> bool
    ensures { result ≡ is_letter b }
{
    b'a' <= b && b <= b'z' || b'A' <= b && b <= b'Z'
}

fn is_name_byte(b: u8) -> bool
    ensures { result ≡ is_name_byte b }
{
    is_letter(b) || b'0' <= b && b <= b'9' || b == b'-' || b == b'.' || b == b'_'
}
