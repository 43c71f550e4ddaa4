// Spaces at the front and at the end of a text.
ghost use Rattle.std.specs.Prelude.{◌≡◌, ◌≤◌, ◌++◌, ◌∷◌, ℕ, List, MatchOption, drop, true, false};
ghost use Rattle.pn_yaml.specs.Bytes.{indentation, unindented, trimmed, is_bare};

use crate::split::starts;

/// How many spaces a text begins with.
pub(crate) fn indentation(text: &str) -> usize
    ensures { result ≡ indentation text.now }
{
    for (i, b) in text.as_bytes().iter().enumerate() {
        if *b != b' ' {
            return i;
        }
    }
    text.len()
}

/// A text without some of the spaces that it begins with.
pub(crate) fn behind_spaces(text: &str, count: usize) -> &str
    requires { count ≤ indentation text.now }
    ensures { result.now ≡ drop count text.now }
{
    text.split_at(count).1
}

/// The text without the spaces that it begins with.
pub(crate) fn unindented(text: &str) -> &str
    ensures { result.now ≡ unindented text.now }
{
    behind_spaces(text, indentation(text))
}

/// The text without the spaces that it begins with; none where only a comment is behind them, or nothing.
pub(crate) fn content(text: &str) -> Option<&str>
    ensures { MatchOption result (is_bare text.now ≡ true) (λ r. (is_bare text.now ≡ false) × (r.now ≡ unindented text.now)) }
{
    let rest = unindented(text);
    if rest.is_empty() || starts(b' ', text) && starts(b'#', rest) {
        return None;
    }
    Some(rest)
}

/// Whether a text has nothing but spaces and a comment behind them.
pub(crate) fn is_bare(text: &str) -> bool
    ensures { result ≡ is_bare text.now }
{
    content(text).is_none()
}

/// The text without the spaces at its end.
pub(crate) fn trimmed(text: &str) -> &str
    ensures { result.now ≡ trimmed text.now }
{
    let bytes = text.as_bytes();
    let mut end = bytes.len();
    'spaces: while end > 0 && bytes[end - 1] == b' ' {
        end -= 1;
    }
    text.split_at(end).0
}
