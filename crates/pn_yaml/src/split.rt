// Texts are cut before and behind ASCII bytes.
ghost use Rattle.std.specs.Prelude.{◌≡◌, ◌<◌, ◌++◌, ◌∷◌, ℕ, List, [], MatchOption, true, false};
ghost use Rattle.pn_yaml.specs.Bytes.{starts};
ghost use Rattle.pn_yaml.specs.Cuts.{begins_ascii, is_cut};

/// Whether the text begins with this byte.
pub(crate) fn starts(b: u8, text: &str) -> bool
    ensures { result ≡ starts b text.now }
{
    match text.as_bytes() {
        [c, ..] => *c == b,
        [] => false,
    }
}

/// The first byte, where it is ASCII, and what is behind it.
pub(crate) fn first(text: &str) -> Option<(u8, &str)>
    ensures { MatchOption result (begins_ascii text.now ≡ false) (λ r. (text.now ≡ r.0 ∷ r.1.now) × (r.0 < 128)) }
{
    match text.as_bytes() {
        [b, ..] if *b < 128 => {
            let b = *b;
            Some((b, text.split_at(1).1))
        }
        _ => None,
    }
}

/// What is behind this ASCII byte, where the text begins with it.
pub(crate) fn behind(b: u8, text: &str) -> Option<&str>
    requires { b < 128 }
    ensures { MatchOption result (starts b text.now ≡ false) (λ rest. text.now ≡ b ∷ rest.now) }
{
    if !starts(b, text) {
        return None;
    }
    Some(text.split_at(1).1)
}

/// The text before these bytes at its end, which begin with an ASCII byte or are none, and from there on.
pub(crate) fn split_before<'a>(text: &'a str, rest: &[u8]) -> (&'a str, &'a str)
    requires end { (front : List ℕ) × (text.now ≡ front ++ rest.now) }
    requires cut { is_cut rest.now ≡ true }
    ensures whole { text.now ≡ result.0.now ++ rest.now }
    ensures rest { result.1.now ≡ rest.now }
{
    text.split_at(text.len() - rest.len())
}

/// The first byte and what is behind it.
pub(crate) fn next(bytes: &[u8]) -> Option<(u8, &[u8])>
    ensures { MatchOption result (bytes.now ≡ []) (λ r. bytes.now ≡ r.0 ∷ r.1.now) }
{
    match bytes.split_first() {
        Some((b, rest)) => Some((*b, rest)),
        None => None,
    }
}
