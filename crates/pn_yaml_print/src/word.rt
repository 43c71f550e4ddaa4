// How scalars are printed: plain where that is read back as the same text, else in quotes.
ghost use Rattle.std.specs.Prelude.{◌≡◌, ◌==◌, ◌<◌, [], ◌∷◌, ◌++◌, bytes_eq, OnOk};
ghost use Rattle.std.specs.List.{count_by, list_any};
ghost use Rattle.std.specs.Str.{is_utf8};
ghost use Rattle.pn_yaml_print.specs.PlainRun.{begins_number, breaks_plain, stays_plain};
ghost use Rattle.pn_yaml_print.specs.PrintedScalars.{begins_wrong, is_shown, may_be_plain, lower_case, is_keyword, is_numeric, is_ambiguous, is_plain, is_control, doubled, digit_text, escaped_byte, escaped, word_text};

use pn_text::Memory;

fn begins_wrong(text: &[u8]) -> bool
    ensures { result ≡ begins_wrong text.now }
{
    match text.first() {
        None => true,
        Some(b) => b"-?:,[]{}#&*!|>'\"%@` ".contains(b),
    }
}

fn is_shown(b: u8) -> bool
    ensures { result ≡ is_shown b }
{
    b >= b' ' && b <= b'~'
}

// A byte behind another one that keeps a text from being plain.
fn breaks_plain(flow: bool, before: u8, b: u8) -> bool
    ensures { result ≡ breaks_plain flow before b }
{
    !is_shown(b)
        || before == b':' && b == b' '
        || before == b' ' && b == b'#'
        || flow && b",[]{}".contains(&b)
}

fn stays_plain(flow: bool, text: &[u8]) -> bool
    ensures { result ≡ stays_plain flow 0 text.now }
{
    let mut before = 0;
    for b in text {
        if breaks_plain(flow, before, *b) {
            return false;
        }
        before = *b;
    }
    before != b' ' && before != b':'
}

fn may_be_plain(flow: bool, text: &[u8]) -> bool
    ensures { result ≡ may_be_plain flow text.now }
{
    !begins_wrong(text) && stays_plain(flow, text)
}

// Whether the text is this word in some case; the word is in lower case.
fn is_word(text: &[u8], word: &[u8]) -> bool
    requires { lower_case word.now ≡ word.now }
    ensures { result ≡ bytes_eq (lower_case text.now) word.now }
{
    text.eq_ignore_ascii_case(word)
}

fn is_keyword(text: &[u8]) -> bool
    ensures { result ≡ is_keyword text.now }
{
    is_word(text, b"true")
        || is_word(text, b"false")
        || is_word(text, b"null")
        || is_word(text, b"~")
        || is_word(text, b"yes")
        || is_word(text, b"no")
        || is_word(text, b"on")
        || is_word(text, b"off")
}

fn begins_number(text: &[u8]) -> bool
    ensures { result ≡ begins_number text.now }
{
    match text.first() {
        None => false,
        Some(b) => b.is_ascii_digit() || b"+-.".contains(b),
    }
}

fn dots(text: &[u8]) -> usize
    ensures { result ≡ count_by (λ b. b == 46) text.now }
{
    text.iter().filter(|b| **b == b'.').count()
}

fn is_numeric(text: &[u8]) -> bool
    ensures { result ≡ is_numeric text.now }
{
    begins_number(text) && dots(text) < 2
}

fn is_ambiguous(text: &[u8]) -> bool
    ensures { result ≡ is_ambiguous text.now }
{
    text != b".".as_slice() && (is_keyword(text) || is_numeric(text))
}

fn is_plain(flow: bool, text: &[u8], plain: bool) -> bool
    ensures { result ≡ is_plain flow text.now plain }
{
    may_be_plain(flow, text) && (plain || !is_ambiguous(text))
}

fn is_control(b: u8) -> bool
    ensures { result ≡ is_control b }
{
    b < b' ' || b == 127
}

// The bytes of a text in single quotes: each quote stands twice.
fn push_doubled(out: &mut Vec<u8>, text: &[u8]) -> Result<(), Memory>
    ensures { OnOk result (out.new.items ≡ out.old.items ++ doubled text.now) }
{
    for b in text {
        if *b == b'\'' {
            out.push(b'\'')?;
        }
        out.push(*b)?;
    }
    Ok(())
}

fn digit_text(n: u8) -> u8
    requires { n < 16 }
    ensures { result ≡ digit_text n }
{
    if n < 10 { b'0' + n } else { b'a' - 10 + n }
}

fn push_escaped_byte(out: &mut Vec<u8>, b: u8) -> Result<(), Memory>
    ensures { OnOk result (out.new.items ≡ out.old.items ++ escaped_byte b) }
{
    match b {
        b'"' => out.extend_from_slice(b"\\\"")?,
        b'\\' => out.extend_from_slice(b"\\\\")?,
        b'\n' => out.extend_from_slice(b"\\n")?,
        b'\t' => out.extend_from_slice(b"\\t")?,
        b'\r' => out.extend_from_slice(b"\\r")?,
        _ if is_control(b) => {
            out.extend_from_slice(b"\\x")?;
            out.push(digit_text(b / 16))?;
            out.push(digit_text(b % 16))?;
        }
        _ => out.push(b)?,
    }
    Ok(())
}

// The bytes of a text in double quotes.
fn push_escaped(out: &mut Vec<u8>, text: &[u8]) -> Result<(), Memory>
    ensures { OnOk result (out.new.items ≡ out.old.items ++ escaped text.now) }
{
    for b in text {
        push_escaped_byte(out, *b)?;
    }
    Ok(())
}

fn holds_control(text: &[u8]) -> bool
    ensures { result ≡ list_any is_control text.now }
{
    text.iter().any(|b| is_control(*b))
}

fn push_double_quoted(out: &mut Vec<u8>, text: &[u8]) -> Result<(), Memory>
    ensures { OnOk result (out.new.items ≡ out.old.items ++ 34 ∷ (escaped text.now ++ 34 ∷ [])) }
{
    out.push(b'"')?;
    push_escaped(out, text)?;
    out.push(b'"')?;
    Ok(())
}

fn push_single_quoted(out: &mut Vec<u8>, text: &[u8]) -> Result<(), Memory>
    ensures { OnOk result (out.new.items ≡ out.old.items ++ 39 ∷ (doubled text.now ++ 39 ∷ [])) }
{
    out.push(b'\'')?;
    push_doubled(out, text)?;
    out.push(b'\'')?;
    Ok(())
}

/// A scalar, in a flow or outside.
pub(crate) fn push_word(
    out: &mut Vec<u8>,
    flow: bool,
    text: &str,
    plain: bool,
) -> Result<(), Memory>
    ensures text { OnOk result (out.new.items ≡ out.old.items ++ word_text flow text.now plain) }
    ensures utf8 { OnOk result (is_utf8 out.new.items ≡ is_utf8 out.old.items) }
{
    let bytes = text.as_bytes();
    if is_plain(flow, bytes, plain) {
        out.extend_from_slice(bytes)?;
        Ok(())
    } else if holds_control(bytes) {
        push_double_quoted(out, bytes)
    } else {
        push_single_quoted(out, bytes)
    }
}
