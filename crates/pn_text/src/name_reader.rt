// The reader that finds the first place where a text leaves the grammar of names.
ghost use Rattle.std.specs.Prelude.{◌≡◌, MatchOption, Some, None, if◌then◌else◌, is_none};
ghost use Rattle.pn_text.specs.Name.{IsName, ends_whole, runs, name_step, is_whole, is_first, is_name_byte, HasBadByte};

/// Where the reader of a name is.
#[derive(Clone, Copy, PartialEq, Eq)]
pub enum State {
    Start,
    Part,
    Scope,
    InScope,
    Slash,
    Second,
}

// The first place where a text leaves the grammar.
pub fn bad_byte(text: &[u8]) -> Option<usize>
    ensures found { MatchOption result (IsName text.now) (HasBadByte text.now) }
    ensures test { ends_whole (runs State.Start text.now) ≡ is_none result }
{
    let mut state = State::Start;
    for (i, b) in text.iter().enumerate() {
        let Some(next) = step(state, *b) else {
            return Some(i);
        };
        state = next;
    }
    if is_end(state) {
        None
    } else {
        Some(text.len())
    }
}

fn step(state: State, b: u8) -> Option<State>
    ensures { result ≡ name_step state b }
{
    match state {
        State::Start if b == b'@' => Some(State::Scope),
        State::Start => on(may_begin(b), State::Part),
        State::Part => on(may_follow(b), State::Part),
        State::Scope => on(may_begin(b), State::InScope),
        State::InScope if b == b'/' => Some(State::Slash),
        State::InScope => on(may_follow(b), State::InScope),
        State::Slash => on(may_begin(b), State::Second),
        State::Second => on(may_follow(b), State::Second),
    }
}

fn on(right: bool, state: State) -> Option<State>
    ensures { result ≡ (if right then Some state else None) }
{
    if right { Some(state) } else { None }
}

fn is_end(state: State) -> bool
    ensures { result ≡ is_whole state }
{
    matches!(state, State::Part | State::Second)
}

fn may_begin(b: u8) -> bool
    ensures { result ≡ is_first b }
{
    b'a' <= b && b <= b'z' || b'A' <= b && b <= b'Z' || b'0' <= b && b <= b'9' || b == b'-'
}

fn may_follow(b: u8) -> bool
    ensures { result ≡ is_name_byte b }
{
    may_begin(b) || b == b'.' || b == b'_'
}
