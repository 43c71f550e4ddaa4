// Lines of a text.
ghost use Rattle.std.specs.Prelude.{◌≡◌, ◌+◌, ◌^◌, ◌≤◌, length};
ghost use Rattle.pn_yaml.specs.Bytes.{indentation, unindented};

/// A line without its end, and its number, counted from 1.
#[derive(Clone, Copy)]
pub struct Line<'a> {
    pub number: u32,
    pub text: &'a str,
    /// How many spaces it begins with.
    pub indent: usize,
    /// What is behind these.
    pub content: &'a str,
    ghost indented: { indent ≡ indentation text.now },
    ghost rest: { content.now ≡ unindented text.now },
}

/// The lines that are left.
#[derive(Clone, Copy)]
pub struct Rows<'a> {
    pub text: &'a str,
    /// The number of the first.
    pub number: u64,
    ghost counted: { number + length text.now ≤ 2 ^ 32 },
}

/// A line, and the lines below it.
#[derive(Clone, Copy)]
pub struct Front<'a> {
    pub line: Line<'a>,
    pub below: Rows<'a>,
}
