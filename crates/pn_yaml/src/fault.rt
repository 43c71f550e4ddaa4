// The refusals.
ghost use Rattle.std.specs.Prelude.{◌≡◌};
ghost use Rattle.pn_yaml.specs.declared.fault.YamlFault.TheVariants.{Memory as no_memory};
ghost use Rattle.pn_yaml.specs.WhyTexts.{why_text};

use pn_text::Memory;
use std::alloc::{AllocError, AllocFailed};
use thiserror::Error;

/// What is wrong with a line.
#[derive(Clone, Copy, Debug, Error, PartialEq, Eq)]
#[error("{}", self.text())]
pub enum Why {
    /// A tab stands in the indentation.
    Tab,
    /// The line goes on with no block that is open.
    Indent,
    /// No key stands where one must.
    Key,
    /// A quote isn't closed, or bytes stand behind a closed one.
    Quote,
    /// A backslash begins no escape.
    Escape,
    /// A flow isn't closed, or has a wrong byte.
    Flow,
    /// The map has the key already.
    Twice,
    /// A form of YAML that isn't read: an anchor, an alias, a tag, a directive, an explicit key, a second document.
    LeftOut,
}

impl Why {
    /// What is told of the line.
    pub fn text(self) -> &'static str
        ensures { result.now ≡ why_text self }
    {
        match self {
            Why::Tab => "tab",
            Why::Indent => "indentation",
            Why::Key => "key",
            Why::Quote => "quote",
            Why::Escape => "escape",
            Why::Flow => "flow",
            Why::Twice => "key twice",
            Why::LeftOut => "left out",
        }
    }
}

/// Why bytes are no text of the subset.
#[derive(Clone, Copy, Debug, Error, PartialEq, Eq)]
pub enum YamlFault {
    /// The bytes are no UTF-8.
    #[error("not UTF-8")]
    NotUtf8,
    /// The first line at fault, counted from 1.
    #[error("line {0}: {1}")]
    Line(u32, Why),
    /// Scalars, lists and maps are nested more than 64 deep.
    #[error("more than 64 levels")]
    TooDeep,
    #[error("out of memory")]
    Memory,
}

impl From<AllocError> for YamlFault {
    ghost from_gives = { λ _ e. e ≡ no_memory };

    fn from(_: AllocError) -> Self {
        YamlFault::Memory
    }
}

impl<T: Drop> From<AllocFailed<T>> for YamlFault {
    ghost from_gives = { λ _ e. e ≡ no_memory };

    fn from(_: AllocFailed<T>) -> Self {
        YamlFault::Memory
    }
}

impl From<Memory> for YamlFault {
    ghost from_gives = { λ _ e. e ≡ no_memory };

    fn from(_: Memory) -> Self {
        YamlFault::Memory
    }
}
