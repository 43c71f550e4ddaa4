// Scalars on a line.
ghost use Rattle.std.specs.Prelude.{◌≡◌};
ghost use Rattle.pn_yaml.specs.Outcome.{Gives};
ghost use Rattle.pn_yaml.specs.Reading.{word_of};
ghost use Rattle.pn_yaml.specs.Scalars.{word_at};

use crate::fault::YamlFault;
use crate::node::Scalar;
use crate::plain::plain_at;
use crate::quoted::{double_at, single_at};
use crate::split::behind;
use std::alloc::Global;

/// Where a scalar stands, which decides where a plain one ends.
#[derive(Clone, Copy, PartialEq, Eq)]
pub enum Place {
    /// The value of a key or item of a block.
    Value,
    /// A key of a block.
    Key,
    /// A key or value in a flow.
    Flow,
}

/// A scalar at the front of a text, and what is behind it.
pub(crate) fn word_at<'a>(
    alloc: Global,
    place: Place,
    line: u32,
    text: &'a str,
) -> Result<(Scalar, &'a str), YamlFault>
    ensures { Gives (λ r. (word_of r.0, r.1.now)) result (word_at place line text.now) }
{
    if let Some(inner) = behind(b'\'', text) {
        return single_at(alloc, line, inner);
    }
    if let Some(inner) = behind(b'"', text) {
        return double_at(alloc, line, inner);
    }
    plain_at(alloc, place, line, text)
}
