// The limits of comparators before their versions are made.
ghost use Rattle.std.specs.Prelude.{◌≡◌, [], ◌∷◌};
ghost use Rattle.pn_ranges.specs.Edges.{limit_of};
ghost use Rattle.pn_ranges.specs.Table.{at_least, before};

use crate::bound::Comparison;

/// A comparison with a version.
#[derive(Clone, Copy)]
pub struct Edge<'a> {
    pub comparison: Comparison,
    pub major: u64,
    pub minor: u64,
    pub patch: u64,
    pub pre: &'a [u8],
}

/// One or two limits, or none.
#[derive(Clone, Copy)]
pub struct Edges<'a> {
    pub low: Option<Edge<'a>>,
    pub high: Option<Edge<'a>>,
}

const ZERO: &[u8] = b"0";

const NONE: &[u8] = b"";

impl<'a> Edge<'a> {
    pub(crate) fn with(
        comparison: Comparison,
        major: u64,
        minor: u64,
        patch: u64,
        pre: &'a [u8],
    ) -> Edge<'a>
        ensures { limit_of result ≡ record { comparison = comparison; major = major; minor = minor; patch = patch; pre = pre.now } }
    {
        Edge {
            comparison,
            major,
            minor,
            patch,
            pre,
        }
    }
}

/// At least this release.
pub(crate) fn at_least<'a>(major: u64, minor: u64, patch: u64) -> Edge<'a>
    ensures { limit_of result ≡ at_least major minor patch [] }
{
    Edge {
        comparison: Comparison::AtLeast,
        major,
        minor,
        patch,
        pre: NONE,
    }
}

/// Below each version and pre-release of these numbers.
pub(crate) fn before<'a>(major: u64, minor: u64, patch: u64) -> Edge<'a>
    ensures { limit_of result ≡ before major minor patch }
{
    Edge {
        comparison: Comparison::Below,
        major,
        minor,
        patch,
        pre: ZERO,
    }
}
