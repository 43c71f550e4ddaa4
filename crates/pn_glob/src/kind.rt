// What the patterns of a list match.

/// Whole relative folders, or whole names.
#[derive(Clone, Copy, Debug, PartialEq, Eq)]
pub enum Kind {
    Paths,
    Names,
}
