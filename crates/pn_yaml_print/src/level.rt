// Where the members of a block map stand.
ghost use Rattle.std.specs.Prelude.{◌≡◌, ◌≤◌};
ghost use Rattle.pn_yaml_print.specs.Levels.{level_of};
ghost use Rattle.pn_yaml_print.specs.Printing.{below, is_flow_key, is_spread_key, spaces};

/// Where the members of a block map stand, which decides where empty lines are.
#[derive(Clone, Copy, PartialEq, Eq)]
pub(crate) enum Level {
    /// In the root.
    Root,
    /// In a map with an empty line before each entry.
    Spread,
    /// In another one.
    Dense,
}

/// A map under this key is printed as a flow.
pub(crate) fn is_flow_key(key: &[u8]) -> bool
    ensures { result ≡ is_flow_key key.now }
{
    key == b"resolution".as_slice()
}

// A map under this key of the root has an empty line before each entry.
fn is_spread_key(key: &[u8]) -> bool
    ensures { result ≡ is_spread_key key.now }
{
    key == b"importers".as_slice()
        || key == b"packages".as_slice()
        || key == b"snapshots".as_slice()
}

/// Where the members of a map under this key stand.
pub(crate) fn below(level: Level, key: &[u8]) -> Level
    ensures { level_of result ≡ below (level_of level) key.now }
{
    if level == Level::Root && is_spread_key(key) {
        Level::Spread
    } else {
        Level::Dense
    }
}

const SPACES: [u8; 128] = [b' '; 128];

/// So many spaces.
pub(crate) fn spaces(count: usize) -> &'static [u8]
    requires { count ≤ 128 }
    ensures { result.now ≡ spaces count }
{
    &SPACES[..count]
}
