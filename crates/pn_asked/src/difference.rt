// Differences.
use pn_text::Text;

/// Why a lock doesn't fit: there is none; a setting, the selector of an override, the catalog and name of an entry, the folder
/// of a project, or the folder and a name of a dependency, that isn't the same on both sides.
#[derive(Drop)]
pub enum Difference {
    NoLockfile,
    Setting,
    Override(Text),
    Catalog(Text, Text),
    Importer(Text),
    Specifier(Text, Text),
}
