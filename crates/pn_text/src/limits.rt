// The limits that all crates keep.

/// A path has at most so many bytes.
pub const PATH_LIMIT: usize = 4096;

/// A package's name has at most so many bytes.
pub const NAME_LIMIT: usize = 214;

/// A package's id has at most so many bytes where it names a folder.
pub const ID_LIMIT: usize = 120;

/// A text that is read whole, as a manifest, has at most so many bytes.
pub const TEXT_LIMIT: u64 = 16_777_216;

/// A package's file has at most so many bytes.
pub const FILE_LIMIT: u64 = 268_435_456;

/// A run has at most so many packages.
pub const PACKAGE_LIMIT: usize = 16_384;

/// A package has at most so many entries.
pub const ENTRY_LIMIT: u64 = 4_194_304;

/// Files are read and written in pieces of so many bytes.
pub const PIECE: usize = 65_536;
