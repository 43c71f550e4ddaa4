// The limit of a lockfile.

/// A lockfile has at most so many bytes.
pub const LOCKFILE_LIMIT: u64 = 67_108_864;
