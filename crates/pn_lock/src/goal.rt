// What a dependency leads to, and where it is looked up.

/// A target: the place of a project among the importers, or of a snapshot among the snapshots.
#[derive(Clone, Copy, Debug, PartialEq, Eq)]
pub enum LockGoal {
    Importer(u32),
    Snapshot(u32),
}

/// Where a name is looked up: from the project or the snapshot at that place.
#[derive(Clone, Copy, Debug, PartialEq, Eq)]
pub enum LockAt {
    Importer(u32),
    Snapshot(u32),
}
