// Places in the lists of a resolution.

/// The place of a project in the list of projects.
#[derive(Clone, Copy, Debug, PartialEq, Eq, PartialOrd, Ord)]
pub struct ProjIx(pub u32);

/// The place of a package in the list of packages.
#[derive(Clone, Copy, Debug, PartialEq, Eq, PartialOrd, Ord)]
pub struct PkgIx(pub u32);

/// The place of an instance, a package with a peer context, in the list of instances.
#[derive(Clone, Copy, Debug, PartialEq, Eq, PartialOrd, Ord)]
pub struct InstIx(pub u32);

/// The place of a peer context in the list of contexts.
#[derive(Clone, Copy, Debug, PartialEq, Eq, PartialOrd, Ord)]
pub struct CtxIx(pub u32);

/// The place of a version in a package's list of versions.
#[derive(Clone, Copy, Debug, PartialEq, Eq, PartialOrd, Ord)]
pub struct VersionIx(pub u32);
