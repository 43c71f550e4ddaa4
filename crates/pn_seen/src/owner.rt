// Whose manifest it is.

/// Whose manifest it is: a project of the workspace, or a package.
#[derive(Clone, Copy, Debug, PartialEq, Eq)]
pub enum Owner {
    Project,
    Package,
}
