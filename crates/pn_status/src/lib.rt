//! How a run ends (`Status`), with the exit status of the process (`Status::code`), and what is told of it (`tell`): one line
//! on the error stream for each refusal, nothing where the run is done.
#![tactic(auto)]

mod faults;
mod status;
mod text;

pub use pn_manifest::ManifestWhy;
pub use pn_workspace::WorkspaceWhy;
pub use status::{FileWhy, IntegrityWhy, Status, Which};
pub use text::tell;
