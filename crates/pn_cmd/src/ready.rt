// What is known before anything of the project is written.
use pn_digest::{Listing, PlannedTree};
use pn_package::{Links, Package};
use pn_scan::Scan;
use pn_text::AbsPath;

/// The managed folder, and what stands at and below it.
#[derive(Drop)]
pub struct Scanned {
    pub modules: AbsPath,
    pub scan: Scan,
}

/// What the trees say: the managed folder, the project's links, and the packages, in byte order of ids.
#[derive(Drop)]
pub struct Gathered {
    pub modules: AbsPath,
    pub scan: Scan,
    pub direct: Links,
    pub packages: Vec<Package>,
}

/// What is about to be written: the listings of the packages, which are in the store, and the tree that they make.
#[derive(Drop)]
pub struct Ready {
    pub listings: Vec<Listing>,
    pub plan: PlannedTree,
}
