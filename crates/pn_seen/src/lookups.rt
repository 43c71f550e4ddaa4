// Names among dependencies.
ghost use Rattle.std.specs.Prelude.{◌≡◌, ◌++◌};
ghost use Rattle.std.specs.Cmp.Lexicographic.{slice_cmp};
ghost use Rattle.std.specs.Ordering.{nat_cmp};
ghost use Rattle.pn_manifest.specs.Pairs.{names};
ghost use Rattle.pn_manifest.specs.Says.{said_of};
ghost use Rattle.pn_plain.specs.Seen.{dependency_names, is_among, own_names};

use pn_manifest::{Dependencies, Dependency, Manifest};
use pn_text::PkgName;
use std::cmp::Ordering;

/// Whether a dependency has the name.
pub fn has(dependencies: &Dependencies, name: &PkgName) -> bool
    ensures { result ≡ is_among (names dependencies.now) name.now }
{
    dependencies
        .as_slice()
        .binary_search_by(|one| place(one, name))
        .is_ok()
}

// How a dependency's name compares with a name.
fn place(dependency: &Dependency, name: &PkgName) -> Ordering
    ensures { result ≡ slice_cmp nat_cmp dependency.now.name name.now }
{
    dependency.name.cmp(name)
}

/// Whether one of two lists has the name.
pub fn has_either(first: &Dependencies, second: &Dependencies, name: &PkgName) -> bool
    ensures { result ≡ is_among (names first.now ++ names second.now) name.now }
{
    has(first, name) || has(second, name)
}

/// Whether the manifest has a dependency of that name.
pub fn depends_on(manifest: &Manifest, name: &PkgName) -> bool
    ensures { result ≡ is_among (dependency_names (said_of manifest.now)) name.now }
{
    has(&manifest.dependencies, name) || has_either(&manifest.dev, &manifest.optional, name)
}

/// Whether the name is the own one.
pub fn is_own(own: &Option<PkgName>, name: &PkgName) -> bool
    ensures { result ≡ is_among (own_names own.now) name.now }
{
    match own {
        Some(own) => name == own,
        None => false,
    }
}
