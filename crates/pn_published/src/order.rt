// The order of versions.
ghost use Rattle.std.specs.Prelude.{◌≡◌, ◌≤◌, IfOk, map, vec_len};
ghost use Rattle.semver.specs.Identifiers.{parts_of};
ghost use Rattle.pn_published.specs.Versions.{version_cmp, same_version, IsRising, HasSame};

use pn_text::Memory;
use semver::Version;
use std::cmp::Ordering;

/// By precedence, and versions of one precedence by the bytes of their builds.
pub fn version_cmp(a: &Version, b: &Version) -> Ordering
    ensures { result ≡ version_cmp (parts_of a.now) (parts_of b.now) }
{
    let build = a.build.as_str().as_bytes().cmp(b.build.as_str().as_bytes());
    a.cmp_precedence(b).then(build)
}

pub fn same_version(a: &Version, b: &Version) -> bool
    ensures { result ≡ same_version (parts_of a.now) (parts_of b.now) }
{
    version_cmp(a, b).is_eq()
}

/// The versions in order, each once.
pub fn in_order(mut versions: Vec<Version>) -> Result<Vec<Version>, Memory>
    ensures rising { IfOk result (λ v. IsRising (map parts_of v.items)) }
    ensures same { IfOk result (λ v. HasSame (map parts_of versions.items) (map parts_of v.items)) }
    ensures few { IfOk result (λ v. vec_len v ≤ vec_len versions) }
{
    versions.sort_by(|a, b| version_cmp(a, b))?;
    versions.dedup_by(|a, b| same_version(a, b));
    Ok(versions)
}
