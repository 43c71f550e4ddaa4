// Limits on versions.
ghost use Rattle.std.specs.Prelude.{◌≡◌, ◌++◌, IfOk, IfErr, OnOk, true};
ghost use Rattle.std.specs.List.{list_all, list_any};
ghost use Rattle.semver.specs.Grammar.{is_pre_release};
ghost use Rattle.semver.specs.Identifiers.{parts_of, pre_text};
ghost use Rattle.semver.specs.Parse.{memory_error};
ghost use Rattle.pn_ranges.specs.Edges.{EdgeHasPre, EdgesHavePre, all_limits_of, limit_of, limits_of};
ghost use Rattle.pn_ranges.specs.Limits.{meets, meets_all, names_pre};
ghost use Rattle.pn_ranges.specs.Table.{all_fit, fits};

use crate::edge::{Edge, Edges};
use crate::fault::Stop;
use semver::{BuildMetadata, Prerelease, Version};
use std::alloc::Global;
use std::marker::Model;

/// How a version must compare with a bound's.
#[derive(Clone, Copy, Debug, PartialEq, Eq)]
pub enum Comparison {
    Below,
    AtMost,
    Exactly,
    AtLeast,
    Above,
}

/// A comparison with a version.
#[derive(Drop)]
pub struct Bound {
    comparison: Comparison,
    version: Version,
}

impl Model for Bound {
    ghost use Rattle.semver.specs.Identifiers.{pre_text};
    ghost use Rattle.pn_ranges.specs.Limits.{Limit};

    ghost Value = { Limit };

    ghost view = { λ b. record { comparison = b.comparison; major = b.version.major; minor = b.version.minor; patch = b.version.patch; pre = pre_text b.version.pre } };
}

// The only error is that of memory.
fn prerelease(alloc: Global, bytes: &[u8]) -> Result<Prerelease, semver::Error>
    requires { is_pre_release bytes.now ≡ true }
    ensures ok { IfOk result (λ p. pre_text p ≡ bytes.now) }
    ensures err { IfErr result (λ e. e ≡ memory_error) }
{
    let text = match str::from_utf8(bytes) {
        Ok(text) => text,
        Err(_) => "",
    };
    Prerelease::new(alloc, text)
}

impl Bound {
    /// The only refusal is `Memory`.
    pub(crate) fn of(alloc: Global, edge: &Edge<'_>) -> Result<Bound, Stop>
        requires { is_pre_release edge.now.pre.now ≡ true }
        ensures ok { IfOk result (λ b. b ≡ limit_of edge.now) }
        ensures fits { OnOk result (fits (limit_of edge.now) ≡ true) }
        ensures err { IfErr result (λ s. s ≡ Stop.Memory) }
    {
        let pre = match prerelease(alloc, edge.pre) {
            Ok(pre) => pre,
            Err(_) => return Err(Stop::Memory),
        };
        Ok(Bound {
            comparison: edge.comparison,
            version: Version {
                major: edge.major,
                minor: edge.minor,
                patch: edge.patch,
                pre,
                build: BuildMetadata::empty(),
            },
        })
    }

    /// Whether a version keeps to the bound, by SemVer's precedence.
    pub(crate) fn meets(&self, version: &Version) -> bool
        ensures { result ≡ meets (parts_of version.now) self.now }
    {
        let order = version.cmp_precedence(&self.version);
        match self.comparison {
            Comparison::Below => order.is_lt(),
            Comparison::AtMost => order.is_le(),
            Comparison::Exactly => order.is_eq(),
            Comparison::AtLeast => order.is_ge(),
            Comparison::Above => order.is_gt(),
        }
    }

    /// Whether the bound has a pre-release and the version's three numbers.
    pub(crate) fn names_pre(&self, version: &Version) -> bool
        ensures { result ≡ names_pre (parts_of version.now) self.now }
    {
        !self.version.pre.is_empty()
            && self.version.major == version.major
            && self.version.minor == version.minor
            && self.version.patch == version.patch
    }
}

fn all_meet(bounds: &[Bound], version: &Version) -> bool
    ensures { result ≡ list_all (meets (parts_of version.now)) bounds.now }
{
    bounds.iter().all(|b| b.meets(version))
}

fn some_names_pre(bounds: &[Bound], version: &Version) -> bool
    ensures { result ≡ list_any (names_pre (parts_of version.now)) bounds.now }
{
    bounds.iter().any(|b| b.names_pre(version))
}

/// Whether a version keeps to each bound and, where it has a pre-release, one of them names its numbers with one.
pub(crate) fn meets_all(bounds: &[Bound], version: &Version) -> bool
    ensures { result ≡ meets_all (parts_of version.now) bounds.now }
{
    all_meet(bounds, version) && (version.pre.is_empty() || some_names_pre(bounds, version))
}

fn push_edge(alloc: Global, bounds: &mut Vec<Bound>, edge: &Option<Edge<'_>>) -> Result<(), Stop>
    requires { EdgeHasPre edge.now }
    ensures ok { OnOk result (bounds.new.items ≡ bounds.old.items ++ limits_of edge.now) }
    ensures fit { OnOk result (all_fit (limits_of edge.now) ≡ true) }
    ensures err { IfErr result (λ s. s ≡ Stop.Memory) }
{
    let Some(edge) = edge else {
        return Ok(());
    };
    let bound = Bound::of(alloc, edge)?;
    bounds.push(bound)?;
    Ok(())
}

/// The only refusal is `Memory`.
pub(crate) fn push_edges(
    alloc: Global,
    bounds: &mut Vec<Bound>,
    edges: &Edges<'_>,
) -> Result<(), Stop>
    requires { EdgesHavePre edges.now }
    ensures ok { OnOk result (bounds.new.items ≡ bounds.old.items ++ all_limits_of edges.now) }
    ensures fit { OnOk result (all_fit (all_limits_of edges.now) ≡ true) }
    ensures err { IfErr result (λ s. s ≡ Stop.Memory) }
{
    push_edge(alloc, bounds, &edges.low)?;
    push_edge(alloc, bounds, &edges.high)?;
    Ok(())
}
