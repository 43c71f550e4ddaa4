// Specifiers.
ghost use Rattle.std.specs.Prelude.{◌≡◌, IfOk, IfErr, codes, false};
ghost use Rattle.pn_spec.specs.Forms.{IsCatalog, IsForm, IsSpec};
ghost use Rattle.pn_spec.specs.Refusals.{FitsNoForm, Refuses, SpecRefused};
ghost use Rattle.pn_spec.specs.Tags.{is_catalog};

use crate::alias::read_alias;
use crate::fault::SpecFault;
use crate::parts::trimmed;
use crate::tag::is_plain;
use crate::want::{Want, read_want};
use crate::workspace::{WsSpec, read_workspace};
use pn_ranges::Range;
use pn_text::{PkgName, Text};
use std::alloc::Global;

/// What a manifest says of a dependency: the versions that it wants of the package of its name, or of another package
/// under that name; a project of the workspace; or the entry of a catalog.
#[derive(Drop)]
pub enum Spec {
    Range(Range),
    Tag(Text),
    Alias(PkgName, Want),
    Workspace(WsSpec),
    Catalog(Text),
}

impl Spec {
    /// Reads a specifier. The forms in their order are `workspace:`, `catalog:`, `npm:`, a range and a tag; spaces and
    /// tabs at both ends count for nothing. `Unsupported` is answered where no form fits.
    pub fn read(alloc: Global, text: &str) -> Result<Spec, SpecFault>
        ensures spec { IfOk result (IsSpec text.now) }
        ensures fault { IfErr result (SpecRefused text.now) }
    {
        read_form(alloc, trimmed(text))
    }
}

#[tactic(auto, using(crate::proofs::Ats::workspace_refused, crate::proofs::Ats::catalog_refused, crate::proofs::Ats::alias_refused))]
fn read_form(alloc: Global, text: &str) -> Result<Spec, SpecFault>
    ensures ok { IfOk result (IsForm text.now) }
    ensures fault { IfErr result (Refuses (FitsNoForm text.now)) }
{
    if let Some(rest) = text.strip_prefix("workspace:") {
        return match read_workspace(alloc, rest) {
            Ok(spec) => Ok(Spec::Workspace(spec)),
            Err(fault) => Err(fault),
        };
    }
    if let Some(rest) = text.strip_prefix("catalog:") {
        return match read_catalog(alloc, rest) {
            Ok(name) => Ok(Spec::Catalog(name)),
            Err(fault) => Err(fault),
        };
    }
    if let Some(rest) = text.strip_prefix("npm:") {
        return match read_alias(alloc, rest) {
            Ok((name, want)) => Ok(Spec::Alias(name, want)),
            Err(fault) => Err(fault),
        };
    }
    match read_want(alloc, text)? {
        Want::Range(range) => Ok(Spec::Range(range)),
        Want::Tag(tag) => Ok(Spec::Tag(tag)),
    }
}

// The name of a catalog, which is `default` where none stands.
fn read_catalog(alloc: Global, text: &str) -> Result<Text, SpecFault>
    ensures ok { IfOk result (IsCatalog text.now) }
    ensures fault { IfErr result (Refuses (is_catalog text.now ≡ false)) }
{
    if !is_plain(text.as_bytes()) {
        return Err(SpecFault::Unsupported);
    }
    let name = if text.is_empty() { "default" } else { text };
    let name = Text::of(alloc, name)?;
    Ok(name)
}
