// What stands behind `workspace:`.
ghost use Rattle.std.specs.Prelude.{IfOk, IfErr};
ghost use Rattle.pn_spec.specs.Forms.{IsWorkspace, IsWsWant};
ghost use Rattle.pn_spec.specs.Refusals.{FitsNoWorkspace, FitsNoWsWant, Refuses};

use crate::fault::SpecFault;
use crate::parts::{parted, read_name};
use crate::want::read_range;
use pn_ranges::Range;
use pn_text::PkgName;
use std::alloc::Global;

/// A project of the workspace: its name, where that isn't the dependency's, and what is wanted of it.
#[derive(Drop)]
pub struct WsSpec {
    pub name: Option<PkgName>,
    pub want: WsWant,
}

/// What is wanted of a project: any version or none, which `*`, `^` and `~` mean, or a version in a range.
#[derive(Drop)]
pub enum WsWant {
    Any,
    Caret,
    Tilde,
    Range(Range),
}

/// Reads what stands behind `workspace:`.
pub(crate) fn read_workspace(alloc: Global, text: &str) -> Result<WsSpec, SpecFault>
    ensures ok { IfOk result (IsWorkspace text.now) }
    ensures fault { IfErr result (Refuses (FitsNoWorkspace text.now)) }
{
    match parted(text) {
        Some((front, behind)) => {
            let name = read_name(alloc, front)?;
            let want = ws_want(alloc, behind)?;
            Ok(WsSpec {
                name: Some(name),
                want,
            })
        }
        None => {
            let want = ws_want(alloc, text)?;
            Ok(WsSpec { name: None, want })
        }
    }
}

fn ws_want(alloc: Global, text: &str) -> Result<WsWant, SpecFault>
    ensures ok { IfOk result (IsWsWant text.now) }
    ensures fault { IfErr result (Refuses (FitsNoWsWant text.now)) }
{
    match text {
        "*" => Ok(WsWant::Any),
        "^" => Ok(WsWant::Caret),
        "~" => Ok(WsWant::Tilde),
        _ => match read_range(alloc, text)? {
            Some(range) => Ok(WsWant::Range(range)),
            None => Err(SpecFault::Unsupported),
        },
    }
}
