// Lists of patterns.
ghost use Rattle.std.specs.Prelude.{◌≡◌, IfOk, IfErr};
ghost use Rattle.pn_yaml.specs.View.{view};
ghost use Rattle.pn_config.specs.Faults.{Stops};
ghost use Rattle.pn_config.specs.Settings.{SaysNames, SaysNoNames, SaysNoPaths, SaysPaths, all_names, no_names, no_paths};

use crate::fault::Stop;
use crate::value::texts;
use pn_glob::{GlobFault, PatternList};
use pn_text::{Memory, Text};
use pn_yaml::Node;
use sqlite_items::Items;
use std::alloc::Global;

/// Patterns of paths.
pub(crate) fn paths(alloc: Global, value: &Node) -> Result<PatternList, Stop>
    ensures ok { IfOk result (SaysPaths (view value.now)) }
    ensures fault { IfErr result (Stops (SaysNoPaths (view value.now))) }
{
    let texts = texts(alloc, value)?;
    match PatternList::paths(alloc, texts.as_slice()) {
        Ok(patterns) => Ok(patterns),
        Err(GlobFault::Memory) => Err(Stop::Memory),
        Err(_) => Err(Stop::Bad),
    }
}

/// Patterns of names.
pub(crate) fn names(alloc: Global, value: &Node) -> Result<PatternList, Stop>
    ensures ok { IfOk result (SaysNames (view value.now)) }
    ensures fault { IfErr result (Stops (SaysNoNames (view value.now))) }
{
    let texts = texts(alloc, value)?;
    match PatternList::names(alloc, texts.as_slice()) {
        Ok(patterns) => Ok(patterns),
        Err(GlobFault::Memory) => Err(Stop::Memory),
        Err(_) => Err(Stop::Bad),
    }
}

/// No patterns of paths.
pub(crate) fn no_paths(alloc: Global) -> Result<PatternList, Memory>
    ensures { IfOk result (λ l. l ≡ no_paths) }
{
    match PatternList::paths(alloc, &[]) {
        Ok(patterns) => Ok(patterns),
        Err(_) => Err(Memory),
    }
}

/// No patterns of names.
pub(crate) fn no_names(alloc: Global) -> Result<PatternList, Memory>
    ensures { IfOk result (λ l. l ≡ no_names) }
{
    match PatternList::names(alloc, &[]) {
        Ok(patterns) => Ok(patterns),
        Err(_) => Err(Memory),
    }
}

/// The pattern `*` of names.
pub(crate) fn all_names(alloc: Global) -> Result<PatternList, Memory>
    ensures { IfOk result (λ l. l ≡ all_names) }
{
    let mut texts = Items::new(alloc);
    texts.push(Text::of(alloc, "*")?)?;
    match PatternList::names(alloc, texts.as_slice()) {
        Ok(patterns) => Ok(patterns),
        Err(_) => Err(Memory),
    }
}
