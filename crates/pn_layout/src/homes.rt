// Package folders in the virtual store.
ghost use Rattle.std.specs.Prelude.{◌≡◌, ◌++◌, ◌∷◌, [], IfOk, IsTrue, MatchOption, map, codes, string_bytes, true};
ghost use Rattle.pn_text.specs.Ids.{is_id};
ghost use Rattle.pn_text.specs.Path.{is_flat, SpellsAbs};
ghost use Rattle.pn_layout.specs.Store.{plus_for_slash, dir_name, home_of};
ghost use Rattle.pn_layout.specs.Near.{near_home};

use pn_text::{AbsPath, Memory, PATH_LIMIT, PathFault, PkgId};
use std::alloc::{AllocError, Global};

/// A package's folder, or the managed folder where its path is too long.
pub fn home(alloc: Global, modules: &AbsPath, id: &PkgId) -> Result<AbsPath, Memory>
    ensures { IfOk result (λ p. p ≡ near_home modules.now id.now) }
{
    let text = home_text(alloc, modules, id)?;
    if text.len() > PATH_LIMIT {
        return modules.copy(alloc);
    }
    match AbsPath::read(alloc, text.as_str()) {
        Ok(path) => Ok(path),
        Err(PathFault::Memory) => Err(Memory),
        Err(PathFault::Long) => unreachable!(),
        Err(PathFault::NotAbsolute) => unreachable!(),
        Err(PathFault::BadPart(_)) => unreachable!(),
    }
}

// The text of a package folder's path.
fn home_text(alloc: Global, modules: &AbsPath, id: &PkgId) -> Result<String, AllocError>
    ensures { IfOk result (λ t. SpellsAbs (string_bytes t) (home_of modules.now id.now)) }
{
    let dir = dir_text(alloc, id)?;
    way(alloc, modules.stem(), dir.as_str(), id.name().as_str())
}

fn way(alloc: Global, stem: &str, dir: &str, name: &str) -> Result<String, AllocError>
    ensures { IfOk result (λ t. string_bytes t ≡ stem.now ++ codes "/.pnpm/" ++ dir.now ++ codes "/node_modules/" ++ name.now) }
{
    let mut text = String::from_str(alloc, stem)?;
    text.push_str("/.pnpm/")?;
    text.push_str(dir)?;
    text.push_str("/node_modules/")?;
    text.push_str(name)?;
    Ok(text)
}

/// The name of a package's folder in the virtual store.
pub fn dir_text(alloc: Global, id: &PkgId) -> Result<String, AllocError>
    ensures text { IfOk result (λ t. string_bytes t ≡ dir_name id.now) }
    ensures id { is_id id.now ≡ true }
{
    with_plus(alloc, id.as_str())
}

// `+` in place of each slash.
fn with_plus(alloc: Global, text: &str) -> Result<String, AllocError>
    ensures { IfOk result (λ t. string_bytes t ≡ map plus_for_slash text.now) }
{
    let mut all = String::new(alloc);
    let mut rest = text;
    'slashes: while let Some((front, back)) = at_slash(rest) {
        all.push_str(front)?;
        all.push_str("+")?;
        rest = back;
    }
    all.push_str(rest)?;
    Ok(all)
}

// What is before and after the first slash.
fn at_slash(text: &str) -> Option<(&str, &str)>
    ensures { MatchOption result (IsTrue (is_flat text.now)) (λ x. IsTrue (is_flat x.0.now) × (text.now ≡ x.0.now ++ 47 ∷ x.1.now)) }
{
    text.split_once('/')
}
