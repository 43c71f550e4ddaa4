// The texts of paths below a folder, and of links.
ghost use Rattle.std.specs.Prelude.{◌≡◌, ◌≤◌, ◌++◌, ◌∷◌, [], ℕ, List, IfOk, IsTrue, length, string_bytes};
ghost use Rattle.pn_text.specs.declared.limits.TheConstants.{PATH_LIMIT};
ghost use Rattle.pn_text.specs.Path.{Path, is_part, path_text, SpellsAbs, SpellsParts};
ghost use Rattle.pn_text.specs.Name.{modules};
ghost use Rattle.pn_tree.specs.Relatives.{link_text};

use pn_text::{AbsPath, Memory, PathFault, Text};
use std::alloc::{AllocError, Global};

/// The parts of the folder that an instance's package and its links stand in, below the virtual store.
pub fn beside_text(alloc: Global, dir: &str) -> Result<String, AllocError>
    requires { IsTrue (is_part dir.now) }
    ensures { IfOk result (λ t. SpellsParts (string_bytes t) (modules ∷ dir.now ∷ [])) }
{
    below(alloc, dir, "node_modules")
}

/// Parts, and further ones below them.
pub fn below(alloc: Global, front: &str, tail: &str) -> Result<String, AllocError>
    ensures { IfOk result (λ t. (p q : Path) → SpellsParts front.now p → SpellsParts tail.now q → SpellsParts (string_bytes t) (q ++ p)) }
{
    let mut text = String::from_str(alloc, front)?;
    text.push_str("/")?;
    text.push_str(tail)?;
    Ok(text)
}

/// The text of a path below a folder.
pub fn place_text(alloc: Global, folder: &AbsPath, tail: &str) -> Result<String, AllocError>
    ensures { IfOk result (λ t. (x : List ℕ) (q : Path) → SpellsParts tail.now (x ∷ q) → SpellsAbs (string_bytes t) (x ∷ q ++ folder.now)) }
{
    let mut text = String::from_str(alloc, folder.stem())?;
    text.push_str("/")?;
    text.push_str(tail)?;
    Ok(text)
}

/// The text of a link at a place, none where that has more than 4,096 bytes.
pub fn link_text(alloc: Global, place: &str, to: &AbsPath) -> Result<Text, Memory>
    requires { (x : List ℕ) × (q : Path) × SpellsAbs place.now (x ∷ q) }
    ensures { IfOk result (λ t. (q : Path) → SpellsAbs place.now q → t ≡ link_text q to.now) }
{
    match AbsPath::read(alloc, place) {
        Ok(place) => relative(alloc, &place, to),
        Err(PathFault::Long) => Text::of(alloc, ""),
        Err(PathFault::Memory) => Err(Memory),
        Err(PathFault::NotAbsolute) => unreachable!(),
        Err(PathFault::BadPart(_)) => unreachable!(),
    }
}

// The relative path from the folder of a place.
fn relative(alloc: Global, place: &AbsPath, to: &AbsPath) -> Result<Text, Memory>
    requires part { (x : List ℕ) × (q : Path) × (place.now ≡ x ∷ q) }
    requires short { length (path_text place.now) ≤ PATH_LIMIT }
    ensures { IfOk result (λ t. t ≡ link_text place.now to.now) }
{
    match place.parent(alloc)? {
        Some(folder) => to.relative_to(alloc, &folder),
        None => unreachable!(),
    }
}
