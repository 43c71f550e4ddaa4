// The texts of links from one project to another.
ghost use Rattle.std.specs.Prelude.{◌≡◌, ◌<◌, [], ◌∷◌, IfOk, IfSome, MatchOption, length, option_map, string_bytes};
ghost use Rattle.pn_text.specs.Path.{Path, text_below};
ghost use Rattle.pn_text.specs.Relative.{dots, slashes};
ghost use Rattle.pn_lock_print.specs.FolderParts.{HaveParted, folder_parts, parts_left, parts_of};
ghost use Rattle.pn_lock_print.specs.TargetTexts.{link_text, steps_text, steps_to};

use pn_text::{Memory, Text};
use std::alloc::Global;

/// The text of a link from one project's folder to another.
pub(crate) fn link_text(alloc: Global, from: &str, to: &str) -> Result<Text, Memory>
    ensures { IfOk result (λ text. text ≡ link_text from.now to.now) }
{
    let steps = way(alloc, from, to)?;
    let mut text = String::from_str(alloc, "link:")?;
    text.push_str(behind_slash(steps.as_str()))?;
    Text::of(alloc, text.as_str())
}

// The steps from one folder to another, each behind a slash.
fn way(alloc: Global, from: &str, to: &str) -> Result<String, Memory>
    ensures { IfOk result (λ text. string_bytes text ≡ text_below (steps_to (folder_parts from.now) (folder_parts to.now))) }
{
    let (up, down) = parted(below_root(from), below_root(to));
    let mut steps = steps_up(alloc, up)?;
    match down {
        None => Ok(steps),
        Some(down) => {
            steps.push_str("/")?;
            steps.push_str(down)?;
            Ok(steps)
        }
    }
}

// A folder's text, and none for the root.
#[tactic(auto, using(crate::proofs::PartLemmas::below_parts))]
fn below_root(folder: &str) -> Option<&str>
    ensures { parts_left (option_map (λ t. t.now) result) ≡ folder_parts folder.now }
{
    if folder == "." { None } else { Some(folder) }
}

// What is left of two folders behind the parts that they begin with alike.
fn parted<'a>(from: Option<&'a str>, to: Option<&'a str>) -> (Option<&'a str>, Option<&'a str>)
    ensures same { steps_to (parts_left (option_map (λ t. t.now) result.0)) (parts_left (option_map (λ t. t.now) result.1))
        ≡ steps_to (parts_left (option_map (λ t. t.now) from.entry)) (parts_left (option_map (λ t. t.now) to.entry)) }
    ensures apart { HaveParted (parts_left (option_map (λ t. t.now) result.0)) (parts_left (option_map (λ t. t.now) result.1)) }
{
    let mut up = from;
    let mut down = to;
    'parts: loop {
        let Some(from) = up else {
            return (up, down);
        };
        let Some(to) = down else {
            return (up, down);
        };
        let (x, ups) = first_part(from);
        let (y, downs) = first_part(to);
        if x != y {
            return (up, down);
        }
        up = ups;
        down = downs;
    }
}

// The first part, and what stands behind its slash.
fn first_part(text: &str) -> (&str, Option<&str>)
    ensures parts { parts_of text.now ≡ result.0.now ∷ parts_left (option_map (λ t. t.now) result.1) }
    ensures shorter { IfSome result.1 (λ t. length t.now < length text.now) }
{
    match at_slash(text) {
        Some((part, rest)) => (part, Some(rest)),
        None => (text, None),
    }
}

// What stands before the first slash, and behind it.
fn at_slash(text: &str) -> Option<(&str, &str)>
    ensures { MatchOption result (parts_of text.now ≡ text.now ∷ [])
        (λ x. (parts_of text.now ≡ x.0.now ∷ parts_of x.1.now) × (length x.1.now < length text.now)) }
{
    text.split_once('/')
}

// A step up for each part, behind a slash.
fn steps_up(alloc: Global, folder: Option<&str>) -> Result<String, Memory>
    ensures { IfOk result (λ text. string_bytes text ≡ text_below (dots (length (parts_left (option_map (λ t. t.now) folder.entry))))) }
{
    let Some(folder) = folder else {
        return Ok(String::new(alloc));
    };
    let mut steps = steps_for(alloc, folder.as_bytes())?;
    steps.push_str("/..")?;
    Ok(steps)
}

// A step up for each slash.
fn steps_for(alloc: Global, text: &[u8]) -> Result<String, Memory>
    ensures { IfOk result (λ t. string_bytes t ≡ text_below (dots (slashes text.now))) }
{
    let mut steps = String::new(alloc);
    for b in text {
        if *b == b'/' {
            steps.push_str("/..")?;
        }
    }
    Ok(steps)
}

// Steps without the first slash, or `.` for none.
fn behind_slash(steps: &str) -> &str
    ensures { (p : Path) → steps.now ≡ text_below p → result.now ≡ steps_text p }
{
    match steps.strip_prefix('/') {
        Some(text) => text,
        None => ".",
    }
}
