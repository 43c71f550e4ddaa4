// The names of the folders of dep paths.
ghost use Rattle.std.specs.Prelude.{◌≡◌, ◌<◌, ◌^◌, ℕ, List, IfOk, OnOk, Some, bytes_eq, length, map, true};
ghost use Rattle.std.specs.List.{All, IsDistinct, list_all};
ghost use Rattle.std.specs.BTreeMap.{get_by_text};
ghost use Rattle.pn_deppath.specs.Folders.{folder_name, is_ascii};

use crate::names::{next_name, plain_names};
use pn_text::{Memory, Text, sorted};
use std::alloc::Global;
use std::collections::BTreeMap;

/// The name of each dep path's folder. No two of them have the same one.
pub fn folder_names(alloc: Global, paths: &[Text]) -> Result<Vec<Text>, Memory>
    requires few { length paths.now < 2 ^ 32 }
    requires ascii { list_all (list_all is_ascii) paths.now ≡ true }
    requires distinct { IsDistinct bytes_eq paths.now }
    ensures names { IfOk result (λ names. names.items ≡ map (folder_name paths.now) paths.now) }
    ensures distinct { IfOk result (λ names. IsDistinct bytes_eq names.items) }
{
    let mut numbers = plain_names(alloc, paths)?;
    let rising = sorted(copies(alloc, paths)?)?;
    let mut folders = BTreeMap::new(alloc);
    for path in &rising {
        let name = next_name(alloc, paths, &mut numbers, path)?;
        let key = String::from_str(alloc, path.as_str())?;
        folders.insert(key, name)?;
    }
    in_order(alloc, paths, &folders)
}

fn copies(alloc: Global, paths: &[Text]) -> Result<Vec<Text>, Memory>
    ensures { IfOk result (λ v. v.items ≡ paths.now) }
{
    let mut all = Vec::new(alloc);
    for path in paths {
        all.push(path.copy(alloc)?)?;
    }
    Ok(all)
}

// The names of these dep paths, in their order.
fn in_order(
    alloc: Global,
    paths: &[Text],
    folders: &BTreeMap<String, Text>,
) -> Result<Vec<Text>, Memory>
    requires { All (λ p. get_by_text folders.now p ≡ Some (folder_name paths.now p)) paths.now }
    ensures { IfOk result (λ v. v.items ≡ map (folder_name paths.now) paths.now) }
{
    let mut names = Vec::new(alloc);
    for path in paths {
        match folders.get(path.as_str()) {
            Some(name) => names.push(name.copy(alloc)?)?,
            None => unreachable!(),
        }
    }
    Ok(names)
}
