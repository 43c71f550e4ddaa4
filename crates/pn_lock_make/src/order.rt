// Dep paths in byte order.
ghost use Rattle.std.specs.Prelude.{◌≡◌, ◌<◌, ◌^◌, IfOk, bytes_eq, length};
ghost use Rattle.std.specs.List.{IsDistinct};
ghost use Rattle.std.specs.List.Sorted.{IsPermutation};
ghost use Rattle.pn_lock.specs.Kept.{Rises};
ghost use Rattle.pn_lock_make.specs.Targets.{rank, ranks_of};

use pn_text::{Memory, Text, sorted};
use std::alloc::Global;

/// The dep paths in byte order.
pub(crate) fn in_order(alloc: Global, paths: &[Text]) -> Result<Vec<Text>, Memory>
    requires { IsDistinct bytes_eq paths.now }
    ensures rises { IfOk result (λ v. Rises v.items) }
    ensures same { IfOk result (λ v. IsPermutation paths.now v.items) }
{
    sorted(copies(alloc, paths)?)
}

fn copies(alloc: Global, paths: &[Text]) -> Result<Vec<Text>, Memory>
    ensures { IfOk result (λ v. v.items ≡ paths.now) }
{
    let mut all = Vec::new(alloc);
    for path in paths {
        all.push(path.copy(alloc)?)?;
    }
    Ok(all)
}

/// The place of each dep path among those in order.
pub(crate) fn ranks_of(alloc: Global, keys: &[Text], paths: &[Text]) -> Result<Vec<u32>, Memory>
    requires rising { Rises keys.now }
    requires few { length keys.now < 2 ^ 32 }
    ensures { IfOk result (λ v. v.items ≡ ranks_of keys.now paths.now) }
{
    let mut ranks = Vec::new(alloc);
    for path in paths {
        ranks.push(rank(keys, path))?;
    }
    Ok(ranks)
}

fn rank(keys: &[Text], path: &Text) -> u32
    requires rising { Rises keys.now }
    requires few { length keys.now < 2 ^ 32 }
    ensures { result ≡ rank keys.now path.now }
{
    match keys.binary_search(path) {
        Ok(at) => at as u32,
        Err(_) => 0,
    }
}
