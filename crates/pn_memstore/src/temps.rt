// Temporary files, in folders by their numbers.
ghost use Rattle.std.specs.Prelude.{◌≡◌, ◌++◌, Some, None, OnOk, OnErr, IfOk};
ghost use Rattle.std.specs.Option.{option_map};
ghost use Rattle.pn_storecore.specs.World.{file_of, put_temp, put_file};
ghost use Rattle.pn_storecore.specs.Steps.{claim_in, dropped_in};
ghost use Rattle.pn_memstore.specs.Maps.{temps_in};
ghost use Rattle.pn_storecore.specs.Calls.{AreNumbersOf};

use crate::folder::Folder;
use pn_storecore::Bytes;
use pn_text::Memory;
use std::alloc::Global;
use std::collections::BTreeMap;

/// Makes the folder of a number, where none stands.
pub fn claim(
    alloc: Global,
    temps: &mut BTreeMap<u32, Folder>,
    who: u64,
    k: u32,
) -> Result<(), Memory>
    ensures ok { OnOk result (temps_in temps.new ≡ claim_in who k (temps_in temps.old) (temps_in temps.old k)) }
    ensures err { OnErr result (temps_in temps.new ≡ temps_in temps.old) }
{
    if temps.contains_key(&k) {
        return Ok(());
    }
    temps.insert(k, Folder::new(alloc, who))?;
    Ok(())
}

/// Leaves a file in a folder, where that stands.
pub fn put(temps: &mut BTreeMap<u32, Folder>, k: u32, n: u32, bytes: Bytes) -> Result<(), Memory>
    ensures ok { OnOk result (temps_in temps.new ≡ put_file (temps_in temps.old) k n (Some bytes)) }
    ensures err { OnErr result (temps_in temps.new ≡ temps_in temps.old) }
{
    match temps.get_mut(&k) {
        Some(folder) => folder.put(n, bytes),
        None => Ok(()),
    }
}

/// Adds bytes to a file, where it stands.
pub fn append(temps: &mut BTreeMap<u32, Folder>, k: u32, n: u32, more: &[u8]) -> Result<(), Memory>
    ensures ok { OnOk result (temps_in temps.new ≡ put_file (temps_in temps.old) k n (option_map (λ bytes. bytes ++ more.now) (file_of (temps_in temps.old) k n))) }
    ensures err { OnErr result (temps_in temps.new ≡ temps_in temps.old) }
{
    match temps.get_mut(&k) {
        Some(folder) => folder.append(n, more),
        None => Ok(()),
    }
}

/// Takes a file away, where it stands.
pub fn take(temps: &mut BTreeMap<u32, Folder>, k: u32, n: u32) -> Option<Bytes>
    ensures bytes { result ≡ file_of (temps_in temps.old) k n }
    ensures gone { temps_in temps.new ≡ put_file (temps_in temps.old) k n None }
{
    match temps.get_mut(&k) {
        Some(folder) => folder.take(n),
        None => None,
    }
}

/// Takes a folder away with its files.
pub fn remove(temps: &mut BTreeMap<u32, Folder>, k: u32)
    ensures { temps_in temps.new ≡ put_temp (temps_in temps.old) k None }
{
    let _ = temps.remove(&k);
}

/// Takes a file of a folder away, where it stands, or the folder.
pub fn drop_temp(temps: &mut BTreeMap<u32, Folder>, k: u32, n: Option<u32>)
    ensures { temps_in temps.new ≡ dropped_in k n (temps_in temps.old) }
{
    match n {
        Some(n) => {
            let _ = take(temps, k, n);
        }
        None => remove(temps, k),
    }
}

/// The numbers whose folder stands, rising.
pub fn numbers(alloc: Global, temps: &BTreeMap<u32, Folder>) -> Result<Vec<u32>, Memory>
    ensures { IfOk result (λ all. AreNumbersOf (temps_in temps.now) all.items) }
{
    let mut all = Vec::new(alloc);
    for k in temps.keys() {
        all.push(*k)?;
    }
    Ok(all)
}
