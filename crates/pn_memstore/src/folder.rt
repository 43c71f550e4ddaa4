// A folder of temporary files.
ghost use Rattle.std.specs.Prelude.{◌≡◌, ◌++◌, Some, None, OnOk, OnErr};
ghost use Rattle.std.specs.Option.{option_map};
ghost use Rattle.pn_storecore.specs.World.{claimed_by, with_file};

use pn_storecore::Bytes;
use pn_text::Memory;
use std::alloc::Global;
use std::collections::BTreeMap;

/// A folder of temporary files, each under its number.
#[derive(Drop)]
pub struct Folder {
    pub owner: u64,
    pub files: BTreeMap<u32, Bytes>,
}

impl Folder {
    ghost use Rattle.pn_memstore.specs.Maps.{temp_in};

    /// An installer's folder without files.
    pub fn new(alloc: Global, owner: u64) -> Folder
        ensures { temp_in result ≡ claimed_by owner }
    {
        Folder {
            owner,
            files: BTreeMap::new(alloc),
        }
    }

    /// Leaves a file.
    pub fn put(&mut self, n: u32, bytes: Bytes) -> Result<(), Memory>
        ensures ok { OnOk result (temp_in self.new ≡ with_file n (Some bytes) (temp_in self.old)) }
        ensures err { OnErr result (temp_in self.new ≡ temp_in self.old) }
    {
        self.files.insert(n, bytes)?;
        Ok(())
    }

    /// Adds bytes to a file, where it stands.
    pub fn append(&mut self, n: u32, more: &[u8]) -> Result<(), Memory>
        ensures ok { OnOk result (temp_in self.new ≡ with_file n (option_map (λ bytes. bytes ++ more.now) ((temp_in self.old).files n)) (temp_in self.old)) }
        ensures err { OnErr result (temp_in self.new ≡ temp_in self.old) }
    {
        match self.files.get_mut(&n) {
            Some(bytes) => bytes.extend(more),
            None => Ok(()),
        }
    }

    /// Takes a file away, where it stands.
    pub fn take(&mut self, n: u32) -> Option<Bytes>
        ensures bytes { result ≡ (temp_in self.old).files n }
        ensures gone { temp_in self.new ≡ with_file n None (temp_in self.old) }
    {
        self.files.remove(&n)
    }
}
