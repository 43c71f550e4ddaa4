// A file system in memory that never fails.
ghost use Rattle.std.specs.Prelude.{◌≡◌, Some};
ghost use Rattle.pn_fs.specs.Tree.{IsTree, IsTree-prop};
ghost use Rattle.pn_fs.specs.Seen.{Seen};
ghost use Rattle.pn_fs.specs.Fresh.{fresh};
ghost use Rattle.pn_fs.specs.Nodes.{rooted};
ghost use Rattle.pn_fs.specs.Told.{told_tree, told_finite};

use crate::body::Body;
use crate::fs::{Fs, ReadFs};
use crate::kind::Kind;
use crate::list::list_at;
use crate::nodes;
use crate::piece::piece_at;
use pn_text::{AbsPath, DevFault, Text};
use std::alloc::Global;
use std::collections::BTreeMap;

/// A file system in memory. No call fails: `Memory` is the only refusal.
#[derive(Drop)]
pub struct SureFs {
    alloc: Global,
    nodes: BTreeMap<String, Body>,
    touched: Vec<AbsPath>,
    bytes: u64,
    names: u64,
    ghost tree: { IsTree (rooted nodes) } by { IsTree-prop (rooted nodes) },
}

impl SureFs {
    /// `/` alone.
    pub fn new(alloc: Global) -> SureFs
        ensures { ⟦<SureFs as ReadFs>⟧.seen result ≡ fresh }
    {
        SureFs {
            alloc,
            nodes: BTreeMap::new(alloc),
            touched: Vec::new(alloc),
            bytes: 0,
            names: 0,
        }
    }
}

impl ReadFs for SureFs {
    ghost seen = { λ s. record { tree = Some (rooted s.nodes); touched = s.touched.items; faults = 0; bytes = s.bytes; names = s.names } };

    ghost well_formed = { λ s t told. told_tree (rooted s.nodes) t s.tree told };

    ghost finite = { λ s t told. told_finite s.nodes t told };

    fn kind(&mut self, path: &AbsPath) -> Result<Kind, DevFault> {
        Ok(nodes::kind_at(&self.nodes, path))
    }

    fn list(&mut self, path: &AbsPath) -> Result<Vec<Text>, DevFault> {
        let names = list_at(self.alloc, &self.nodes, path)?;
        self.names = self.names.saturating_add(names.len() as u64);
        Ok(names)
    }

    fn read_piece(&mut self, path: &AbsPath, at: u64, into: &mut [u8]) -> Result<usize, DevFault> {
        let count = piece_at(&self.nodes, path, at, into);
        self.bytes = self.bytes.saturating_add(count as u64);
        Ok(count)
    }

    fn read_link(&mut self, path: &AbsPath) -> Result<Text, DevFault> {
        nodes::link_at(self.alloc, &self.nodes, path)
    }
}

impl Fs for SureFs {
    fn make_folder(&mut self, path: &AbsPath) -> Result<(), DevFault> {
        self.touched.push(path.copy(self.alloc)?)?;
        nodes::place(self.alloc, &mut self.nodes, path, Body::Folder)
    }

    fn create(&mut self, path: &AbsPath) -> Result<(), DevFault> {
        self.touched.push(path.copy(self.alloc)?)?;
        let body = Body::File(Vec::new(self.alloc));
        nodes::place(self.alloc, &mut self.nodes, path, body)
    }

    fn append(&mut self, path: &AbsPath, bytes: &[u8]) -> Result<(), DevFault> {
        self.touched.push(path.copy(self.alloc)?)?;
        nodes::append(&mut self.nodes, path, bytes)
    }

    fn link(&mut self, path: &AbsPath, text: &Text) -> Result<(), DevFault> {
        self.touched.push(path.copy(self.alloc)?)?;
        let body = Body::Link(text.copy(self.alloc)?);
        nodes::place(self.alloc, &mut self.nodes, path, body)
    }

    fn rename(&mut self, from: &AbsPath, to: &AbsPath) -> Result<(), DevFault> {
        nodes::touch_both(self.alloc, &mut self.touched, from, to)?;
        if from.is(to) {
            return Ok(());
        }
        nodes::move_body(self.alloc, &mut self.nodes, from, to)
    }

    fn remove(&mut self, path: &AbsPath) -> Result<(), DevFault> {
        self.touched.push(path.copy(self.alloc)?)?;
        nodes::remove(&mut self.nodes, path);
        Ok(())
    }
}
