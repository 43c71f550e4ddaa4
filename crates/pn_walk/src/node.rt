// Packages as they are met.
ghost use Rattle.std.specs.Prelude.{◌≡◌, IfOk};

use crate::wish::Wish;
use pn_manifest::Peers;
use pn_text::{Memory, PkgId, Text};
use std::alloc::Global;
use std::marker::Model;

/// Wishes, one after the other.
#[derive(Drop)]
pub struct Wishes {
    items: Vec<Wish>,
}

impl Model for Wishes {
    ghost use Rattle.std.specs.Prelude.{List};
    ghost use Rattle.pn_walk.specs.declared.wish.Wish.{Wish};

    ghost Value = { List Wish };

    ghost view = { λ a. a.items.items };
}

impl Wishes {
    /// These wishes.
    pub fn of(items: Vec<Wish>) -> Wishes
        ensures { result ≡ items.items }
    {
        Wishes { items }
    }

    /// The wishes.
    pub fn as_slice(&self) -> &[Wish]
        ensures { result.now ≡ self.now }
    {
        self.items.as_slice()
    }

    /// Equal wishes.
    pub fn copy(&self, alloc: Global) -> Result<Wishes, Memory>
        ensures { IfOk result (λ w. w ≡ self.now) }
    {
        let mut items = Vec::new(alloc);
        for wish in self.items.as_slice() {
            let one = wish.copy(alloc)?;
            if items.push(one).is_err() {
                return Err(Memory);
            }
        }
        Ok(Wishes { items })
    }
}

/// A project's folder, or a package's id as a text, and what it asks for.
#[derive(Drop)]
pub struct Asks {
    pub from: Text,
    pub wishes: Wishes,
}

/// A package by its seen manifest.
#[derive(Drop)]
pub struct Node {
    pub id: PkgId,
    pub wishes: Wishes,
    pub peers: Peers,
}
