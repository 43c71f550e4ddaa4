// What projects and packages ask for, and what that leads to.
ghost use Rattle.std.specs.Prelude.{◌≡◌, IfOk};

use pn_text::{Memory, PkgId, PkgName, Text};
use std::alloc::Global;

/// What a seen manifest asks for under an alias. A wish that is optional may come to nothing. An automatic peer has its
/// package already.
#[derive(Drop)]
pub struct Wish {
    pub alias: PkgName,
    pub specifier: Text,
    pub optional: bool,
    pub chosen: Option<PkgId>,
}

impl Wish {
    /// An equal wish.
    pub fn copy(&self, alloc: Global) -> Result<Wish, Memory>
        ensures { IfOk result (λ w. w ≡ self.now) }
    {
        let alias = self.alias.copy(alloc)?;
        let specifier = self.specifier.copy(alloc)?;
        let chosen = copy_chosen(alloc, &self.chosen)?;
        Ok(Wish {
            alias,
            specifier,
            optional: self.optional,
            chosen,
        })
    }
}

fn copy_chosen(alloc: Global, chosen: &Option<PkgId>) -> Result<Option<PkgId>, Memory>
    ensures { IfOk result (λ c. c ≡ chosen.now) }
{
    match chosen {
        Some(id) => Ok(Some(id.copy(alloc)?)),
        None => Ok(None),
    }
}

/// What a wish leads to: the project at a place, or a package.
#[derive(Drop)]
pub enum Aim {
    Project(u32),
    Package(PkgId),
}

/// The node at a place: of the list of projects, or of the packages as they are met.
#[derive(Clone, Copy, Debug, PartialEq, Eq)]
pub enum Place {
    Project(u32),
    Package(u32),
}
