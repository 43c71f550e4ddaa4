// The planned tree of one package.
ghost use Rattle.std.specs.Prelude.{◌≡◌, ◌∷◌, [], ℕ, List, IfOk, codes};
ghost use Rattle.pn_text.specs.Path.{Path};
ghost use Rattle.pn_tree.specs.Sound.{IsSoundInstance};

use crate::instance::{Instance, Target, Targets, Top};
use crate::plan::layout;
use pn_digest::{Listing, Planned, PlannedTree};
use pn_text::{AbsPath, PkgName, Text};
use std::alloc::Global;
use std::test::Fail;

// A package without files, whose link leads to another folder.
fn instance(alloc: Global, name: &str, link: &str, to: AbsPath) -> Result<Instance, Fail>
    requires { name.now ≡ link.now → ⊥ }
    ensures { IfOk result IsSoundInstance }
{
    let target = Target {
        name: PkgName::read(alloc, link)?,
        to,
    };
    let mut links = Vec::new(alloc);
    links.push(target)?;
    Ok(Instance {
        dir: Text::of(alloc, "a@1.0.0")?,
        name: PkgName::read(alloc, name)?,
        files: Listing::read(alloc, &[])?,
        links: Targets::of(links),
    })
}

fn line(alloc: Global, what: &Planned) -> Result<Text, Fail> {
    let text = match what {
        Planned::Folder => Text::of(alloc, "folder")?,
        Planned::Bytes(bytes) => bytes.copy(alloc)?,
        Planned::Stored(digest) => digest.hex(alloc)?,
        Planned::Link(to) => to.copy(alloc)?,
    };
    Ok(text)
}

fn one<T: Drop>(alloc: Global, value: T) -> Result<Vec<T>, Fail>
    ensures { IfOk result (λ v. v.items ≡ value ∷ []) }
{
    let mut all = Vec::new(alloc);
    all.push(value)?;
    Ok(all)
}

fn planned(alloc: Global) -> Result<PlannedTree, Fail> {
    let modules = AbsPath::read(alloc, "/w/node_modules")?;
    let store = modules.child(alloc, ".pnpm")?;
    let other = AbsPath::read(alloc, "/w/packages/b")?;
    let first = instance(alloc, "a", "@s/b", other)?;
    let instances = one(alloc, first)?;
    let top = Top {
        holder: modules.copy(alloc)?,
        name: PkgName::read(alloc, "a")?,
        to: AbsPath::read(alloc, "/w/node_modules/.pnpm/a@1.0.0/node_modules/a")?,
    };
    let tops = one(alloc, top)?;
    let marker = Text::of(alloc, "m")?;
    let folder = (modules, marker);
    let managed = one(alloc, folder)?;
    let tree = layout(alloc, &store, &managed, &instances, &tops)?;
    Ok(tree)
}

#[test]
fn links_lead_from_their_folders(rt: HostRuntime) -> Result<(), Fail> {
    let alloc = rt.alloc();
    let tree = planned(alloc)?;
    let mut all = String::new(alloc);
    for (path, what) in tree.as_slice() {
        all.push_str(path.as_str())?;
        all.push_str(" ")?;
        all.push_str(line(alloc, what)?.as_str())?;
        all.push_str("\n")?;
    }
    assert_eq!(rt;
        all.as_str(),
        "/w/node_modules folder\n/w/node_modules/.pnpm folder\n/w/node_modules/.pnpm-rs m\n\
         /w/node_modules/.pnpm/a@1.0.0 folder\n/w/node_modules/.pnpm/a@1.0.0/node_modules folder\n\
         /w/node_modules/.pnpm/a@1.0.0/node_modules/@s folder\n\
         /w/node_modules/.pnpm/a@1.0.0/node_modules/@s/b ../../../../../packages/b\n\
         /w/node_modules/.pnpm/a@1.0.0/node_modules/a folder\n/w/node_modules/a .pnpm/a@1.0.0/node_modules/a\n"
    );
    Ok(())
}
