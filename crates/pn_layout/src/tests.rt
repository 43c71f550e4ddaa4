// The planned tree of a package in a scope, and of one that links to it and to itself.
ghost use Rattle.std.specs.Prelude.{◌≡◌, ◌≢◌, ◌∷◌, [], IfOk, true};
ghost use Rattle.std.specs.Cmp.Lexicographic.{slice_cmp};
ghost use Rattle.std.specs.List.{Contains};
ghost use Rattle.std.specs.Ordering.{nat_cmp};
ghost use Rattle.std.specs.declared.cmp.Ordering.TheVariants.{Less};
ghost use Rattle.pn_text.specs.Ids.{id_name, is_id};
ghost use Rattle.pn_package.specs.Links.{Pair};
ghost use Rattle.pn_package.specs.Listed.{pair_of};
ghost use Rattle.pn_package.specs.Sound.{IsSoundPair, IsSoundPackage, AreSoundLinks};
ghost use Rattle.pn_layout.specs.Listed.{HasListing};

use crate::plan::layout;
use pn_digest::{Digest, Listing, Planned, PlannedTree};
use pn_package::{Link, Links, Package};
use pn_text::{AbsPath, PkgId, PkgName, RelPath, Text};
use std::alloc::Global;
use std::test::Fail;

fn id_of(alloc: Global, text: &str) -> Result<PkgId, Fail>
    ensures text { IfOk result (λ id. id ≡ text.now) }
    ensures good { IfOk result (λ id. is_id id ≡ true) }
{
    match PkgId::read(alloc, text)? {
        Some(id) => Ok(id),
        None => Err(Fail::new("no id")),
    }
}

fn link(alloc: Global, alias: &str, to: &str) -> Result<Link, Fail>
    ensures pair { IfOk result (λ l. pair_of l ≡ (alias.now, to.now)) }
    ensures sound { IfOk result (λ l. IsSoundPair (pair_of l)) }
{
    let alias = PkgName::read(alloc, alias)?;
    let to = id_of(alloc, to)?;
    Ok(Link { alias, to })
}

fn no_links(alloc: Global) -> Links
    ensures { result ≡ [] }
{
    Links::of(Vec::new(alloc))
}

fn one_link(alloc: Global, link: Link) -> Result<Links, Fail>
    ensures { IfOk result (λ all. all ≡ pair_of link ∷ []) }
{
    let mut items = Vec::new(alloc);
    items.push(link)?;
    Ok(Links::of(items))
}

fn two_links(alloc: Global, first: Link, second: Link) -> Result<Links, Fail>
    requires { slice_cmp nat_cmp first.alias second.alias ≡ Less }
    ensures { IfOk result (λ all. all ≡ pair_of first ∷ pair_of second ∷ []) }
{
    Ok(Links::of(two(alloc, first, second)?))
}

fn two<T: Drop>(alloc: Global, first: T, second: T) -> Result<Vec<T>, Fail>
    ensures { IfOk result (λ all. all.items ≡ first ∷ second ∷ []) }
{
    let mut items = Vec::new(alloc);
    items.push(first)?;
    items.push(second)?;
    Ok(items)
}

// A package of one file, and its listing.
fn package(alloc: Global, id: &str, links: Links) -> Result<(Package, Listing), Fail>
    requires links { AreSoundLinks links }
    requires others { (l : Pair) → Contains links l → l.0 ≢ id_name id.now }
    ensures id { IfOk result (λ x. x.0.id ≡ id.now) }
    ensures links { IfOk result (λ x. x.0.links ≡ links) }
    ensures sound { IfOk result (λ x. IsSoundPackage x.0) }
    ensures listing { IfOk result (λ x. HasListing x.0 x.1) }
{
    let path = RelPath::read(alloc, "x.js")?;
    let mut files = Vec::new(alloc);
    files.push(path.copy(alloc)?)?;
    let mut listed = Vec::new(alloc);
    listed.push((path, Digest::of_bytes(b"abc")))?;
    let listing = Listing::of_files(alloc, listed)?;
    let id = id_of(alloc, id)?;
    let folder = AbsPath::root(alloc)?;
    let made = Package {
        id,
        links,
        folder,
        files,
    };
    Ok((made, listing))
}

fn planned(alloc: Global) -> Result<PlannedTree, Fail> {
    let to_first = link(alloc, "@s/a", "@s/a@1.0.0")?;
    let to_itself = link(alloc, "c", "b@1.0.0")?;
    let links = two_links(alloc, to_first, to_itself)?;
    let (first, of_first) = package(alloc, "@s/a@1.0.0", no_links(alloc))?;
    let (second, of_second) = package(alloc, "b@1.0.0", links)?;
    let packages = two(alloc, first, second)?;
    let listings = two(alloc, of_first, of_second)?;
    let to_second = link(alloc, "b", "b@1.0.0")?;
    let direct = one_link(alloc, to_second)?;
    let modules = AbsPath::read(alloc, "/w/node_modules")?;
    let tree = layout(alloc, &modules, &direct, &packages, &listings)?;
    Ok(tree)
}

fn line(alloc: Global, what: &Planned) -> Result<Text, Fail> {
    let text = match what {
        Planned::Folder => Text::of(alloc, "folder")?,
        Planned::Bytes(bytes) => bytes.copy(alloc)?,
        Planned::Stored(_) => Text::of(alloc, "file")?,
        Planned::Link(to) => to.copy(alloc)?,
    };
    Ok(text)
}

#[test]
fn packages_stand_in_the_virtual_store(rt: HostRuntime) -> Result<(), Fail> {
    let alloc = rt.alloc();
    let tree = planned(alloc)?;
    let mut all = String::new(alloc);
    for (path, what) in tree.as_slice() {
        all.push_str(path.as_str())?;
        all.push_str(" ")?;
        all.push_str(line(alloc, what)?.as_str())?;
        all.push_str("\n")?;
    }
    assert_eq!(rt;
        all.as_str(),
        "/w/node_modules folder\n/w/node_modules/.pnpm folder\n/w/node_modules/.pnpm-rs pnpm-rs 1\n\n\
         /w/node_modules/.pnpm/@s+a@1.0.0 folder\n/w/node_modules/.pnpm/@s+a@1.0.0/node_modules folder\n\
         /w/node_modules/.pnpm/@s+a@1.0.0/node_modules/@s folder\n\
         /w/node_modules/.pnpm/@s+a@1.0.0/node_modules/@s/a folder\n\
         /w/node_modules/.pnpm/@s+a@1.0.0/node_modules/@s/a/x.js file\n\
         /w/node_modules/.pnpm/b@1.0.0 folder\n/w/node_modules/.pnpm/b@1.0.0/node_modules folder\n\
         /w/node_modules/.pnpm/b@1.0.0/node_modules/@s folder\n\
         /w/node_modules/.pnpm/b@1.0.0/node_modules/@s/a ../../../@s+a@1.0.0/node_modules/@s/a\n\
         /w/node_modules/.pnpm/b@1.0.0/node_modules/b folder\n\
         /w/node_modules/.pnpm/b@1.0.0/node_modules/b/x.js file\n\
         /w/node_modules/.pnpm/b@1.0.0/node_modules/c b\n\
         /w/node_modules/b .pnpm/b@1.0.0/node_modules/b\n"
    );
    Ok(())
}
