// Dep paths and the names of folders.
ghost use Rattle.std.specs.Prelude.{◌≡◌, IfOk, true};
ghost use Rattle.std.specs.List.{list_all};
ghost use Rattle.pn_deppath.specs.Folders.{is_ascii};

use crate::{base_path, folder_names, is_dep_path, project_text, shortened, with_ordinals};
use pn_text::{PkgName, Text};
use std::alloc::Global;
use std::test::Fail;

const LONG: &str =
    "p@1.0.0(aaaaaaaaaaaaaaaaaaaaaaaaaaaaaaaaaaaaaaaaaaaaaaaaaaaaaaaaaaaaaaaaaaaaaaaaaaaaaaaaaaaaaaaaaaaaaaaaaaaaaaaaaaaaaaaaaaaaaaaaaaaaaa)";

// A dep path, and the name of its folder where no other one has it.
const FOLDERS: [(&str, &str); 7] = [
    ("a@1.0.0", "a@1.0.0"),
    ("@acme/ui@1.0.0", "@acme+ui@1.0.0"),
    (
        "react-dom@18.3.1(react@18.3.1)",
        "react-dom@18.3.1_react@18.3.1",
    ),
    ("a@1.0.0(b@1.0.0)(~2)", "a@1.0.0_b@1.0.0_~2"),
    (
        "foo@1.0.0(bar@1.0.0)(baz@1.0.0(@s/x@2.0.0))",
        "foo@1.0.0_bar@1.0.0_baz@1.0.0_@s+x@2.0.0_",
    ),
    ("p@1.0.0(q@link:packages/q)", "p@1.0.0_q@link+packages+q"),
    (
        LONG,
        "p@1.0.0_aaaaaaaaaaaaaaaaaaaaaaaaaaaaaaaaaaaaaaaaaaaaaaaaaaaaaaaaaaaaaaaaaaaaaaaaaaaaaaa_38b1231c283cae4ef34700e27c3549f5",
    ),
];

// Texts, and whether they are dep paths.
const PATHS: [(&str, bool); 9] = [
    ("a@1.0.0", true),
    ("@s/a@1.0.0-rc.1+b(c@1.0.0)(@s/d@2.0.0(e@1.0.0))", true),
    ("a@1.0.0(", false),
    ("a@1.0.0(b))", false),
    ("a@1.0.0(b)c", false),
    ("a@1.0.0(b c)", false),
    ("a@1.0.0(patch_hash=x)", false),
    ("a@1", false),
    ("a", false),
];

fn folder_of(alloc: Global, path: &str) -> Result<Text, Fail> {
    let known = is_dep_path(alloc, path)?;
    if !known {
        return Err(Fail::from("no dep path"));
    }
    let paths = vec![in alloc; Text::of(alloc, path)?]?;
    let mut names = folder_names(alloc, &paths)?;
    match names.pop() {
        Some(name) => Ok(name),
        None => Err(Fail::from("no name")),
    }
}

#[test]
fn folders_are_named_after_dep_paths(rt: HostRuntime) -> Result<(), Fail> {
    let alloc = rt.alloc();
    for (path, folder) in &FOLDERS {
        assert_eq!(rt; folder_of(alloc, path)?.as_str(), *folder);
    }
    Ok(())
}

#[test]
fn dep_paths_are_ids_with_balanced_groups(rt: HostRuntime) -> Result<(), Fail> {
    let alloc = rt.alloc();
    for (path, is) in &PATHS {
        assert_eq!(rt; is_dep_path(alloc, path)?, *is, "{path}");
    }
    let name = PkgName::read(alloc, "@s/a")?;
    assert_eq!(rt; base_path(alloc, &name, "1.0.0")?.as_str(), "@s/a@1.0.0");
    Ok(())
}

#[test]
fn projects_are_named_by_their_folders(rt: HostRuntime) -> Result<(), Fail> {
    let alloc = rt.alloc();
    let name = PkgName::read(alloc, "@s/q")?;
    let folder = Text::of(alloc, "packages/q r_2.0")?;
    let text = project_text(alloc, &name, &folder)?;
    assert_eq!(rt; text.as_str(), "@s/q@link:packages+q+r_2.0");
    Ok(())
}

#[test]
fn long_groups_become_digits(rt: HostRuntime) -> Result<(), Fail> {
    let alloc = rt.alloc();
    let mut groups = String::new(alloc);
    for _ in 0..100 {
        groups.push_str("(p@1.0.0)(")?;
    }
    let same = groups.clone()?;
    let short = shortened(alloc, same)?;
    assert_eq!(rt; short.as_str(), groups.as_str());
    groups.push_str(")")?;
    let long = shortened(alloc, groups)?;
    assert_eq!(rt; long.as_str(), "(7f71b539d1dbf1b36937c987e5491f55)");
    Ok(())
}

#[test]
fn equal_texts_have_ordinals(rt: HostRuntime) -> Result<(), Fail> {
    let alloc = rt.alloc();
    let texts = vec![in alloc;
        Text::of(alloc, "y@1.0.0")?,
        Text::of(alloc, "p@1.0.0")?,
        Text::of(alloc, "y@1.0.0")?,
        Text::of(alloc, "y@1.0.0")?,
    ]?;
    let paths = with_ordinals(alloc, &texts)?;
    let wanted = ["y@1.0.0", "p@1.0.0", "y@1.0.0(~2)", "y@1.0.0(~3)"];
    assert!(rt; paths.len() == 4);
    for (i, path) in wanted.iter().enumerate() {
        assert_eq!(rt; paths[i].as_str(), *path);
    }
    Ok(())
}
