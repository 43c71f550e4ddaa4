// Where the root is, what its file says, and where the virtual store may lie.
use crate::{StoreFault, WorkspaceFault, find, virtual_store};
use pn_fs::{Body, SureFs, try_make};
use pn_text::AbsPath;
use std::alloc::Global;
use std::test::Fail;

// A file and its bytes, a folder, and the folder's root or why there is none.
const ROOTS: &[(&str, &str, &str, &str)] = &[
    ("/x", "", "/a/b", "/a/b"),
    ("/pnpm-workspace.yaml", "", "/a/b", "/"),
    ("/a/pnpm-workspace.yaml", "# none\n", "/a/b", "/a"),
    ("/a/b/pnpm-workspace.yaml", "x: 1\n", "/a/b", "/a/b"),
    ("/a/b/c/pnpm-workspace.yaml", "x: 1\n", "/a/b", "/a/b"),
    ("/a/pnpm-workspace.yaml/x", "", "/a/b", "/a/b"),
    (
        "/a/pnpm-workspace.yaml",
        "x:\n\ty: 1\n",
        "/a/b",
        "/a/pnpm-workspace.yaml line 2: tab",
    ),
    (
        "/pnpm-workspace.yaml",
        "a: 1\na: 2\n",
        "/",
        "/pnpm-workspace.yaml line 2: key twice",
    ),
    (
        "/a/b/pnpm-workspace.yaml",
        "hoist: 1\nx: 1\n",
        "/a/b",
        "/a/b/pnpm-workspace.yaml bad key hoist",
    ),
];

fn fill(alloc: Global, path: &str, bytes: &str) -> Result<SureFs, Fail> {
    let mut fs = SureFs::new(alloc);
    let mut above = String::new(alloc);
    for part in path.split('/').filter(|part| !part.is_empty()) {
        if !above.is_empty() {
            let folder = AbsPath::read(alloc, above.as_str())?;
            try_make(&mut fs, alloc, &folder, &Body::Folder)?;
        }
        above.push_str("/")?;
        above.push_str(part)?;
    }
    let body = Body::File(Vec::from_slice(alloc, bytes.as_bytes())?);
    try_make(&mut fs, alloc, &AbsPath::read(alloc, path)?, &body)?;
    Ok(fs)
}

fn root_of(alloc: Global, path: &str, bytes: &str, place: &str) -> Result<String, Fail> {
    let mut fs = fill(alloc, path, bytes)?;
    match find(alloc, &AbsPath::read(alloc, place)?, &mut fs) {
        Ok(workspace) => Ok(String::from_str(alloc, workspace.root.as_str())?),
        Err(WorkspaceFault::Wrong(path, why)) => {
            let path = path.as_str();
            Ok(format!(in alloc; "{path} {why}")?)
        }
        Err(fault) => Ok(format!(in alloc; "{fault}")?),
    }
}

#[test]
fn the_root_is_the_nearest_folder_with_the_file(rt: HostRuntime) -> Result<(), Fail> {
    let alloc = rt.alloc();
    for (path, bytes, place, expected) in ROOTS {
        let root = root_of(alloc, path, bytes, place)?;
        assert_eq!(rt; root.as_str(), *expected);
    }
    Ok(())
}

// What `virtualStoreDir` says, and where that leads in a workspace of `/w` with a project `/w/a`.
const STORES: &[(&str, &str)] = &[
    ("node_modules/.pnpm", "/w/node_modules/.pnpm"),
    ("./x//../node_modules/.pnpm/", "/w/node_modules/.pnpm"),
    ("/v", "/v"),
    ("b/c", "/w/b/c"),
    ("..", "misplaced"),
    ("/", "misplaced"),
    (".", "misplaced"),
    ("a", "misplaced"),
    ("a/b", "/w/a/b"),
    ("b/node_modules", "misplaced"),
    ("node_modules/x", "misplaced"),
    ("node_modules/.pnpm/x", "misplaced"),
    ("a/node_modules/.pnpm", "misplaced"),
    ("pnpm-lock.yaml", "misplaced"),
    ("pnpm-lock.yaml.pnpm-rs/x", "misplaced"),
    ("package.json.pnpm-rs", "misplaced"),
    ("package.json", "/w/package.json"),
    ("pnpm-lock.yam", "/w/pnpm-lock.yam"),
];

fn store_of(alloc: Global, setting: &str) -> Result<String, Fail> {
    let text = format!(in alloc; "virtualStoreDir: {setting}\n")?;
    let mut fs = fill(alloc, "/w/pnpm-workspace.yaml", text.as_str())?;
    let place = AbsPath::read(alloc, "/w")?;
    let workspace = match find(alloc, &place, &mut fs) {
        Ok(workspace) => workspace,
        Err(_) => return Err(Fail::from("no workspace")),
    };
    let projects = [place.copy(alloc)?, AbsPath::read(alloc, "/w/a")?];
    match virtual_store(alloc, &workspace, &place, &projects) {
        Ok(store) => Ok(String::from_str(alloc, store.as_str())?),
        Err(StoreFault::Misplaced) => Ok(String::from_str(alloc, "misplaced")?),
        Err(fault) => Ok(format!(in alloc; "{fault}")?),
    }
}

#[test]
fn the_virtual_store_lies_where_nothing_else_does(rt: HostRuntime) -> Result<(), Fail> {
    let alloc = rt.alloc();
    for (setting, expected) in STORES {
        let store = store_of(alloc, setting)?;
        assert_eq!(rt; store.as_str(), *expected);
    }
    Ok(())
}
