// Projects that are installed over what stands there.

use crate::fixtures::{A, B, PROJECT, fill, run_on, shown};
use pn_fs::{SureFs, SureSink};
use pn_memstore::SureStore;
use std::alloc::Global;
use std::test::Fail;

// A managed folder with half a marker, other bytes in a file, a file where a link is planned, a file where a folder is
// planned, and one that nobody asked for.
const WRONG: &str = "
/w/node_modules/.pnpm-rs pnpm
/w/node_modules/a other
/w/node_modules/.pnpm/a@1.0.0/node_modules/a other
/w/node_modules/.pnpm/a@1.0.0/node_modules/z other
/w/node_modules/.pnpm/b@1.0.0/node_modules/b/index.js other
";

// What an installed project has.
const ENTRIES: [(&str, &str); 6] = [
    ("/w/node_modules/.pnpm-rs", "pnpm-rs 1\n"),
    ("/w/node_modules/a", "to .pnpm/a@1.0.0/node_modules/a"),
    (
        "/w/node_modules/.pnpm/a@1.0.0/node_modules/a/index.js",
        "first",
    ),
    (
        "/w/node_modules/.pnpm/a@1.0.0/node_modules/b",
        "to ../../b@1.0.0/node_modules/b",
    ),
    ("/w/node_modules/.pnpm/a@1.0.0/node_modules/z", "nothing"),
    (
        "/w/node_modules/.pnpm/b@1.0.0/node_modules/b/index.js",
        "second",
    ),
];

fn install(
    alloc: Global,
    project: &mut SureFs,
    registry: &mut SureFs,
    store: &mut SureStore,
) -> Result<u8, Fail> {
    let mut out = SureSink::new(alloc);
    let mut err = SureSink::new(alloc);
    run_on(
        alloc, "/w", "install", project, registry, store, &mut out, &mut err,
    )
}

fn has_all(alloc: Global, project: &mut SureFs) -> Result<bool, Fail> {
    let mut same = true;
    for (path, text) in ENTRIES {
        let found = shown(alloc, project, path)?;
        same = same && found.as_str() == text;
    }
    Ok(same)
}

#[test]
fn what_is_wrong_is_repaired(rt: HostRuntime) -> Result<(), Fail> {
    let alloc = rt.alloc();
    let mut project = SureFs::new(alloc);
    fill(alloc, &mut project, PROJECT)?;
    fill(alloc, &mut project, WRONG)?;
    let mut registry = SureFs::new(alloc);
    fill(alloc, &mut registry, A)?;
    fill(alloc, &mut registry, B)?;
    let mut store = SureStore::new(alloc, 1);
    assert!(rt; !has_all(alloc, &mut project)?);
    for _ in 0..2u32 {
        let code = install(alloc, &mut project, &mut registry, &mut store)?;
        assert_eq!(rt; code, 0);
        assert!(rt; has_all(alloc, &mut project)?);
    }
    Ok(())
}
