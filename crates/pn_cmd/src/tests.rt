// Projects that are installed.

use crate::fixtures::{A, B, PROJECT, run_over, shown};
use std::alloc::Global;
use std::test::Fail;

// A package with a scope, and one without, that depend on each other.
const CYCLE: &str = r#"
/@s/a/1.0.0/package.json {"name":"@s/a","version":"1.0.0","dependencies":{"b":"1.0.0"}}
/b/1.0.0/package.json {"name":"b","version":"1.0.0","dependencies":{"@s/a":"1.0.0"}}
"#;

// The package `b` in several versions, of which the file of tags says which is the latest, and one that depends on it under
// another name.
const VERSIONS: &str = r#"
/b/tags.json {"latest":"1.1.0","old":"1.0.0"}
/b/1.0.0/package.json {"name":"b","version":"1.0.0"}
/b/1.1.0/package.json {"name":"b","version":"1.1.0"}
/b/1.2.0/package.json {"name":"b","version":"1.2.0"}
/c/2.0.0-rc.2/package.json {"name":"c","version":"2.0.0-rc.2","dependencies":{"c":"*","d":"npm:b@old"},"devDependencies":{"z":"*"}}
/c/2.1.0-rc.1/package.json {"name":"c","version":"2.1.0-rc.1"}
"#;

// Whether the run is done, with this report and these entries of `node_modules`.
fn is_installed(
    alloc: Global,
    project: &str,
    registry: &str,
    report: &str,
    entries: &[(&str, &str)],
) -> Result<bool, Fail> {
    let mut ended = run_over(alloc, "install", project, registry)?;
    let mut same = ended.code == 0
        && ended.out.bytes() == report.as_bytes()
        && ended.err.bytes().is_empty();
    for (path, text) in entries {
        let path = format!(in alloc; "/w/node_modules/{path}")?;
        let found = shown(alloc, &mut ended.project, path.as_str())?;
        same = same && found.as_str() == *text;
    }
    Ok(same)
}

#[test]
fn projects_are_installed(rt: HostRuntime) -> Result<(), Fail> {
    let alloc = rt.alloc();
    let report = "projects 1\npackages 0\ninstances 0\n";
    assert!(rt; is_installed(alloc, "/w/package.json {}", "", report, [].as_slice())?);
    let registry = format!(in alloc; "{A}{B}")?;
    let report = "projects 1\npackages 2\ninstances 2\n";
    let entries = [
        (".pnpm-rs", "pnpm-rs 1\n"),
        ("a", "to .pnpm/a@1.0.0/node_modules/a"),
        (".pnpm/a@1.0.0/node_modules/a/index.js", "first"),
        (
            ".pnpm/a@1.0.0/node_modules/b",
            "to ../../b@1.0.0/node_modules/b",
        ),
        (".pnpm/b@1.0.0/node_modules/b/index.js", "second"),
    ];
    assert!(rt;
        is_installed(
            alloc,
            PROJECT,
            registry.as_str(),
            report,
            entries.as_slice()
        )?
    );
    let project = r#"/w/package.json {"dependencies":{"@s/a":"1.0.0"}}"#;
    let entries = [
        ("@s/a", "to ../.pnpm/@s+a@1.0.0/node_modules/@s/a"),
        (
            ".pnpm/@s+a@1.0.0/node_modules/b",
            "to ../../b@1.0.0/node_modules/b",
        ),
        (
            ".pnpm/b@1.0.0/node_modules/@s/a",
            "to ../../../@s+a@1.0.0/node_modules/@s/a",
        ),
    ];
    assert!(rt; is_installed(alloc, project, CYCLE, report, entries.as_slice())?);
    Ok(())
}

#[test]
fn specifiers_are_chosen_from(rt: HostRuntime) -> Result<(), Fail> {
    let alloc = rt.alloc();
    let project =
        r#"/w/package.json {"dependencies":{"b":"^1.0.0","c":">=2.0.0-rc.1 <2.1.0"},"devDependencies":{"e":"npm:b@>1.1"},"optionalDependencies":{"n":"^9.0.0"}}"#;
    let entries = [
        ("b", "to .pnpm/b@1.1.0/node_modules/b"),
        ("c", "to .pnpm/c@2.0.0-rc.2/node_modules/c"),
        ("e", "to .pnpm/b@1.2.0/node_modules/b"),
        ("n", "nothing"),
        (
            ".pnpm/c@2.0.0-rc.2/node_modules/d",
            "to ../../b@1.0.0/node_modules/b",
        ),
        (".pnpm/c@2.0.0-rc.2/node_modules/z", "nothing"),
    ];
    let report = "projects 1\npackages 4\ninstances 4\n";
    assert!(rt; is_installed(alloc, project, VERSIONS, report, entries.as_slice())?);
    Ok(())
}
