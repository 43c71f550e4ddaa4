// Texts of manifests with what they say, or with the field and the key that is wrong.
use crate::{Dependencies, Entries, Manifest, ManifestFault, ManifestWhy, Names, Peers};
use std::alloc::{AllocError, Global};
use std::test::Fail;

const GOOD: &[(&str, &str)] = &[
    ("{}", ""),
    (
        r#"{"name": "@s/x", "version": "1.2.3-a.1+b"}"#,
        "name @s/x, version 1.2.3-a.1+b",
    ),
    (
        r#"{"dependencies": {"b": "^1", "@s/a": "workspace:*", "B": ""}}"#,
        "dependencies @s/a=workspace:* B= b=^1",
    ),
    (
        r#"{"optionalDependencies": {"o": "3"}, "devDependencies": {"d": "2"}, "dependencies": {"p": "1"}}"#,
        "dependencies p=1, dev d=2, optional o=3",
    ),
    (
        r#"{"name": null, "version": [], "dependencies": null, "devDependencies": [], "optionalDependencies": {}, "peerDependencies": null, "scripts": [], "bin": null, "peerDependenciesMeta": [], "dependenciesMeta": null, "pnpm": []}"#,
        "",
    ),
    (
        r#"{"name": [], "bin": [], "scripts": null, "peerDependencies": [], "peerDependenciesMeta": null, "dependenciesMeta": [], "pnpm": null}"#,
        "",
    ),
    (
        r#"{"peerDependencies": {"b": "1", "c": "2", "e": "3"}, "peerDependenciesMeta": {"a": {"optional": true}, "b": {}, "c": {"optional": true}, "d": {"optional": true}, "e": {"optional": false}, "f": {"optional": false}, "g": {"x": 1}, "h": {"optional": true}}}"#,
        "peers a=*? b=1 c=2? d=*? e=3 h=*?",
    ),
    (r#"{"peerDependencies": {"a": "*"}}"#, "peers a=*"),
    (
        r#"{"peerDependenciesMeta": {"b": {"optional": true}, "@s/a": {"optional": true}}}"#,
        "peers @s/a=*? b=*?",
    ),
    (
        r#"{"scripts": {"test": "node t.js", "": "x", "_ b": "y"}}"#,
        "scripts =x _ b=y test=node t.js",
    ),
    (
        r#"{"name": "x", "bin": {"_y": "b.js", "x": "a.js"}}"#,
        "name x, bins _y=b.js x=a.js",
    ),
    (
        r#"{"bin": "a.js", "name": "@s/x"}"#,
        "name @s/x, bins x=a.js",
    ),
    (r#"{"bin": "", "name": "x"}"#, "name x, bins x="),
    (r#"{"bin": "a.js"}"#, ""),
    (
        r#"{"dependenciesMeta": {"c": {"injected": true}, "a": {"injected": true, "x": null}, "b": {"injected": false}, "d": {"optional": true}}}"#,
        "injected a c",
    ),
    (
        r#"{"pnpm": {"overrides": {"b@1>c": "-", "a": "$x"}, "packageExtensions": 5}}"#,
        "overrides a=$x b@1>c=-",
    ),
    (r#"{"pnpm": {"overrides": null}}"#, ""),
    (r#"{"pnpm": {"overrides": []}}"#, ""),
    (r#"{"pnpm": {}}"#, ""),
    (
        r#"{"pnpm.overrides": 1, "overrides": 2, "bins": 3, "Name": 4, "files": [5], "engines": null}"#,
        "",
    ),
    (
        r#"{"dependencies": {"a": "1", "a": "2"}, "name": "y", "name": "x"}"#,
        "name x, dependencies a=2",
    ),
];

// Texts, and the field and the key; none where the text is no object.
const BAD: &[(&str, &str)] = &[
    ("", "no object"),
    ("{", "no object"),
    ("[]", "no object"),
    ("null", "no object"),
    ("\"{}\"", "no object"),
    ("{} {}", "no object"),
    (r#"{"name": ""}"#, "name "),
    (r#"{"name": "_x"}"#, "name "),
    (r#"{"name": {}}"#, "name "),
    (r#"{"name": [null]}"#, "name "),
    (r#"{"version": "1.0"}"#, "version "),
    (r#"{"version": 1}"#, "version "),
    (r#"{"version": false}"#, "version "),
    (r#"{"dependencies": "a"}"#, "dependencies "),
    (r#"{"dependencies": ["a"]}"#, "dependencies "),
    (r#"{"dependencies": false}"#, "dependencies "),
    (r#"{"dependencies": {"a": null}}"#, "dependencies a"),
    (r#"{"dependencies": {"a": []}}"#, "dependencies a"),
    (
        r#"{"dependencies": {"b": 1, "a": "1", "_c": "1", "A/b": "1"}}"#,
        "dependencies A/b",
    ),
    (r#"{"dependencies": {"": "1"}}"#, "dependencies "),
    (r#"{"devDependencies": {"_x": "1"}}"#, "devDependencies _x"),
    (r#"{"optionalDependencies": 1}"#, "optionalDependencies "),
    (
        r#"{"peerDependencies": {"a": {"x": "1"}}}"#,
        "peerDependencies a",
    ),
    (r#"{"scripts": "x"}"#, "scripts "),
    (r#"{"scripts": {"_b": null, "_a": "x"}}"#, "scripts _b"),
    (r#"{"bin": true}"#, "bin "),
    (r#"{"bin": ["a.js"]}"#, "bin "),
    (r#"{"bin": {"x": 1}}"#, "bin x"),
    (
        r#"{"peerDependenciesMeta": {"a": {"optional": 1}}}"#,
        "peerDependenciesMeta a",
    ),
    (
        r#"{"peerDependenciesMeta": {"a": {"optional": null}}}"#,
        "peerDependenciesMeta a",
    ),
    (
        r#"{"peerDependenciesMeta": {"a": {"optional": []}}}"#,
        "peerDependenciesMeta a",
    ),
    (
        r#"{"peerDependenciesMeta": {"a": null}}"#,
        "peerDependenciesMeta a",
    ),
    (
        r#"{"peerDependenciesMeta": {"a": []}}"#,
        "peerDependenciesMeta a",
    ),
    (
        r#"{"peerDependenciesMeta": {"b": {}, "_a": {"optional": true}}}"#,
        "peerDependenciesMeta _a",
    ),
    (r#"{"peerDependenciesMeta": true}"#, "peerDependenciesMeta "),
    (
        r#"{"dependenciesMeta": {"a": {"injected": "true"}}}"#,
        "dependenciesMeta a",
    ),
    (r#"{"dependenciesMeta": [{}]}"#, "dependenciesMeta "),
    (r#"{"pnpm": 1}"#, "pnpm.overrides "),
    (r#"{"pnpm": ["overrides"]}"#, "pnpm.overrides "),
    (r#"{"pnpm": {"overrides": "x"}}"#, "pnpm.overrides "),
    (
        r#"{"pnpm": {"overrides": {"b": 1, "a>": null}}}"#,
        "pnpm.overrides a>",
    ),
    // one field less from row to row
    (
        r#"{"pnpm": 1, "dependenciesMeta": 1, "peerDependenciesMeta": 1, "bin": 1, "scripts": 1, "peerDependencies": 1, "optionalDependencies": 1, "devDependencies": 1, "dependencies": 1, "version": 1, "name": 1}"#,
        "name ",
    ),
    (
        r#"{"pnpm": 1, "dependenciesMeta": 1, "peerDependenciesMeta": 1, "bin": 1, "scripts": 1, "peerDependencies": 1, "optionalDependencies": 1, "devDependencies": 1, "dependencies": 1, "version": 1}"#,
        "version ",
    ),
    (
        r#"{"pnpm": 1, "dependenciesMeta": 1, "peerDependenciesMeta": 1, "bin": 1, "scripts": 1, "peerDependencies": 1, "optionalDependencies": 1, "devDependencies": 1, "dependencies": 1}"#,
        "dependencies ",
    ),
    (
        r#"{"pnpm": 1, "dependenciesMeta": 1, "peerDependenciesMeta": 1, "bin": 1, "scripts": 1, "peerDependencies": 1, "optionalDependencies": 1, "devDependencies": 1}"#,
        "devDependencies ",
    ),
    (
        r#"{"pnpm": 1, "dependenciesMeta": 1, "peerDependenciesMeta": 1, "bin": 1, "scripts": 1, "peerDependencies": 1, "optionalDependencies": 1}"#,
        "optionalDependencies ",
    ),
    (
        r#"{"pnpm": 1, "dependenciesMeta": 1, "peerDependenciesMeta": 1, "bin": 1, "scripts": 1, "peerDependencies": 1}"#,
        "peerDependencies ",
    ),
    (
        r#"{"pnpm": 1, "dependenciesMeta": 1, "peerDependenciesMeta": 1, "bin": 1, "scripts": 1}"#,
        "scripts ",
    ),
    (
        r#"{"pnpm": 1, "dependenciesMeta": 1, "peerDependenciesMeta": 1, "bin": 1}"#,
        "bin ",
    ),
    (
        r#"{"pnpm": 1, "dependenciesMeta": 1, "peerDependenciesMeta": 1}"#,
        "peerDependenciesMeta ",
    ),
    (r#"{"pnpm": 1, "dependenciesMeta": 1}"#, "dependenciesMeta "),
];

fn push_part(told: &mut String, part: &str) -> Result<(), AllocError> {
    if !told.is_empty() {
        told.push_str(", ")?;
    }
    told.push_str(part)
}

fn push_pair(told: &mut String, key: &str, text: &str) -> Result<(), AllocError> {
    told.push_str(" ")?;
    told.push_str(key)?;
    told.push_str("=")?;
    told.push_str(text)
}

fn push_own(alloc: Global, told: &mut String, manifest: &Manifest) -> Result<(), AllocError> {
    if let Some(name) = &manifest.name {
        push_part(told, "name ")?;
        told.push_str(name.as_str())?;
    }
    if let Some(version) = &manifest.version {
        push_part(told, "version ")?;
        let text = format!(in alloc; "{version}")?;
        told.push_str(text.as_str())?;
    }
    Ok(())
}

fn push_dependencies(told: &mut String, part: &str, all: &Dependencies) -> Result<(), AllocError> {
    if all.is_empty() {
        return Ok(());
    }
    push_part(told, part)?;
    for one in all.as_slice() {
        push_pair(told, one.name.as_str(), one.specifier.as_str())?;
    }
    Ok(())
}

fn push_peers(told: &mut String, all: &Peers) -> Result<(), AllocError> {
    if all.is_empty() {
        return Ok(());
    }
    push_part(told, "peers")?;
    for one in all.as_slice() {
        push_pair(told, one.name.as_str(), one.text.as_str())?;
        told.push_str(if one.optional { "?" } else { "" })?;
    }
    Ok(())
}

fn push_entries(told: &mut String, part: &str, all: &Entries) -> Result<(), AllocError> {
    if all.is_empty() {
        return Ok(());
    }
    push_part(told, part)?;
    for one in all.as_slice() {
        push_pair(told, one.key.as_str(), one.text.as_str())?;
    }
    Ok(())
}

fn push_names(told: &mut String, part: &str, all: &Names) -> Result<(), AllocError> {
    if all.as_slice().is_empty() {
        return Ok(());
    }
    push_part(told, part)?;
    for name in all.as_slice() {
        told.push_str(" ")?;
        told.push_str(name.as_str())?;
    }
    Ok(())
}

fn told_manifest(alloc: Global, manifest: &Manifest) -> Result<String, AllocError> {
    let mut told = String::new(alloc);
    push_own(alloc, &mut told, manifest)?;
    push_dependencies(&mut told, "dependencies", &manifest.dependencies)?;
    push_dependencies(&mut told, "dev", &manifest.dev)?;
    push_dependencies(&mut told, "optional", &manifest.optional)?;
    push_peers(&mut told, &manifest.peers)?;
    push_entries(&mut told, "scripts", &manifest.scripts)?;
    push_entries(&mut told, "bins", &manifest.bins)?;
    push_names(&mut told, "injected", &manifest.injected)?;
    push_entries(&mut told, "overrides", &manifest.overrides)?;
    Ok(told)
}

fn told_why(alloc: Global, why: &ManifestWhy) -> Result<String, AllocError> {
    match why {
        ManifestWhy::Missing => String::from_str(alloc, "no file"),
        ManifestWhy::NotJson => String::from_str(alloc, "no object"),
        ManifestWhy::BadField(field, key) => format!(in alloc; "{field} {key}"),
    }
}

fn told(alloc: Global, text: &str) -> Result<String, AllocError> {
    match Manifest::read(alloc, text.as_bytes()) {
        Ok(manifest) => told_manifest(alloc, &manifest),
        Err(ManifestFault::Wrong(why)) => told_why(alloc, &why),
        Err(ManifestFault::Memory) => Err(AllocError),
    }
}

#[test]
fn each_field_is_read(rt: HostRuntime) -> Result<(), Fail> {
    for &(text, wanted) in GOOD {
        assert_eq!(rt; told(rt.alloc(), text)?.as_str(), wanted, "{text}");
    }
    Ok(())
}

#[test]
fn the_first_wrong_field_and_key_are_named(rt: HostRuntime) -> Result<(), Fail> {
    for &(text, wanted) in BAD {
        assert_eq!(rt; told(rt.alloc(), text)?.as_str(), wanted, "{text}");
    }
    Ok(())
}

#[test]
fn a_copy_says_the_same(rt: HostRuntime) -> Result<(), Fail> {
    let text =
        r#"{"name": "@s/x", "version": "1.0.0", "dependencies": {"a": "1"}, "devDependencies": {"b": "2"}, "optionalDependencies": {"c": "3"}, "peerDependencies": {"d": "4"}, "scripts": {"e": "5"}, "bin": "f.js", "dependenciesMeta": {"a": {"injected": true}}, "pnpm": {"overrides": {"g": "6"}}}"#;
    let wanted =
        "name @s/x, version 1.0.0, dependencies a=1, dev b=2, optional c=3, peers d=4, scripts e=5, bins x=f.js, injected a, overrides g=6";
    let copy = Manifest::read(rt.alloc(), text.as_bytes())?.copy(rt.alloc())?;
    assert_eq!(rt; told_manifest(rt.alloc(), &copy)?.as_str(), wanted);
    Ok(())
}
