// A lockfile as it is printed.
use std::alloc::{AllocError, Global};

const PACKAGES: u32 = 14_000;

const PROJECTS: u32 = 200;

const INTEGRITY: &str =
    "sha512-3a81oZNherrMQXNJriBBMRLm+k6JqX6iCp7u5ktV05ohkpkqJ0/BqDa6PCOj/uu9RU1EI2Q86A4qmslPpUyknw==";

const HEAD: &str = "lockfileVersion: '9.0'

settings:
  autoInstallPeers: true
  excludeLinksFromLockfile: false

importers:

  .:
    devDependencies:
      react:
        specifier: ^18.2.0
        version: 18.3.1

";

fn push_project(alloc: Global, text: &mut String, i: u32) -> Result<(), AllocError> {
    let line = format!(in alloc; "  packages/app-{i:03}:\n    dependencies:\n")?;
    text.push_str(line.as_str())?;
    text.push_str(
        "      '@acme/ui':\n        specifier: workspace:^\n        version: link:../ui\n      package-00001:\n        specifier: ^1.2.0\n        version: 1.2.3(react@18.3.1)\n\n",
    )
}

fn push_resolution(text: &mut String) -> Result<(), AllocError> {
    text.push_str("    resolution: {integrity: ")?;
    text.push_str(INTEGRITY)?;
    text.push_str("}\n")
}

fn push_package(alloc: Global, text: &mut String, i: u32) -> Result<(), AllocError> {
    let line = format!(in alloc; "  package-{i:05}@1.2.3:\n")?;
    text.push_str(line.as_str())?;
    push_resolution(text)?;
    if i % 3 != 0 {
        text.push_str(
            "    peerDependencies:\n      '@types/react': '*'\n      react: ^17.0.0 || ^18.0.0\n    peerDependenciesMeta:\n      '@types/react':\n        optional: true\n",
        )?;
    }
    text.push_str("\n")
}

fn push_snapshot(alloc: Global, text: &mut String, i: u32) -> Result<(), AllocError> {
    if i % 3 == 0 {
        let line = format!(in alloc; "  package-{i:05}@1.2.3: {{}}\n\n")?;
        return text.push_str(line.as_str());
    }
    let line = format!(in alloc; "  package-{i:05}@1.2.3(react@18.3.1):\n    dependencies:\n")?;
    text.push_str(line.as_str())?;
    text.push_str(
        "      alias: package-00002@1.2.3(react@18.3.1)\n      react: 18.3.1\n    optionalDependencies:\n      package-00000: 1.2.3\n    transitivePeerDependencies:\n      - '@types/react'\n\n",
    )
}

/// A lockfile of some 5 MB.
pub fn lockfile(alloc: Global) -> Result<String, AllocError> {
    let mut text = String::from_str(alloc, HEAD)?;
    for i in 0..PROJECTS {
        push_project(alloc, &mut text, i)?;
    }
    text.push_str("  packages/ui: {}\n\npackages:\n\n")?;
    for i in 0..PACKAGES {
        push_package(alloc, &mut text, i)?;
    }
    text.push_str("  react@18.3.1:\n")?;
    push_resolution(&mut text)?;
    text.push_str("\nsnapshots:\n\n")?;
    for i in 0..PACKAGES {
        push_snapshot(alloc, &mut text, i)?;
    }
    text.push_str("  react@18.3.1: {}\n")?;
    Ok(text)
}
