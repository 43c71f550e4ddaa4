// Answers over a registry in memory.

use crate::{Files, FilesFault, PackageFault, PackageFile, files, manifest, stands};
use pn_fs::{Body, SureFs, try_make};
use pn_manifest::ManifestWhy;
use pn_text::{AbsPath, PkgId, PkgName, Text};
use std::alloc::Global;
use std::test::Fail;

fn put(alloc: Global, fs: &mut SureFs, path: &str, body: &Body) -> Result<(), Fail> {
    let path = AbsPath::read(alloc, path)?;
    try_make(fs, alloc, &path, body)?;
    Ok(())
}

fn file(alloc: Global, fs: &mut SureFs, path: &str, text: &str) -> Result<(), Fail> {
    let bytes = Vec::from_slice(alloc, text.as_bytes())?;
    put(alloc, fs, path, &Body::File(bytes))
}

fn registry(alloc: Global) -> Result<SureFs, Fail> {
    let mut fs = SureFs::new(alloc);
    for folder in [
        "/a",
        "/a/1.0.0",
        "/a/1.0.0/a",
        "/a/2.0.0",
        "/a/2.0.0/node_modules",
        "/a/4.0.0",
        "/a/5.0.0",
        "/a/4.0.0/c\nd",
        "/a/4.0.0/c\nd/node_modules",
    ] {
        put(alloc, &mut fs, folder, &Body::Folder)?;
    }
    let link = Text::of(alloc, "a/x")?;
    put(alloc, &mut fs, "/a/1.0.0/l", &Body::Link(link))?;
    file(
        alloc,
        &mut fs,
        "/a/1.0.0/package.json",
        r#"{"name":"a","version":"1.0.0"}"#,
    )?;
    file(alloc, &mut fs, "/a/1.0.0/a/x", "")?;
    file(alloc, &mut fs, "/a/1.0.0/a-b", "12")?;
    file(
        alloc,
        &mut fs,
        "/a/2.0.0/package.json",
        r#"{"name":"b","version":"2.0.0"}"#,
    )?;
    file(alloc, &mut fs, "/a/2.0.0/node_modules/k", "")?;
    file(
        alloc,
        &mut fs,
        "/a/5.0.0/package.json",
        r#"{"name":"a","version":"5.0.1"}"#,
    )?;
    file(alloc, &mut fs, "/a/4.0.0/a", "")?;
    file(alloc, &mut fs, "/a/4.0.0/a\nb", "")?;
    file(alloc, &mut fs, "/a/4.0.0/b", "1")?;
    file(alloc, &mut fs, "/a/4.0.0/c\nd/e", "")?;
    file(alloc, &mut fs, "/a/4.0.0/c\nd/node_modules/k", "")?;
    Ok(fs)
}

fn id(alloc: Global, version: &str) -> Result<Option<PkgId>, Fail> {
    let name = PkgName::read(alloc, "a")?;
    Ok(PkgId::of(alloc, &name, version)?)
}

// The files, each with a `+` where it isn't empty.
fn lines(alloc: Global, files: &[PackageFile]) -> Result<String, Fail> {
    let mut all = String::new(alloc);
    for one in files {
        all.push_str(one.path.as_str())?;
        all.push_str(if one.length == 0 { " " } else { "+ " })?;
    }
    Ok(all)
}

fn told(alloc: Global, found: Result<Files, FilesFault>) -> Result<String, Fail> {
    match found {
        Ok(files) => lines(alloc, files.as_slice()),
        Err(FilesFault::Modules(path)) => Ok(String::from_str(alloc, path.as_str())?),
        Err(_) => Ok(String::from_str(alloc, "refused")?),
    }
}

// The files of a version, or what is wrong with it.
fn listed(alloc: Global, version: &str) -> Result<String, Fail> {
    let mut fs = registry(alloc)?;
    let Some(id) = id(alloc, version)? else {
        return Ok(String::from_str(alloc, "no version")?);
    };
    if !stands(alloc, &mut fs, &id)? {
        return Ok(String::from_str(alloc, "none")?);
    }
    let found = files(alloc, &mut fs, &id);
    told(alloc, found)
}

#[test]
fn files_are_in_byte_order(rt: HostRuntime) -> Result<(), Fail> {
    let alloc = rt.alloc();
    for (version, text) in [
        ("1.0.0", "a-b+ a/x package.json+ "),
        ("2.0.0", "node_modules/k"),
        ("3.0.0", "none"),
        ("4.0.0", "a b+ "),
    ] {
        let answer = listed(alloc, version)?;
        assert_eq!(rt; answer.as_str(), text);
    }
    Ok(())
}

// What is wrong with a version's manifest.
fn wrong(alloc: Global, version: &str) -> Result<String, Fail> {
    let mut fs = registry(alloc)?;
    let Some(id) = id(alloc, version)? else {
        return Ok(String::from_str(alloc, "no version")?);
    };
    let text = match manifest(alloc, &mut fs, &id) {
        Ok(_) => "nothing",
        Err(PackageFault::Wrong(ManifestWhy::Missing)) => "missing",
        Err(PackageFault::Wrong(ManifestWhy::BadField(field, _))) => return Ok(String::from_str(
            alloc,
            field.as_str(),
        )?),
        Err(_) => "other",
    };
    Ok(String::from_str(alloc, text)?)
}

#[test]
fn a_package_states_its_own_name_and_version(rt: HostRuntime) -> Result<(), Fail> {
    let alloc = rt.alloc();
    for (version, text) in [
        ("1.0.0", "nothing"),
        ("2.0.0", "name"),
        ("3.0.0", "missing"),
        ("5.0.0", "version"),
    ] {
        let answer = wrong(alloc, version)?;
        assert_eq!(rt; answer.as_str(), text);
    }
    Ok(())
}
