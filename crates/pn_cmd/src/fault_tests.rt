// Runs in which calls of the outside fail.

use crate::fixtures::{A, B, PROJECT, fill, run_in};
use pn_fs::{Fs, Kind, MemFs, MemSink, ReadFs, SureFs, SureSink};
use pn_text::AbsPath;
use std::alloc::Global;
use std::test::Fail;

// A run in which a call of a tree fails: the status, what it tells, whether the managed folder stands, the numbers of that
// tree's first call in the run and of the call behind its last one, and the status of a second run over what the first left.
#[derive(Drop)]
struct Trial {
    code: u8,
    again: u8,
    err: SureSink,
    stands: bool,
    first: u64,
    end: u64,
}

fn stands<P: ReadFs>(alloc: Global, fs: &mut P) -> Result<bool, Fail> {
    let path = AbsPath::read(alloc, "/w/node_modules")?;
    Ok(fs.kind(&path)? == Kind::Folder)
}

fn install<P: Fs, R: ReadFs>(
    alloc: Global,
    project: &mut P,
    registry: &mut R,
) -> Result<(u8, SureSink), Fail> {
    let mut out = SureSink::new(alloc);
    let mut err = SureSink::new(alloc);
    let code = run_in(
        alloc, "/w", "install", project, registry, &mut out, &mut err,
    )?;
    Ok((code, err))
}

// The k-th call of the project fails.
fn with_project(alloc: Global, k: u64) -> Result<Trial, Fail> {
    let mut project = MemFs::new(alloc, vec![in alloc; k]?);
    fill(alloc, &mut project, PROJECT)?;
    let mut registry = SureFs::new(alloc);
    fill(alloc, &mut registry, A)?;
    fill(alloc, &mut registry, B)?;
    let first = project.calls();
    let (code, err) = install(alloc, &mut project, &mut registry)?;
    let end = project.calls();
    let stands = stands(alloc, &mut project)?;
    let (again, _) = install(alloc, &mut project, &mut registry)?;
    Ok(Trial {
        code,
        again,
        err,
        first,
        end,
        stands,
    })
}

// The k-th call of the registry fails.
fn with_registry(alloc: Global, k: u64) -> Result<Trial, Fail> {
    let mut project = SureFs::new(alloc);
    fill(alloc, &mut project, PROJECT)?;
    let mut registry = MemFs::new(alloc, vec![in alloc; k]?);
    fill(alloc, &mut registry, A)?;
    fill(alloc, &mut registry, B)?;
    let first = registry.calls();
    let (code, err) = install(alloc, &mut project, &mut registry)?;
    let end = registry.calls();
    let stands = stands(alloc, &mut project)?;
    let (again, _) = install(alloc, &mut project, &mut registry)?;
    Ok(Trial {
        code,
        again,
        err,
        first,
        end,
        stands,
    })
}

#[test]
fn each_failed_call_of_the_project_is_told(rt: HostRuntime) -> Result<(), Fail> {
    let alloc = rt.alloc();
    let whole = with_project(alloc, u64::MAX)?;
    assert_eq!(rt; whole.code, 0);
    assert!(rt; whole.stands);
    for k in whole.first..whole.end {
        let trial = with_project(alloc, k)?;
        assert_eq!(rt; trial.code, 20);
        assert_eq!(rt; trial.err.bytes(), b"pnpm-rs: project fault\n".as_slice());
        assert_eq!(rt; trial.end, k + 1);
        assert_eq!(rt; trial.again, 0);
    }
    Ok(())
}

#[test]
fn each_failed_call_of_the_registry_is_told(rt: HostRuntime) -> Result<(), Fail> {
    let alloc = rt.alloc();
    let whole = with_registry(alloc, u64::MAX)?;
    assert_eq!(rt; whole.code, 0);
    assert!(rt; whole.end > whole.first);
    for k in whole.first..whole.end {
        let trial = with_registry(alloc, k)?;
        assert_eq!(rt; trial.code, 22);
        assert_eq!(rt; trial.err.bytes(), b"pnpm-rs: registry fault\n".as_slice());
        assert_eq!(rt; trial.end, k + 1);
        assert!(rt; !trial.stands);
        assert_eq!(rt; trial.again, 0);
    }
    Ok(())
}

#[test]
fn a_sink_that_fails_is_told_or_passed_over(rt: HostRuntime) -> Result<(), Fail> {
    let alloc = rt.alloc();
    // a dependency that isn't there is refused, and then no report is asked for
    for (project, out_fails, err_fails, code, calls, text) in [
        ("/w/package.json {}", 0, 1, 23, 1, "pnpm-rs: output fault\n"),
        ("/w/package.json {}", 1, 0, 0, 1, ""),
        (PROJECT, 0, 0, 6, 0, ""),
    ] {
        let mut tree = SureFs::new(alloc);
        fill(alloc, &mut tree, project)?;
        let mut registry = SureFs::new(alloc);
        let mut out = MemSink::new(alloc, vec![in alloc; out_fails]?);
        let mut err = MemSink::new(alloc, vec![in alloc; err_fails]?);
        let answer = run_in(
            alloc,
            "/w",
            "install",
            &mut tree,
            &mut registry,
            &mut out,
            &mut err,
        )?;
        assert_eq!(rt; answer, code);
        assert_eq!(rt; out.calls(), calls);
        assert_eq!(rt; err.bytes(), text.as_bytes());
        assert_eq!(rt; stands(alloc, &mut tree)?, code != 6);
    }
    Ok(())
}
