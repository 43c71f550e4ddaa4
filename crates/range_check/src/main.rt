//! Reads lines of a version range, a tab and a version, and prints for each `true` where the range holds the version,
//! `false` where it doesn't, `refused` where one of the two can't be read, and `out of memory` where there is none for the
//! range.
#![tactic(auto)]

use pn_ranges::{Range, RangeFault};
use semver::Version;
use std::alloc::Global;
use std::io;

// None where there is no memory for the range.
fn answer(alloc: Global, range: &str, version: &str) -> Option<&'static str> {
    let range = match Range::read(alloc, range) {
        Ok(range) => range,
        Err(RangeFault::Memory) => return None,
        Err(_) => return Some("refused"),
    };
    match Version::parse(alloc, version) {
        Ok(version) if range.holds(&version) => Some("true"),
        Ok(_) => Some("false"),
        Err(_) => Some("refused"),
    }
}

fn main(rt: HostRuntime) -> io::Result<()> {
    for line in rt.lines(rt.alloc()) {
        let line = line?;
        let text = match line.as_str().rsplit_once('\t') {
            Some((range, version)) => answer(rt.alloc(), range, version),
            None => Some("refused"),
        };
        match text {
            Some(text) => println!(rt; "{text}")?,
            None => println!(rt; "out of memory")?,
        }
    }
    Ok(())
}
