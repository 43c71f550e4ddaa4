//! Measures how long it takes to read ranges and to ask them for versions. It does so where its argument is `bench`,
//! since the times differ from run to run.
#![tactic(auto)]

use pn_ranges::Range;
use semver::Version;
use std::hint::black_box;
use std::time::{Duration, Instant};
use std::{env, io};

const ROUNDS: u32 = 1_000_000;

const RANGES: [&str; 2] = ["^1.2.3", ">=1 <3 || 4.x"];

const VERSIONS: [&str; 3] = ["1.9.0", "4.1.0", "1.2.4-rc.1"];

fn print_time(rt: &HostRuntime, what: &str, time: Duration) -> io::Result<()> {
    let nanos = time.as_nanos() / u128::from(ROUNDS);
    println!(rt; "{what}: {nanos} ns")
}

// Reads the text so many times. Whether it is a range.
fn reads(rt: &HostRuntime, text: &str) -> bool {
    let mut read = true;
    for _ in 0..ROUNDS {
        read = Range::read(rt.alloc(), black_box(text)).is_ok();
    }
    read
}

// Asks for the version so many times. Whether the range holds it.
fn holds(range: &Range, version: &Version) -> bool {
    let mut held = false;
    for _ in 0..ROUNDS {
        held = black_box(range).holds(black_box(version));
    }
    held
}

fn measure_version(rt: &HostRuntime, range: &Range, version: &Version) -> io::Result<()> {
    let start = Instant::now(rt)?;
    let held = holds(range, version);
    let time = start.elapsed(rt)?;
    println!(rt; "  holds {version}: {held}")?;
    print_time(rt, "    a call", time)
}

fn measure_range(rt: &HostRuntime, text: &str) -> io::Result<()> {
    let start = Instant::now(rt)?;
    let read = reads(rt, text);
    let time = start.elapsed(rt)?;
    println!(rt; "read {text}: {read}")?;
    print_time(rt, "  a call", time)?;
    let Ok(range) = Range::read(rt.alloc(), text) else {
        return Ok(());
    };
    for text in VERSIONS {
        if let Ok(version) = Version::parse(rt.alloc(), text) {
            measure_version(rt, &range, &version)?;
        }
    }
    Ok(())
}

fn is_bench(rt: &HostRuntime) -> io::Result<bool> {
    Ok(env::args(rt)?.skip(1).any(|word| word.as_str() == "bench"))
}

fn main(rt: HostRuntime) -> io::Result<()> {
    if !is_bench(&rt)? {
        return println!(rt; "range_bench bench: how long ranges take");
    }
    for text in RANGES {
        measure_range(&rt, text)?;
    }
    Ok(())
}
