//! Reads a lockfile from standard input and prints it as pnpm-rs does, or tells why it is none. With the argument `bench` it
//! measures how fast a lockfile of some 5 MB is read and printed, since the times differ from run to run, and with `text`
//! it prints that lockfile. It ends with status 1 where the lockfile isn't read, or other bytes are printed of that one.
#![tactic(auto)]

mod text;

ghost use Rattle.std.specs.Prelude.{◌≡◌, true, IfOk};
ghost use Rattle.pn_yaml.specs.Data.{are_apart};
ghost use Rattle.pn_yaml.specs.View.{view};

use pn_lock::Lock;
use pn_lock_print::print;
use pn_yaml::Node;
use std::alloc::{AllocError, Global};
use std::process::ExitCode;
use std::time::{Duration, Instant};
use std::{env, io};
use text::lockfile;

const ROUNDS: u32 = 5;

// Why bytes say no lock, as it is told.
fn told(alloc: Global, text: Result<String, AllocError>) -> String {
    text.unwrap_or(String::new(alloc))
}

// What bytes say, or why it is nothing.
fn node_of(alloc: Global, bytes: &[u8]) -> Result<Node, String>
    ensures apart { IfOk result (λ n. are_apart (view n) ≡ true) }
{
    if bytes.len() > u32::MAX as usize {
        return Err(told(alloc, String::from_str(alloc, "too long")));
    }
    match pn_yaml::read(alloc, bytes) {
        Ok(node) => Ok(node),
        Err(fault) => Err(told(alloc, format!(in alloc; "{fault}"))),
    }
}

// The lock that a node says, or why it says none.
fn lock_of(alloc: Global, node: &Node) -> Result<Lock, String>
    requires { are_apart (view node.now) ≡ true }
{
    match pn_lock_read::read(alloc, node) {
        Ok(lock) => Ok(lock),
        Err(fault) => Err(told(alloc, format!(in alloc; "{fault}"))),
    }
}

fn print_speed(rt: &HostRuntime, what: &str, bytes: usize, time: Duration) -> io::Result<()> {
    let micros = time.as_micros().max(1);
    let speed = bytes as u128 / micros;
    println!(rt; "{what}: {speed} MB/s")
}

// Whether the lock is printed as these bytes.
fn measure_print(rt: &HostRuntime, lock: &Lock, bytes: &[u8]) -> io::Result<bool> {
    let start = Instant::now(rt)?;
    let Ok(printed) = print(rt.alloc(), lock) else {
        println!(rt; "not printed")?;
        return Ok(false);
    };
    let time = start.elapsed(rt)?;
    print_speed(rt, "print", printed.len(), time)?;
    let same = printed.as_slice() == bytes;
    if !same {
        println!(rt; "other bytes are printed")?;
    }
    Ok(same)
}

// Whether the bytes are read, and printed again.
fn measure(rt: &HostRuntime, bytes: &[u8]) -> io::Result<bool> {
    let start = Instant::now(rt)?;
    let node = match node_of(rt.alloc(), bytes) {
        Ok(node) => node,
        Err(why) => return tell(rt, why.as_str()),
    };
    let time = start.elapsed(rt)?;
    print_speed(rt, "read as YAML", bytes.len(), time)?;
    let lock = match lock_of(rt.alloc(), &node) {
        Ok(lock) => lock,
        Err(why) => return tell(rt, why.as_str()),
    };
    let time = start.elapsed(rt)?;
    print_speed(rt, "read as a lock", bytes.len(), time)?;
    measure_print(rt, &lock, bytes)
}

// Tells why there is no lock.
fn tell(rt: &HostRuntime, why: &str) -> io::Result<bool> {
    println!(rt; "{why}")?;
    Ok(false)
}

// Whether all rounds go well.
fn measure_rounds(rt: &HostRuntime, bytes: &[u8]) -> io::Result<bool> {
    for _ in 0..ROUNDS {
        if !measure(rt, bytes)? {
            return Ok(false);
        }
    }
    println!(rt; "the same bytes are printed")?;
    Ok(true)
}

fn add_line(text: &mut String, line: &str) -> Result<(), AllocError> {
    text.push_str(line)?;
    text.push_str("\n")
}

// Prints the lockfile that stands on standard input.
fn print_input(rt: &HostRuntime) -> io::Result<bool> {
    let mut text = String::new(rt.alloc());
    for line in rt.lines(rt.alloc()) {
        let line = line?;
        if add_line(&mut text, line.as_str()).is_err() {
            println!(rt; "out of memory")?;
            return Ok(false);
        }
    }
    print_again(rt, text.as_bytes())
}

// Prints the lockfile of these bytes, or why they are none.
fn print_again(rt: &HostRuntime, bytes: &[u8]) -> io::Result<bool> {
    let node = match node_of(rt.alloc(), bytes) {
        Ok(node) => node,
        Err(why) => return tell(rt, why.as_str()),
    };
    let lock = match lock_of(rt.alloc(), &node) {
        Ok(lock) => lock,
        Err(why) => return tell(rt, why.as_str()),
    };
    let Ok(printed) = print(rt.alloc(), &lock) else {
        println!(rt; "out of memory")?;
        return Ok(false);
    };
    let Ok(text) = str::from_utf8(printed.as_slice()) else {
        return Ok(false);
    };
    print!(rt; "{text}")?;
    Ok(true)
}

fn has_word(rt: &HostRuntime, wanted: &str) -> io::Result<bool> {
    Ok(env::args(rt)?.skip(1).any(|word| word.as_str() == wanted))
}

// Does what the words ask for. Whether it goes well.
fn start(rt: &HostRuntime) -> io::Result<bool> {
    let is_bench = has_word(rt, "bench")?;
    if !is_bench && !has_word(rt, "text")? {
        return print_input(rt);
    }
    let Ok(text) = lockfile(rt.alloc()) else {
        println!(rt; "out of memory")?;
        return Ok(false);
    };
    if is_bench {
        return measure_rounds(rt, text.as_bytes());
    }
    let text = text.as_str();
    print!(rt; "{text}")?;
    Ok(true)
}

fn main(rt: HostRuntime) -> io::Result<ExitCode> {
    if start(&rt)? {
        Ok(ExitCode::SUCCESS)
    } else {
        Ok(ExitCode::FAILURE)
    }
}
