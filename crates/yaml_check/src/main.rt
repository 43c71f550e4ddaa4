//! Reads lines of hexadecimal digits, each the bytes of a text of the YAML subset, and prints for each what the text
//! says: JSON in which keys and scalars are the hexadecimal digits of their texts. Behind a tab come the digits of the
//! text that is printed of it again, or `-` where it is no map. Of a refused text it prints `refused`, the line where
//! one is named, and the fault.
#![tactic(auto)]

ghost use Rattle.std.specs.Prelude.{◌≡◌, ◌≤◌, true};
ghost use Rattle.pn_yaml.specs.Data.{are_apart, depth};
ghost use Rattle.pn_yaml.specs.View.{view};

use pn_yaml::{Node, YamlFault, read};
use pn_yaml_print::print;
use std::alloc::{AllocError, Global};
use std::io;

// A text's digits, in quotes.
fn push_digits(alloc: Global, out: &mut String, text: &str) -> Result<(), AllocError> {
    out.push('"')?;
    out.push_str(hex::encode(alloc, text.as_bytes())?.as_str())?;
    out.push('"')
}

fn push_node(alloc: Global, out: &mut String, node: &Node) -> Result<(), AllocError> {
    match node {
        Node::Scalar(scalar) => push_digits(alloc, out, scalar.text.as_str()),
        Node::List(items) => {
            out.push('[')?;
            for (i, item) in items.as_slice().iter().enumerate() {
                if i > 0 {
                    out.push(',')?;
                }
                push_node(alloc, out, item)?;
            }
            out.push(']')
        }
        Node::Map(members) => {
            out.push('{')?;
            for (i, (key, value)) in members.as_slice().iter().enumerate() {
                if i > 0 {
                    out.push(',')?;
                }
                push_digits(alloc, out, key.as_str())?;
                out.push(':')?;
                push_node(alloc, out, value)?;
            }
            out.push('}')
        }
    }
}

// The digits of the text that is printed of a map.
fn push_printed(alloc: Global, out: &mut String, node: &Node) -> Result<(), AllocError>
    requires apart { are_apart (view node.now) ≡ true }
    requires flat { depth (view node.now) ≤ 64 }
{
    out.push('\t')?;
    match node {
        Node::Map(_) => match print(alloc, node) {
            Ok(bytes) => out.push_str(hex::encode(alloc, bytes.as_slice())?.as_str()),
            Err(_) => Err(AllocError),
        },
        _ => out.push('-'),
    }
}

fn refusal(alloc: Global, fault: YamlFault) -> Result<String, AllocError> {
    match fault {
        YamlFault::NotUtf8 => String::from_str(alloc, "refused not UTF-8"),
        YamlFault::Line(line, why) => {
            let why = why.text();
            format!(in alloc; "refused {line} {why}")
        }
        YamlFault::TooDeep => String::from_str(alloc, "refused too deep"),
        YamlFault::Memory => Err(AllocError),
    }
}

fn answer(alloc: Global, line: &str) -> Result<String, AllocError> {
    let Ok(bytes) = hex::decode(alloc, line.as_bytes()) else {
        return String::from_str(alloc, "no digits");
    };
    if bytes.len() > u32::MAX as usize {
        return String::from_str(alloc, "too long");
    }
    let node = match read(alloc, bytes.as_slice()) {
        Ok(node) => node,
        Err(fault) => return refusal(alloc, fault),
    };
    let mut out = String::new(alloc);
    push_node(alloc, &mut out, &node)?;
    push_printed(alloc, &mut out, &node)?;
    Ok(out)
}

fn main(rt: HostRuntime) -> io::Result<()> {
    let alloc = rt.alloc();
    for line in rt.lines(alloc) {
        let line = line?;
        match answer(alloc, line.as_str()) {
            Ok(text) => println!(rt; "{text}")?,
            Err(_) => println!(rt; "out of memory")?,
        }
    }
    Ok(())
}
