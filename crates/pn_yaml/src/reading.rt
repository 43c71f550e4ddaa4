// Reading a text.
ghost use Rattle.std.specs.Prelude.{◌≡◌, ◌<◌, ◌≤◌, ◌^◌, length, true, IfOk};
ghost use Rattle.pn_yaml.specs.Blocks.{says, text_says};
ghost use Rattle.pn_yaml.specs.Data.{are_apart, depth};
ghost use Rattle.pn_yaml.specs.Outcome.{Gives};
ghost use Rattle.pn_yaml.specs.View.{view};

use crate::block::root_at;
use crate::fault::{Why, YamlFault};
use crate::node::Node;
use crate::rows::{first_ahead, rows_of};
use sqlite_items::Items;
use std::alloc::Global;

fn read_text(alloc: Global, text: &str) -> Result<Node, YamlFault>
    requires { length text.now < 2 ^ 32 }
    ensures { Gives view result (text_says text.now) }
{
    let Some(front) = first_ahead(rows_of(text))? else {
        return Ok(Node::Map(Items::new(alloc)));
    };
    let (node, next) = root_at(alloc, front)?;
    match next {
        None => Ok(node),
        Some(left) => Err(YamlFault::Line(left.line.number, Why::Indent)),
    }
}

/// Reads a text of the YAML subset; no text at all is the empty map. The first line at fault is answered, counted
/// from 1, and `TooDeep` past 64 levels of maps, lists and scalars. What is read has no key twice in a map.
pub fn read(alloc: Global, bytes: &[u8]) -> Result<Node, YamlFault>
    requires { length bytes.now < 2 ^ 32 }
    ensures says { Gives view result (says bytes.now) }
    ensures apart { IfOk result (λ n. are_apart (view n) ≡ true) }
    ensures flat { IfOk result (λ n. depth (view n) ≤ 64) }
{
    match str::from_utf8(bytes) {
        Ok(text) => read_text(alloc, text),
        Err(_) => Err(YamlFault::NotUtf8),
    }
}
