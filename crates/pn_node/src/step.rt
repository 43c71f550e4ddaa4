// The steps that a text stands for.
ghost use Rattle.std.specs.Prelude.{◌≡◌, ◌++◌, ◌∷◌, IfOk, OnOk, IsTrue};
ghost use Rattle.std.specs.Option.{MatchOption};
ghost use Rattle.pn_text.specs.Path.{is_flat, tail_of};
ghost use Rattle.pn_node.specs.Find.{text_steps, before_steps};
ghost use Rattle.pn_node.specs.Steps.{steps_of, IsStepOf};

use crate::name::Name;
use pn_text::{Memory, Text};
use std::alloc::Global;

/// A step to the parent, or to the entry with a name.
#[derive(Drop)]
pub enum Step {
    Up,
    Into(Name),
}

/// Puts the steps of a text before others. The next step stands last.
pub fn put_text(alloc: Global, steps: &mut Vec<Step>, text: &str) -> Result<(), Memory>
    ensures { OnOk result (steps_of steps.new.items ≡ text_steps (tail_of text.now) (steps_of steps.old.items)) }
{
    let mut front = text;
    'parts: while let Some((rest, part)) = last_part(front) {
        put_part(alloc, steps, part)?;
        front = rest;
    }
    put_part(alloc, steps, front)
}

// What stands before the last slash, and behind it.
fn last_part(text: &str) -> Option<(&str, &str)>
    ensures { MatchOption result (IsTrue (is_flat text.now)) (λ cut. (text.now ≡ cut.0.now ++ 47 ∷ cut.1.now) × IsTrue (is_flat cut.1.now)) }
{
    text.rsplit_once('/')
}

fn put_part(alloc: Global, steps: &mut Vec<Step>, part: &str) -> Result<(), Memory>
    requires { IsTrue (is_flat part.now) }
    ensures { OnOk result (steps_of steps.new.items ≡ before_steps part.now (steps_of steps.old.items)) }
{
    if let Some(step) = read_step(alloc, part)? {
        steps.push(step)?;
    }
    Ok(())
}

// The step that a part of a text stands for: none for the empty part and `.`.
fn read_step(alloc: Global, part: &str) -> Result<Option<Step>, Memory>
    requires { IsTrue (is_flat part.now) }
    ensures { IfOk result (IsStepOf part.now) }
{
    match part.as_bytes() {
        [] | [b'.'] => Ok(None),
        [b'.', b'.'] => Ok(Some(Step::Up)),
        _ => {
            let text = Text::of(alloc, part)?;
            Ok(Some(Step::Into(Name { text })))
        }
    }
}
