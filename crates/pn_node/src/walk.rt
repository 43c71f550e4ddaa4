// A walk along steps, over folders and links.
ghost use Rattle.std.specs.Prelude.{◌≡◌, [], OnOk, IfOk, IfSome};
ghost use Rattle.pn_text.specs.Path.{tail_of};
ghost use Rattle.pn_text.specs.Causes.{HasCause};
ghost use Rattle.pn_fs.specs.Seen.{Keeps};
ghost use Rattle.pn_node.specs.Find.{text_steps, walk};
ghost use Rattle.pn_node.specs.Steps.{step_of, steps_of};
ghost use Rattle.pn_node.specs.Legs.{Goes, GoesFrom, EndsAt, EndsAtFile, EndsBehind};

use crate::entry::{Met, meet, parent};
use crate::step::{Step, put_text};
use pn_fs::ReadFs;
use pn_text::{AbsPath, DevFault, Memory};
use std::alloc::Global;

/// Where a leg of a walk ends: at the end of the walk, nowhere, or behind a link.
#[derive(Clone, Copy)]
pub enum Leg {
    There,
    Nowhere,
    Onward,
}

/// The place that a walk came to, and the steps that are left, the next one last.
#[derive(Drop)]
pub struct Walk {
    pub at: AbsPath,
    pub steps: Vec<Step>,
}

impl Walk {
    /// A walk that has come to its end.
    pub fn new(alloc: Global, at: AbsPath) -> Walk
        ensures at { result.at ≡ at }
        ensures steps { result.steps.items ≡ [] }
    {
        Walk {
            at,
            steps: Vec::new(alloc),
        }
    }

    /// Puts the steps of a text before the others.
    pub fn put(&mut self, alloc: Global, text: &str) -> Result<(), Memory>
        ensures at { OnOk result (self.new.at ≡ self.old.at) }
        ensures steps { OnOk result (steps_of self.new.steps.items ≡ text_steps (tail_of text.now) (steps_of self.old.steps.items)) }
    {
        put_text(alloc, &mut self.steps, text)
    }

    /// Where the walk ends, over at most so many links, if it ends anywhere.
    pub fn finish<R: ReadFs>(
        mut self,
        alloc: Global,
        fs: &mut R,
        mut links: u64,
    ) -> Result<Option<AbsPath>, DevFault>
        ensures found { IfSome (R.seen fs.old).tree (λ t. IfOk result (λ found. found ≡ walk links t self.at (steps_of self.steps.items))) }
        ensures kept { Keeps (R.seen fs.old) (R.seen fs.new) }
        ensures cause { HasCause (R.seen fs.old).faults (R.seen fs.new).faults result }
    {
        'legs: loop {
            match self.leg(alloc, fs)? {
                Leg::There => return Ok(Some(self.at)),
                Leg::Nowhere => return Ok(None),
                Leg::Onward => {}
            }
            if links == 0 {
                return Ok(None);
            }
            links -= 1;
        }
    }

    // Walks on up to the end of the walk or behind the next link.
    fn leg<R: ReadFs>(&mut self, alloc: Global, fs: &mut R) -> Result<Leg, DevFault>
        ensures goes { IfSome (R.seen fs.old).tree (λ t. IfOk result (EndsAt t self.old.at (steps_of self.old.steps.items) self.new.at (steps_of self.new.steps.items))) }
        ensures kept { Keeps (R.seen fs.old) (R.seen fs.new) }
        ensures cause { HasCause (R.seen fs.old).faults (R.seen fs.new).faults result }
    {
        'steps: while let Some(step) = self.steps.pop() {
            if let Some(leg) = self.take(alloc, fs, step)? {
                return Ok(leg);
            }
        }
        Ok(Leg::There)
    }

    // Takes a step.
    fn take<R: ReadFs>(
        &mut self,
        alloc: Global,
        fs: &mut R,
        step: Step,
    ) -> Result<Option<Leg>, DevFault>
        ensures goes { IfSome (R.seen fs.old).tree (λ t. IfOk result (Goes t self.old.at (step_of step) (steps_of self.old.steps.items) self.new.at (steps_of self.new.steps.items))) }
        ensures left { IfOk result (λ leg. leg ≡ None → self.new.steps ≡ self.old.steps) }
        ensures kept { Keeps (R.seen fs.old) (R.seen fs.new) }
        ensures cause { HasCause (R.seen fs.old).faults (R.seen fs.new).faults result }
    {
        match step {
            Step::Up => {
                self.at = parent(alloc, &self.at)?;
                Ok(None)
            }
            Step::Into(name) => {
                let met = meet(alloc, fs, &self.at, name.text.as_str())?;
                Ok(self.enter(alloc, met)?)
            }
        }
    }

    // Goes on at what is met.
    fn enter(&mut self, alloc: Global, met: Met) -> Result<Option<Leg>, Memory>
        ensures goes { IfOk result (GoesFrom self.old.at met (steps_of self.old.steps.items) self.new.at (steps_of self.new.steps.items)) }
        ensures left { IfOk result (λ leg. leg ≡ None → self.new.steps ≡ self.old.steps) }
    {
        match met {
            Met::Nothing => Ok(Some(Leg::Nowhere)),
            Met::Folder(path) => {
                self.at = path;
                Ok(None)
            }
            Met::File(path) => Ok(Some(self.stop(path))),
            Met::Link(text) => Ok(Some(self.follow(alloc, text.as_str())?)),
        }
    }

    // Stops at a file, which has no further steps.
    fn stop(&mut self, file: AbsPath) -> Leg
        ensures { EndsAtFile file (steps_of self.old.steps.items) self.new.at (steps_of self.new.steps.items) result }
    {
        if !self.steps.as_slice().is_empty() {
            return Leg::Nowhere;
        }
        self.at = file;
        Leg::There
    }

    // Goes on behind a link, along its text.
    fn follow(&mut self, alloc: Global, text: &str) -> Result<Leg, Memory>
        ensures { IfOk result (EndsBehind self.old.at text.now (steps_of self.old.steps.items) self.new.at (steps_of self.new.steps.items)) }
    {
        match text.as_bytes() {
            [] => return Ok(Leg::Nowhere),
            [b'/', ..] => self.at = AbsPath::root(alloc)?,
            _ => {}
        }
        self.put(alloc, text)?;
        Ok(Leg::Onward)
    }
}
