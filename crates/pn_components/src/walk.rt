// A walk along the edges of a graph.
ghost use Rattle.std.specs.Prelude.{◌≡◌, ◌≢◌, ◌<◌, ◌≤◌, ◌+◌, ◌^◌, ℕ, [], IfOk, OnOk, length, get_or};
ghost use Rattle.std.specs.List.{Contains};
ghost use Rattle.pn_components.specs.declared.walk.Mark.TheVariants.{New};
ghost use Rattle.pn_components.specs.declared.walk.Part.{Part};
ghost use Rattle.pn_components.specs.Rows.{AreWithin, rows_of};
ghost use Rattle.pn_components.specs.Walks.{AllReach, IsLast, KeepsMet, mark_of};

use pn_text::Memory;
use std::alloc::Global;

/// What is known of a place.
#[derive(Clone, Copy)]
pub(crate) enum Mark {
    New,
    /// Its place on the stack.
    Open(usize),
    /// The number of its component.
    Done(u32),
}

/// A part of the stack: where it begins, and where the targets of its places begin that still wait.
#[derive(Clone, Copy)]
pub(crate) struct Part {
    pub first: usize,
    pub waiting: usize,
}

/// A walk along the edges, which are kept as the targets of each place.
#[derive(Drop)]
pub(crate) struct Walk {
    pub rows: Vec<Vec<u32>>,
    pub marks: Vec<Mark>,
    pub stack: Vec<u32>,
    pub parts: Vec<Part>,
    pub waiting: Vec<u32>,
    pub closed: u32,
}

impl Walk {
    ghost use Rattle.pn_components.specs.WalkStates.{IsOn, KeepsWay, work_of};

    /// No place is met.
    pub(crate) fn new(alloc: Global, rows: Vec<Vec<u32>>) -> Result<Walk, Memory>
        requires within { AreWithin (rows_of rows.items) }
        requires few { length rows.items < 2 ^ 32 }
        ensures walk { IfOk result IsOn }
        ensures none { IfOk result (λ w. w.parts.items ≡ []) }
        ensures rows { IfOk result (λ w. w.rows.items ≡ rows.items) }
    {
        let marks = vec![in alloc; Mark::New; rows.len()]?;
        Ok(Walk {
            rows,
            marks,
            stack: Vec::new(alloc),
            parts: Vec::new(alloc),
            waiting: Vec::new(alloc),
            closed: 0,
        })
    }

    /// Meets a place, and all that it reaches.
    pub(crate) fn visit(&mut self, root: u32) -> Result<(), Memory>
        requires walk { IsOn self.old }
        requires none { self.old.parts.items ≡ [] }
        requires within { root < length self.old.rows.items }
        ensures walk { OnOk result (IsOn self.new) }
        ensures none { OnOk result (self.new.parts.items ≡ []) }
        ensures rows { OnOk result (self.new.rows.items ≡ self.old.rows.items) }
        ensures kept { OnOk result (KeepsMet self.old.marks.items self.new.marks.items) }
        ensures met { OnOk result (mark_of self.new.marks.items root ≢ New) }
    {
        if let Mark::New = self.marks[root as usize] {
            self.enter(root)?;
        }
        'parts: while !self.parts.is_empty() {
            self.step()?;
        }
        Ok(())
    }

    // Looks at the last part: at its last waiting target, or, without one, at the part itself, which is a component.
    fn step(&mut self) -> Result<(), Memory>
        requires walk { IsOn self.old }
        requires some { self.old.parts.items ≢ [] }
        ensures walk { OnOk result (IsOn self.new) }
        ensures rows { OnOk result (self.new.rows.items ≡ self.old.rows.items) }
        ensures kept { OnOk result (KeepsMet self.old.marks.items self.new.marks.items) }
        ensures nearer { OnOk result (work_of self.new < work_of self.old) }
    {
        let part = self.parts[self.parts.len() - 1];
        if self.waiting.len() <= part.waiting {
            self.close(part.first);
            return Ok(());
        }
        let target = self.waiting[self.waiting.len() - 1];
        match self.marks[target as usize] {
            Mark::New => self.enter(target),
            Mark::Open(place) => {
                self.join(place);
                let _ = self.waiting.pop();
                Ok(())
            }
            Mark::Done(_) => {
                let _ = self.waiting.pop();
                Ok(())
            }
        }
    }

    // Puts a place on the stack, as a part of its own, whose targets wait.
    fn enter(&mut self, place: u32) -> Result<(), Memory>
        requires walk { IsOn self.old }
        requires fresh { mark_of self.old.marks.items place ≡ New }
        requires within { place < length self.old.rows.items }
        requires reached { AllReach (rows_of self.old.rows.items) self.old.stack.items place }
        ensures walk { OnOk result (IsOn self.new) }
        ensures rows { OnOk result (self.new.rows.items ≡ self.old.rows.items) }
        ensures kept { OnOk result (KeepsMet self.old.marks.items self.new.marks.items) }
        ensures met { OnOk result (mark_of self.new.marks.items place ≢ New) }
        ensures nearer { OnOk result (work_of self.new < work_of self.old) }
    {
        let first = self.stack.len();
        let waiting = self.waiting.len();
        self.stack.push(place)?;
        self.parts.push(Part { first, waiting })?;
        self.waiting
            .extend_from_slice(self.rows[place as usize].as_slice())?;
        self.marks[place as usize] = Mark::Open(first);
        Ok(())
    }

    // Joins the parts from that place of the stack on, which all on the stack reach.
    fn join(&mut self, place: usize)
        requires walk { IsOn self.old }
        requires within { place < length self.old.stack.items }
        requires reached { AllReach (rows_of self.old.rows.items) self.old.stack.items (get_or self.old.stack.items place 0) }
        ensures walk { IsOn self.new }
        ensures way { KeepsWay self.old self.new }
        ensures joined { (x : Part) → Contains self.new.parts.items x → x.first ≤ place }
        ensures old { (x : Part) → Contains self.new.parts.items x → Contains self.old.parts.items x }
        ensures fewer { length self.new.parts.items ≤ length self.old.parts.items }
    {
        'parts: while self.parts[self.parts.len() - 1].first > place {
            let _ = self.parts.pop();
        }
    }

    // Closes the last part, which begins at that place of the stack.
    fn close(&mut self, first: usize)
        requires walk { IsOn self.old }
        requires last { IsLast self.old.parts.items first (length self.old.waiting.items) }
        ensures walk { IsOn self.new }
        ensures rows { self.new.rows.items ≡ self.old.rows.items }
        ensures kept { KeepsMet self.old.marks.items self.new.marks.items }
        ensures nearer { work_of self.new < work_of self.old }
    {
        for i in first..self.stack.len() {
            self.marks[self.stack[i] as usize] = Mark::Done(self.closed);
        }
        self.stack.truncate(first);
        let _ = self.parts.pop();
        self.closed += 1;
    }
}
