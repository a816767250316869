// The marks of a body.

ghost use Rattle.std.specs.Prelude.{◌≡◌, ◌<◌, ◌-◌, ◌++◌, ◌∷◌, [], length, take, slice_get, slice_index_or, true, OnOk};
ghost use Rattle.lg_macro.specs.Marks.{glue_last, plain};

use crate::macros::Mark;
use lg_base::OutOfMemory;
use lg_base::layout::MOST_TEXT;
use std::alloc::Global;
use std::marker::Model;

const PLAIN: Mark = Mark {
    parameter: None,
    glued: false,
    glues: false,
};

/// The marks of a body, one for each piece. Those at its front that are plain, in most bodies all, are counted and take no memory.
#[derive(Drop)]
pub struct Marks {
    plain_count: usize,
    marks: Vec<Mark>,
}

impl Model for Marks {
    ghost use Rattle.std.specs.Prelude.{◌++◌, ◌≤◌, List, replicate};
    ghost use Rattle.lg_macro.specs.Marks.{plain};
    ghost use Rattle.lg_macro.specs.declared.macros.Mark.{Mark};

    ghost Value = { List Mark };

    ghost view = { λ m. replicate m.plain_count plain ++ m.marks.items };

    ghost invariant = { λ m. m.plain_count ≤ 16777216 };
}

// Returns whether a mark says nothing.
fn is_plain(mark: Mark) -> bool
    ensures { result ≡ true → mark ≡ plain }
{
    mark.parameter.is_none() && !mark.glued && !mark.glues
}

impl Marks {
    /// No marks.
    pub fn new(alloc: Global) -> Marks
        ensures { result ≡ [] }
    {
        Marks {
            plain_count: 0,
            marks: Vec::new(alloc),
        }
    }

    /// Returns how many there are.
    pub fn len(&self) -> usize
        ensures { result ≡ length self.now }
    {
        self.plain_count + self.marks.as_slice().len()
    }

    /// Returns the mark at a place.
    pub fn at(&self, place: usize) -> Mark
        requires { place < length self.now }
        ensures { result ≡ slice_index_or self.now place result }
    {
        if place < self.plain_count {
            PLAIN
        } else {
            self.marks[place - self.plain_count]
        }
    }

    /// Adds a mark.
    pub fn push(&mut self, mark: Mark) -> Result<(), OutOfMemory>
        ensures { OnOk result (self.new ≡ self.old ++ mark ∷ []) }
    {
        if self.marks.as_slice().is_empty() && self.plain_count < MOST_TEXT && is_plain(mark) {
            self.plain_count += 1;
            return Ok(());
        }
        self.marks.push(mark)?;
        Ok(())
    }

    // Takes the last mark out.
    fn pop(&mut self) -> Option<Mark>
        ensures last { result ≡ slice_get self.old (length self.old - 1) }
        ensures rest { self.new ≡ take (length self.old - 1) self.old }
    {
        if let Some(mark) = self.marks.pop() {
            return Some(mark);
        }
        if self.plain_count == 0 {
            return None;
        }
        self.plain_count -= 1;
        Some(PLAIN)
    }

    /// Says of the last piece that `##` is after it.
    pub fn glue_last(&mut self) -> Result<(), OutOfMemory>
        ensures { OnOk result (self.new ≡ glue_last self.old) }
    {
        match self.pop() {
            None => Ok(()),
            Some(mark) => self.push(Mark {
                parameter: mark.parameter,
                glued: mark.glued,
                glues: true,
            }),
        }
    }
}
