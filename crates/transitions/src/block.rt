// Marks of the states of one size.
ghost use Rattle.std.specs.Prelude.{◌≡◌, ◌+◌, ◌≤◌, ◌<◌, [], ◌∷◌, ◌++◌, ℕ, Some, slice_get, OnOk};
ghost use Rattle.transitions.specs.Marked.{end_of};

use std::alloc::{AllocError, Global};

/// Which of the states from a number on can finish with exactly `rest` nodes so that the first code has a node, or none follows.
#[derive(Drop)]
pub struct Block {
    pub rest: usize,
    pub start: usize,
    pub marks: Vec<bool>,
}

impl Block {
    /// No marks, from a number on.
    pub fn new(alloc: Global, rest: usize, start: usize) -> Block
        ensures rest { result.rest ≡ rest }
        ensures start { result.start ≡ start }
        ensures marks { result.marks.items ≡ [] }
    {
        Block {
            rest,
            start,
            marks: Vec::new(alloc),
        }
    }

    /// The mark of a state.
    pub(crate) fn mark(&self, id: usize) -> bool
        requires first { self.now.start ≤ id }
        requires last { id < end_of self.now }
        ensures { (i : ℕ) → self.now.start + i ≡ id → slice_get self.now.marks.items i ≡ Some result }
    {
        self.marks[id - self.start]
    }

    /// Adds the mark of the next state.
    pub fn push(&mut self, mark: bool) -> Result<(), AllocError>
        ensures rest { self.new.rest ≡ self.old.rest }
        ensures start { self.new.start ≡ self.old.start }
        ensures marks { OnOk result (self.new.marks.items ≡ self.old.marks.items ++ mark ∷ []) }
    {
        self.marks.push(mark)?;
        Ok(())
    }
}
