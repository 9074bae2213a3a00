// Marks of states by number.
ghost use Rattle.std.specs.Prelude.{◌≡◌, ◌<◌, [], ◌∷◌, ◌++◌, Some, take, length, slice_get, OnOk, OnErr};

use std::alloc::{AllocError, Global};
use std::marker::Model;

/// Which states can finish with a number of nodes.
#[derive(Drop)]
pub(crate) struct MarkList {
    marks: Vec<bool>,
}

impl Model for MarkList {
    ghost use Rattle.std.specs.Prelude.{Bool, List};

    ghost Value = { List Bool };

    ghost view = { λ m. m.marks.items };
}

impl MarkList {
    /// No marks.
    pub(crate) fn new(alloc: Global) -> MarkList
        ensures { result ≡ [] }
    {
        MarkList {
            marks: Vec::new(alloc),
        }
    }

    /// How many states are marked.
    pub(crate) fn len(&self) -> usize
        ensures { result ≡ length self.now }
    {
        self.marks.len()
    }

    /// The mark of a state.
    pub(crate) fn mark(&self, id: usize) -> bool
        requires { id < length self.now }
        ensures { slice_get self.now id ≡ Some result }
    {
        self.marks[id]
    }

    /// Adds the mark of the next state.
    pub(crate) fn push(&mut self, mark: bool) -> Result<(), AllocError>
        ensures ok { OnOk result (self.new ≡ self.old ++ mark ∷ []) }
        ensures err { OnErr result (self.new ≡ self.old) }
    {
        self.marks.push(mark)?;
        Ok(())
    }

    /// Keeps the marks of the states below the number.
    pub(crate) fn truncate(&mut self, count: usize)
        ensures { self.new ≡ take count self.old }
    {
        self.marks.truncate(count);
    }
}
