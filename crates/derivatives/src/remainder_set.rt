// Remainders, each once.
ghost use Rattle.std.specs.Prelude.{◌≡◌, [], ◌∷◌, length, OnOk};
ghost use Rattle.derivatives.specs.Remainders.{AreAdded};

use crate::remainder::Remainder;
use indexmap::IndexSet;
use std::alloc::{AllocError, Global};
use std::marker::Model;

/// Remainders in the order in which they were added, each once.
#[derive(Drop)]
pub(crate) struct RemainderSet {
    pairs: IndexSet<Remainder>,
}

impl Model for RemainderSet {
    ghost use Rattle.std.specs.Prelude.{List};
    ghost use Rattle.derivatives.specs.declared.remainder.Remainder.{Remainder};

    ghost Value = { List Remainder };

    ghost view = { λ s. s.pairs.keys };
}

impl RemainderSet {
    /// None. It takes its memory from `alloc` as it grows.
    pub(crate) fn new(alloc: Global) -> RemainderSet
        ensures { result ≡ [] }
    {
        RemainderSet {
            pairs: IndexSet::new(alloc),
        }
    }

    /// All of them.
    pub(crate) fn as_slice(&self) -> &[Remainder]
        ensures { result.now ≡ self.now }
    {
        self.pairs.as_slice()
    }

    /// How many there are.
    pub(crate) fn len(&self) -> usize
        ensures { result ≡ length self.now }
    {
        self.as_slice().len()
    }

    /// Adds one, unless it is there.
    pub(crate) fn add(&mut self, remainder: Remainder) -> Result<(), AllocError>
        ensures { OnOk result (AreAdded (remainder ∷ []) self.old self.new) }
    {
        self.pairs.insert(remainder)?;
        Ok(())
    }

    /// Adds those that aren't there.
    pub(crate) fn add_all(&mut self, remainders: &[Remainder]) -> Result<(), AllocError>
        ensures { OnOk result (AreAdded remainders.now self.old self.new) }
    {
        for remainder in remainders {
            self.add(*remainder)?;
        }
        Ok(())
    }

    /// Removes all, and keeps the memory. It takes time in proportion to the memory.
    pub(crate) fn clear(&mut self)
        ensures { self.new ≡ [] }
    {
        self.pairs.clear();
    }
}
