// Results of a function of patterns, kept by number.
ghost use Rattle.std.specs.Prelude.{◌≡◌, [], Some, cond, OnErr, OnOk};
ghost use Rattle.pattern_intern.specs.Gathered.{same_number};
ghost use Rattle.pattern_intern.specs.declared.id.PatternId.{PatternId as Id};
ghost use Rattle.derivatives.specs.Kept.{result_of};

use indexmap::IndexMap;
use pattern_intern::PatternId;
use std::alloc::{AllocError, Global};
use std::marker::Model;

/// Results by the number of the pattern.
#[derive(Drop)]
pub(crate) struct Results {
    numbers: IndexMap<PatternId, PatternId>,
}

impl Model for Results {
    ghost use Rattle.derivatives.specs.Kept.{Kept};

    ghost Value = { Kept };

    ghost view = { λ r. r.numbers.entries };
}

impl Results {
    /// No result. It takes its memory from `alloc` as it grows.
    pub(crate) fn new(alloc: Global) -> Results
        ensures { result ≡ [] }
    {
        Results {
            numbers: IndexMap::new(alloc),
        }
    }

    /// The result for a number, if it is kept.
    pub(crate) fn get(&self, id: PatternId) -> Option<PatternId>
        ensures { result ≡ result_of self.now id }
    {
        self.numbers.get(&id).copied()
    }

    /// Keeps the result for a number. Where memory is wanting, the results stay as before.
    pub(crate) fn put(&mut self, id: PatternId, made: PatternId) -> Result<(), AllocError>
        ensures kept { OnOk result ((q : Id) → result_of self.new q ≡ cond (same_number id q) (Some made) (result_of self.old q)) }
        ensures unchanged { OnErr result (self.new ≡ self.old) }
    {
        self.numbers.insert(id, made)?;
        Ok(())
    }

    /// Forgets all results, and keeps the memory.
    pub(crate) fn clear(&mut self)
        ensures { self.new ≡ [] }
    {
        self.numbers.clear();
    }
}
