// Numbers that were looked into in vain.
ghost use Rattle.std.specs.Prelude.{◌≡◌, [], cond, true, OnErr, OnOk};
ghost use Rattle.pattern_intern.specs.Gathered.{same_number};
ghost use Rattle.pattern_intern.specs.declared.id.PatternId.{PatternId as Id};
ghost use Rattle.derivatives.specs.Visits.{is_noted};

use indexmap::IndexSet;
use pattern_intern::PatternId;
use std::alloc::{AllocError, Global};
use std::marker::Model;

// The memory of more numbers isn't used again: it takes longer to clear than fewer numbers are worth.
const SPARE_LEN: usize = 64;

/// Numbers of patterns that were looked into in vain.
#[derive(Drop)]
pub(crate) struct Visits {
    numbers: IndexSet<PatternId>,
}

impl Model for Visits {
    ghost use Rattle.std.specs.Prelude.{List};
    ghost use Rattle.pattern_intern.specs.declared.id.PatternId.{PatternId};

    ghost Value = { List PatternId };

    ghost view = { λ v. v.numbers.keys };
}

impl Visits {
    /// None. It takes its memory from `alloc` as it grows.
    pub(crate) fn new(alloc: Global) -> Visits
        ensures { result ≡ [] }
    {
        Visits {
            numbers: IndexSet::new(alloc),
        }
    }

    /// Whether the number was looked into.
    pub(crate) fn has(&self, id: PatternId) -> bool
        ensures { result ≡ is_noted self.now id }
    {
        self.numbers.contains(&id)
    }

    /// Notes a number. Where memory is wanting, they stay as before.
    pub(crate) fn note(&mut self, id: PatternId) -> Result<(), AllocError>
        ensures noted { OnOk result ((q : Id) → is_noted self.new q ≡ cond (same_number id q) true (is_noted self.old q)) }
        ensures unchanged { OnErr result (self.new ≡ self.old) }
    {
        self.numbers.insert(id)?;
        Ok(())
    }

    /// Forgets all, and keeps the memory where it isn't much.
    pub(crate) fn clear(&mut self)
        ensures { self.new ≡ [] }
    {
        if self.numbers.len() <= SPARE_LEN {
            self.numbers.clear();
        } else {
            self.numbers = IndexSet::new(*self.numbers.allocator());
        }
    }
}
