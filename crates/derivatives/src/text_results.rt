// Results of the step of one text, and what choices take of any text.
ghost use Rattle.std.specs.Prelude.{◌≡◌, []};
ghost use Rattle.pattern_intern.specs.Stored.{Stored};
ghost use Rattle.value_sets.specs.Numbers.{AreSets};

use crate::results::Results;
use std::alloc::Global;
use value_sets::ValueSets;

/// Results by the number of the pattern after one text, and by the number of a choice what it takes of any text.
#[derive(Drop)]
pub(crate) struct TextResults {
    pub(crate) results: Results,
    pub(crate) choices: ValueSets,
}

impl TextResults {
    /// No result. It takes its memory from `alloc` as it grows.
    pub(crate) fn new(alloc: Global) -> TextResults
        ensures { (s : Stored) → AreSets s result.choices }
    {
        TextResults {
            results: Results::new(alloc),
            choices: ValueSets::new(alloc),
        }
    }

    /// Forgets the results after the text, and keeps what choices take.
    pub(crate) fn clear(&mut self)
        ensures results { self.new.results ≡ [] }
        ensures choices { self.new.choices ≡ self.old.choices }
    {
        self.results.clear();
    }
}
