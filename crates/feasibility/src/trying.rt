// Which kinds of codes a state need not try.
ghost use Rattle.std.specs.Prelude.{◌≡◌, ◌<◌, false, IfOk, length, slice_index_or};
ghost use Rattle.rng_model.specs.Derivatives.{opening, text_step};
ghost use Rattle.rng_model.specs.Names.{Name};
ghost use Rattle.rng_model.specs.Patterns.{not_allowed};
ghost use Rattle.rng_model.specs.States.{no_name};
ghost use Rattle.rng_model.specs.Texts.{Text};
ghost use Rattle.table_laws.specs.Remainders.{takes_name};
ghost use Rattle.pattern_intern.specs.Stored.{count, tree_at};
ghost use Rattle.feasibility.specs.Exploring.{IsExploring, Finds, at, found, names, pool, schema};

use crate::explorer::Explorer;
use pattern_intern::PatternId;
use std::alloc::AllocError;
use transitions::StateId;

impl Explorer {
    // The pattern of a state.
    fn pattern(&self, id: StateId) -> PatternId
        requires exploring { IsExploring self.now }
        requires from { id.0 < length (found self.now) }
        ensures within { result.0 < count (pool self.now) }
        ensures is { tree_at (pool self.now) result.0 ≡ (at self.now id.0).pattern }
    {
        self.states.as_slice()[id.0].pattern
    }

    /// Whether a state may go on by an attribute of a name.
    pub(crate) fn takes_name(&mut self, from: StateId, name: usize) -> Result<bool, AllocError>
        requires exploring { IsExploring self.old }
        requires from { from.0 < length (found self.old) }
        requires name { name < length (names self.old).attributes }
        ensures takes { IfOk result (λ b. b ≡ takes_name (slice_index_or (names self.old).attributes name no_name) (at self.old from.0).pattern) }
        ensures same { self.new ≡ self.old }
    {
        let pattern = self.pattern(from);
        self.derivatives.takes_name(pattern, name)
    }

    /// Whether a state may go on by a text.
    pub(crate) fn takes_text(&mut self, from: StateId) -> Result<bool, AllocError>
        requires exploring { IsExploring self.old }
        requires from { from.0 < length (found self.old) }
        ensures nowhere { IfOk result (λ b. b ≡ false → (s : Text) → text_step s (at self.old from.0).pattern ≡ not_allowed) }
        ensures same { self.new ≡ self.old }
    {
        let pattern = self.pattern(from);
        self.derivatives.takes_text(pattern)
    }

    /// Whether a state may go on by the opening of an element.
    pub(crate) fn takes_element(&mut self, from: StateId) -> Result<bool, AllocError>
        requires exploring { IsExploring self.old }
        requires from { from.0 < length (found self.old) }
        ensures nowhere { IfOk result (λ b. b ≡ false → (name : Name) → opening (schema self.old) name (at self.old from.0).pattern ≡ not_allowed) }
        ensures finds { Finds self.old self.new }
        ensures exploring { IsExploring self.new }
    {
        let pattern = self.pattern(from);
        self.derivatives.takes_element(pattern)
    }
}
