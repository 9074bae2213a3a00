// The search for the states that a schema's codes reach.
ghost use Rattle.std.specs.Prelude.{◌≡◌, ◌+◌, ◌<◌, [], ◌∷◌, ◌++◌, Contains, IfOk, IfErr, OnOk, OnErr, Some, length};
ghost use Rattle.rng_model.specs.Codes.{IsInRange};
ghost use Rattle.rng_model.specs.States.{IsAllowed, Reach, step};
ghost use Rattle.skeleton.specs.Views.{code_of};
ghost use Rattle.pattern_intern.specs.Stored.{count};
ghost use Rattle.derivatives.specs.Views.{place_of, state_of};
ghost use Rattle.table_laws.specs.Places.{place_after};
ghost use Rattle.table_laws.specs.Reaching.{free_code, weight};
ghost use Rattle.feasibility.specs.Families.{IsSmall, family_code};
ghost use Rattle.feasibility.specs.Exploring.{IsAfter, IsExploring, IsFreeAt, IsLeading, IsReachedBefore, IsRowAt, Finds, IsFound, IsPattern, IsRightly, at, found, names, pool, schema};

use crate::family::Family;
use crate::fault::Refusal;
use derivatives::{Derivatives, Place, State};
use indexmap::IndexSet;
use outside::Steps;
use pattern_intern::PatternId;
use skeleton::Code;
use std::alloc::AllocError;
use std::sync::ledger::Ledger;
use text_atoms::Groups;
use transitions::{Arc, Row, StateId};

/// The states that were found so far, and what finds more: derivatives, and the groups of alike names and texts.
#[derive(Drop)]
pub(crate) struct Explorer {
    pub(crate) derivatives: Derivatives,
    pub(crate) elements: Groups,
    pub(crate) attributes: Groups,
    pub(crate) atoms: Groups,
    pub(crate) states: IndexSet<State>,
    /// How many states there may be.
    pub(crate) limit: usize,
    /// The nodes with which the states are reached.
    pub(crate) level: usize,
}

// Adds a state that isn't there.
pub(crate) fn add(states: &mut IndexSet<State>, state: State) -> Result<usize, AllocError>
    requires { Contains states.old.keys state → ⊥ }
    ensures last { IfOk result (λ id. id ≡ length states.old.keys) }
    ensures keys { OnOk result (states.new.keys ≡ states.old.keys ++ state ∷ []) }
    ensures err { OnErr result (states.new.keys ≡ states.old.keys) }
{
    let (id, _) = states.insert_full(state)?;
    Ok(id)
}

/// The one code without a node that may be allowed at a place, and the place after it.
pub(crate) fn free_code(place: Place) -> (Code, Place)
    ensures code { code_of result.0 ≡ free_code (place_of place) }
    ensures place { place_of result.1 ≡ place_after (code_of result.0) }
    ensures allowed { IsAllowed (place_of place) (code_of result.0) }
{
    match place {
        Place::Tag(_) => (Code::Body, Place::Fresh),
        _ => (Code::Closing, Place::AfterElement),
    }
}

impl Explorer {
    /// The number of a state that is reached.
    pub(crate) fn number(&mut self, state: State) -> Result<StateId, Refusal>
        requires exploring { IsExploring self.old }
        requires within { state.pattern.0 < count (pool self.old) }
        requires reached { Reach (schema self.old) (names self.old) self.old.level (state_of (pool self.old) state) }
        ensures found { IfOk result (λ id. IsFound self.new (state_of (pool self.old) state) id.0) }
        ensures finds { Finds self.old self.new }
        ensures exploring { IsExploring self.new }
        ensures full { IfErr result (IsRightly self.old) }
    {
        let _pool = self.derivatives.schema().pool().len();
        match self.states.get_index_of(&state) {
            Some(id) => Ok(StateId(id)),
            None => {
                if self.states.len() == self.limit {
                    Err(Refusal::Full)
                } else {
                    let id = add(&mut self.states, state)?;
                    Ok(StateId(id))
                }
            }
        }
    }

    /// The pattern after a code, if it isn't notAllowed.
    pub(crate) fn derive<L: Ledger>(
        &mut self,
        from: StateId,
        code: Code,
        steps: &mut Steps<L>,
    ) -> Result<Option<PatternId>, AllocError>
        requires exploring { IsExploring self.old }
        requires from { from.0 < length (found self.old) }
        requires in_range { IsInRange (names self.old) (code_of code) }
        ensures pattern { IfOk result (IsPattern (pool self.new) (step (schema self.old) (names self.old) (at self.old from.0) (code_of code)).pattern) }
        ensures finds { Finds self.old self.new }
        ensures exploring { IsExploring self.new }
        ensures keys { self.new.states.keys ≡ self.old.states.keys }
        ensures ticks { steps.new ≡ steps.old + 1 }
    {
        let state = self.states.as_slice()[from.0];
        let made = self.derivatives.step(state, code, steps)?;
        Ok(made.map(|state| state.pattern))
    }

    // The number of the state after a code that leads to one with the pattern.
    fn reach(
        &mut self,
        from: StateId,
        code: Code,
        place: Place,
        pattern: PatternId,
    ) -> Result<StateId, Refusal>
        requires exploring { IsExploring self.old }
        requires from { from.0 < length (found self.old) }
        requires reached { IsReachedBefore self.old from.0 (weight (code_of code)) }
        requires place { place_of place ≡ place_after (code_of code) }
        requires leading { IsLeading self.old from.0 (code_of code) pattern }
        ensures leads { IfOk result (λ id. IsAfter self.new from.0 (code_of code) id.0) }
        ensures finds { Finds self.old self.new }
        ensures exploring { IsExploring self.new }
        ensures full { IfErr result (IsRightly self.old) }
    {
        self.number(State { place, pattern })
    }

    /// Adds to a row that the code of a position leads to the state with the pattern.
    pub(crate) fn lead(
        &mut self,
        from: StateId,
        family: Family,
        position: usize,
        pattern: PatternId,
        row: &mut Row,
    ) -> Result<(), Refusal>
        requires exploring { IsExploring self.old }
        requires from { from.0 < length (found self.old) }
        requires reached { IsReachedBefore self.old from.0 1 }
        requires small { IsSmall family }
        requires leading { IsLeading self.old from.0 (family_code family position) pattern }
        requires row { IsRowAt self.old from.0 family position row.old }
        ensures row { OnOk result (IsRowAt self.new from.0 family (position + 1) row.new) }
        ensures finds { Finds self.old self.new }
        ensures exploring { IsExploring self.new }
        ensures full { IfErr result (IsRightly self.old) }
    {
        let first = family.code(position);
        let next = self.reach(from, first, family.place(), pattern)?;
        row.push(Arc {
            first,
            last: position,
            next,
        })?;
        Ok(())
    }

    /// Where the one code without a node leads from a state.
    pub(crate) fn free<L: Ledger>(
        &mut self,
        from: StateId,
        steps: &mut Steps<L>,
    ) -> Result<Option<StateId>, Refusal>
        requires exploring { IsExploring self.old }
        requires from { from.0 < length (found self.old) }
        requires reached { IsReachedBefore self.old from.0 0 }
        ensures free { IfOk result (IsFreeAt self.new from.0) }
        ensures finds { Finds self.old self.new }
        ensures exploring { IsExploring self.new }
        ensures full { IfErr result (IsRightly self.old) }
        ensures ticks { steps.new ≡ steps.old + 1 }
    {
        let (code, place) = free_code(self.place(from));
        match self.derive(from, code, steps)? {
            Some(pattern) => {
                let next = self.reach(from, code, place, pattern)?;
                Ok(Some(next))
            }
            None => Ok(None),
        }
    }

    /// The place of a state.
    pub(crate) fn place(&self, id: StateId) -> Place
        requires { id.0 < length (found self.now) }
        ensures { place_of result ≡ (at self.now id.0).place }
    {
        self.states.as_slice()[id.0].place
    }
}
