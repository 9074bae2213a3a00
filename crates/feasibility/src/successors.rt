// The state after a code.
ghost use Rattle.std.specs.Prelude.{◌≡◌, ◌+◌, ◌↔◌, IsTrue, IfNone, IfSome};
ghost use Rattle.rng_model.specs.Codes.{IsInRange};
ghost use Rattle.rng_model.specs.Codes as model;
ghost use Rattle.rng_model.specs.Patterns.{not_allowed};
ghost use Rattle.rng_model.specs.States.{step};
ghost use Rattle.table_laws.specs.Reaching.{free_code, weight};
ghost use Rattle.skeleton.specs.Views.{code_of};
ghost use Rattle.derivatives.specs.Views.{place_of};
ghost use Rattle.feasibility.specs.Exploring.{IsAfter, names};
ghost use Rattle.feasibility.specs.Following.{IsGrownFor, IsHeld, LeadsTo};
ghost use Rattle.feasibility.specs.Tables.{lists, state_of};
ghost use Rattle.feasibility.specs.Taking.{IsDeadEnd, IsKnownFor};

use crate::explorer::Explorer;
use crate::table::Table;
use derivatives::Place;
use outside::Steps;
use skeleton::Code;
use std::sync::ledger::Ledger;
use transitions::{RowList, StateId, after};

// Whether a code has a node.
fn has_node(code: Code) -> bool
    ensures { IsTrue result ↔ (weight (code_of code) ≡ 1) }
{
    match code {
        Code::Body => false,
        Code::Closing => false,
        Code::Chars(_) => true,
        Code::Attr(_, _) => true,
        Code::Opening(_) => true,
    }
}

// Whether it is the one code without a node that may be allowed at the place.
fn is_free(place: Place, code: Code) -> bool
    ensures { IsTrue result ↔ (code_of code ≡ free_code (place_of place)) }
{
    match code {
        Code::Body => is_tag(place),
        Code::Closing => !is_tag(place),
        Code::Chars(_) => false,
        Code::Attr(_, _) => false,
        Code::Opening(_) => false,
    }
}

// Whether it is a place in a tag.
fn is_tag(place: Place) -> bool
    ensures { IsTrue result ↔ (free_code (place_of place) ≡ model.Body) }
{
    match place {
        Place::Tag(_) => true,
        Place::Fresh => false,
        Place::AfterText => false,
        Place::AfterElement => false,
    }
}

// Where a code without a node leads from a state.
fn free_after(
    explorer: &Explorer,
    frees: &[Option<StateId>],
    rows: &RowList,
    id: StateId,
    code: Code,
) -> Option<StateId>
    requires known { IsKnownFor explorer.now frees.now rows.now id.0 (code_of code) }
    requires free { weight (code_of code) ≡ 0 }
    ensures some { IfSome result (λ next. IsAfter explorer.now id.0 (code_of code) next.0) }
    ensures none { IfNone result (IsDeadEnd explorer.now id.0 (code_of code)) }
{
    if is_free(explorer.place(id), code) {
        frees[id.0]
    } else {
        None
    }
}

// Where a code leads from a state.
fn after_code(
    explorer: &Explorer,
    frees: &[Option<StateId>],
    rows: &RowList,
    id: StateId,
    code: Code,
) -> Option<StateId>
    requires known { IsKnownFor explorer.now frees.now rows.now id.0 (code_of code) }
    requires in_range { IsInRange (names explorer.now) (code_of code) }
    ensures some { IfSome result (λ next. IsAfter explorer.now id.0 (code_of code) next.0) }
    ensures none { IfNone result (IsDeadEnd explorer.now id.0 (code_of code)) }
{
    if has_node(code) {
        after(rows.get(id.0), code)
    } else {
        free_after(explorer, frees, rows, id, code)
    }
}

impl Table {
    /// The state after the code, unless nothing is allowed after it. It counts one step and takes no memory.
    pub fn successor<L: Ledger>(
        &self,
        id: StateId,
        code: Code,
        steps: &mut Steps<L>,
    ) -> Option<StateId>
        requires held { IsHeld self.now id.0 }
        requires in_range { IsInRange (lists self.now) (code_of code) }
        requires grown { IsGrownFor self.now id.0 (weight (code_of code)) }
        ensures some { IfSome result (λ next. LeadsTo self.now id.0 (code_of code) next.0) }
        ensures none { IfNone result ((step self.now.schema (lists self.now) (state_of self.now id.0) (code_of code)).pattern ≡ not_allowed) }
        ensures ticks { steps.new ≡ steps.old + 1 }
    {
        steps.tick();
        after_code(
            &self.states.explorer,
            &self.states.frees,
            &self.states.rows,
            id,
            code,
        )
    }
}
