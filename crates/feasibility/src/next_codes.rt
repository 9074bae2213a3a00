// The least code with which a state can go on.
ghost use Rattle.std.specs.Prelude.{◌+◌, ◌*◌, ◌<◌, ◌≤◌, ◌↔◌, IfNone, IfSome, IsTrue, length, option_map};
ghost use Rattle.rng_model.specs.Universe.{event_count};
ghost use Rattle.skeleton.specs.Views.{code_of};
ghost use Rattle.transitions.specs.Bounds.{IsPast};
ghost use Rattle.feasibility.specs.Exploring.{IsExploring, names};
ghost use Rattle.feasibility.specs.Following.{IsGrownFor, IsHeld, IsNextTaken, NothingTaken};
ghost use Rattle.feasibility.specs.Marking.{IsReady};
ghost use Rattle.feasibility.specs.Tables.{lists};
ghost use Rattle.feasibility.specs.Taking.{IsFreeKnown, IsLeastTaken, NoneTaken};

use crate::explorer::{Explorer, free_code};
use crate::table::Table;
use outside::Steps;
use skeleton::Code;
use std::sync::ledger::Ledger;
use transitions::{Marks, RowList, StateId, next_marked};

// Whether a code is greater than the bound, if there is one.
fn is_past(bound: Option<Code>, code: Code) -> bool
    ensures { IsTrue result ↔ IsPast (option_map code_of bound) (code_of code) }
{
    match bound {
        None => true,
        Some(least) => least.compare(&code).is_lt(),
    }
}

// The code without a node, if it is past the bound and can be taken, and the state after it.
fn free_taken(
    explorer: &Explorer,
    frees: &[Option<StateId>],
    marks: &Marks,
    id: StateId,
    bound: Option<Code>,
    rest: usize,
) -> Option<(Code, StateId)>
    requires { IsFreeKnown explorer.now frees.now marks.now id.0 rest }
    ensures some { IfSome result (λ found. IsLeastTaken explorer.now id.0 (option_map code_of bound) rest 0 (code_of found.0) found.1.0) }
    ensures none { IfNone result (NoneTaken explorer.now id.0 (option_map code_of bound) rest 0) }
{
    let (code, _) = free_code(explorer.place(id));
    if !is_past(bound, code) {
        return None;
    }
    let Some(next) = frees[id.0] else {
        return None;
    };
    if marks.mark(rest, next) {
        Some((code, next))
    } else {
        None
    }
}

// The least code with a node past the bound that can be taken, and the state after it.
#[inline(always)]
fn node_taken<L: Ledger>(
    explorer: &Explorer,
    rows: &RowList,
    marks: &Marks,
    id: StateId,
    bound: Option<Code>,
    rest: usize,
    steps: &mut Steps<L>,
) -> Option<(Code, StateId)>
    requires exploring { IsExploring explorer.now }
    requires row { 0 < rest → id.0 < length rows.now }
    requires ready { IsReady explorer.now rows.now rest id.0 marks.now }
    ensures some { IfSome result (λ found. IsLeastTaken explorer.now id.0 (option_map code_of bound) rest 1 (code_of found.0) found.1.0) }
    ensures none { IfNone result (NoneTaken explorer.now id.0 (option_map code_of bound) rest 1) }
    ensures ticks { steps.new + 2 ≤ steps.old + event_count (names explorer.now) }
    ensures ticked { steps.old ≤ steps.new }
{
    if rest == 0 {
        None
    } else {
        next_marked(rows.get(id.0), marks, rest - 1, bound, steps)
    }
}

impl Table {
    /// The least code past the bound with which the state can go on so that it can finish with exactly `rest` nodes in all, and the state after
    /// it. It counts at least one step, and takes no memory.
    // A walk calls it for each code: in its own loops the answer stays in registers.
    #[inline(always)]
    pub fn next_code<L: Ledger>(
        &self,
        id: StateId,
        bound: Option<Code>,
        rest: usize,
        steps: &mut Steps<L>,
    ) -> Option<(Code, StateId)>
        requires held { IsHeld self.now id.0 }
        requires grown { IsGrownFor self.now id.0 rest }
        ensures some { IfSome result (λ found. IsNextTaken self.now id.0 (option_map code_of bound) rest (code_of found.0) found.1.0) }
        ensures none { IfNone result (NothingTaken self.now id.0 (option_map code_of bound) rest) }
        ensures ticks { steps.new ≤ steps.old + 2 * event_count (lists self.now) }
        ensures ticked { steps.old < steps.new }
    {
        steps.tick();
        match free_taken(
            &self.states.explorer,
            &self.states.frees,
            &self.marks,
            id,
            bound,
            rest,
        ) {
            Some(taken) => Some(taken),
            None => node_taken(
                &self.states.explorer,
                &self.states.rows,
                &self.marks,
                id,
                bound,
                rest,
                steps,
            ),
        }
    }
}
