// The search of a row for the least code by which it leads to a marked state.
ghost use Rattle.std.specs.Prelude.{◌≡◌, ◌+◌, ◌≤◌, Some, IfNone, IfSome, length, option_map};
ghost use Rattle.skeleton.specs.Views.{code_of};
ghost use Rattle.transitions.specs.Arcs.{Covers};
ghost use Rattle.transitions.specs.Marked.{HasMarks};
ghost use Rattle.transitions.specs.Searches.{AreListed, AreSkipped, IsInOrder, IsLeastMarked, IsLeastPast, IsProbed, NoneMarked, NonePast, NoneProbed};

use crate::arc::Arc;
use crate::marks::Marks;
use crate::row_lookup::{covers, up_to};
use crate::state_id::StateId;
use outside::Steps;
use skeleton::Code;
use std::sync::ledger::Ledger;

// The code of an arc after one of its own.
fn next_of(arc: Arc, code: Code) -> Option<Code>
    requires { Covers arc (code_of code) }
    ensures some { IfSome result (λ c. IsLeastPast arc (Some (code_of code)) (code_of c)) }
    ensures none { IfNone result (NonePast arc (Some (code_of code))) }
{
    match code {
        Code::Opening(place) => {
            if place < arc.last {
                Some(Code::Opening(place + 1))
            } else {
                None
            }
        }
        Code::Attr(name, place) => {
            if place < arc.last {
                Some(Code::Attr(name, place + 1))
            } else {
                None
            }
        }
        Code::Chars(place) => {
            if place < arc.last {
                Some(Code::Chars(place + 1))
            } else {
                None
            }
        }
        Code::Body => None,
        Code::Closing => None,
    }
}

// The least code of an arc past the bound, if there is one.
fn past(arc: Arc, bound: Option<Code>) -> Option<Code>
    requires { Covers arc (code_of arc.first) }
    ensures some { IfSome result (λ c. IsLeastPast arc (option_map code_of bound) (code_of c)) }
    ensures none { IfNone result (NonePast arc (option_map code_of bound)) }
{
    match bound {
        None => Some(arc.first),
        Some(code) => {
            if covers(arc, code) {
                next_of(arc, code)
            } else if arc.first.compare(&code).is_gt() {
                Some(arc.first)
            } else {
                None
            }
        }
    }
}

// How many arcs of a row have no code past the bound: all but one of those whose first code isn't greater.
fn skipped(row: &[Arc], bound: Option<Code>) -> usize
    requires { IsInOrder row.now }
    ensures most { result ≤ length row.now }
    ensures none { AreSkipped row.now (option_map code_of bound) result }
{
    match bound {
        None => 0,
        Some(code) => up_to(row, code).saturating_sub(1),
    }
}

// The state to which an arc leads, if it is marked, with the least code of the arc past the bound. It counts a step.
fn probe<L: Ledger>(
    arc: Arc,
    marks: &Marks,
    left: usize,
    bound: Option<Code>,
    steps: &mut Steps<L>,
) -> Option<(Code, StateId)>
    requires first { Covers arc (code_of arc.first) }
    requires listed { HasMarks marks.now left (arc.next.0 + 1) }
    ensures some { IfSome result (λ found. IsProbed arc marks.now left (option_map code_of bound) (code_of found.0) found.1.0) }
    ensures none { IfNone result (NoneProbed arc marks.now left (option_map code_of bound)) }
    ensures ticks { steps.new ≡ steps.old + 1 }
{
    steps.tick();
    let Some(code) = past(arc, bound) else {
        return None;
    };
    if marks.mark(left, arc.next) {
        Some((code, arc.next))
    } else {
        None
    }
}

/// The least code past the bound by which a row leads to a marked state, and that state.
#[inline(always)]
#[tactic(auto, using(crate::proofs::Searching::none_first, crate::proofs::Searching::none_last, crate::proofs::Searching::none_here))]
pub fn next_marked<L: Ledger>(
    row: &[Arc],
    marks: &Marks,
    left: usize,
    bound: Option<Code>,
    steps: &mut Steps<L>,
) -> Option<(Code, StateId)>
    requires order { IsInOrder row.now }
    requires listed { AreListed row.now marks.now left }
    ensures some { IfSome result (λ found. IsLeastMarked row.now marks.now left (option_map code_of bound) (code_of found.0) found.1.0) }
    ensures none { IfNone result (NoneMarked row.now marks.now left (option_map code_of bound)) }
    ensures ticks { steps.new ≤ steps.old + length row.now }
    ensures ticked { steps.old ≤ steps.new }
{
    for place in skipped(row, bound)..row.len() {
        if let Some(taken) = probe(row[place], marks, left, bound, steps) {
            return Some(taken);
        }
    }
    None
}
