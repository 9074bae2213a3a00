// Where a row leads by a code.
ghost use Rattle.std.specs.Prelude.{◌↔◌, IsTrue, IfNone, IfSome};
ghost use Rattle.skeleton.specs.Views.{code_of};
ghost use Rattle.transitions.specs.Arcs.{Covers};
ghost use Rattle.transitions.specs.Searches.{GoesNowhere, GoesTo, IsInOrder, IsUpTo};

use crate::arc::Arc;
use crate::state_id::StateId;
use skeleton::Code;

// Whether the code is one of those that an arc stands for.
pub(crate) fn covers(arc: Arc, code: Code) -> bool
    ensures { IsTrue result ↔ Covers arc (code_of code) }
{
    match (arc.first, code) {
        (Code::Opening(first), Code::Opening(place)) => first <= place && place <= arc.last,
        (Code::Attr(name, first), Code::Attr(other, place)) => {
            name == other && first <= place && place <= arc.last
        }
        (Code::Chars(first), Code::Chars(place)) => first <= place && place <= arc.last,
        _ => false,
    }
}

// How many arcs of a row have a first code that isn't greater than the code.
pub(crate) fn up_to(row: &[Arc], code: Code) -> usize
    requires { IsInOrder row.now }
    ensures { IsUpTo row.now (code_of code) result }
{
    let mut low = 0;
    let mut high = row.len();
    'halving: while low < high {
        let middle = low + (high - low) / 2;
        if row[middle].first.compare(&code).is_gt() {
            high = middle;
        } else {
            low = middle + 1;
        }
    }
    low
}

/// Where a row leads by a code.
pub fn after(row: &[Arc], code: Code) -> Option<StateId>
    requires { IsInOrder row.now }
    ensures some { IfSome result (λ next. GoesTo row.now (code_of code) next.0) }
    ensures none { IfNone result (GoesNowhere row.now (code_of code)) }
{
    let count = up_to(row, code);
    if count == 0 {
        return None;
    }
    let arc = row[count - 1];
    if covers(arc, code) {
        Some(arc.next)
    } else {
        None
    }
}
