// One event of a document over the states of a table.
ghost use Rattle.std.specs.Prelude.{◌≡◌, ◌+◌, ◌≤◌, ◌∷◌, [], IfSome, IfNone};
ghost use Rattle.line_laws.specs.Nodes.{node_count};
ghost use Rattle.skeleton.specs.Views.{event_of};
ghost use Rattle.feasibility.specs.Following.{IsHeld, IsGrownFor};
ghost use Rattle.cursor.specs.Passing.{Passes, IsStuck};

use event_codes::find_code;
use feasibility::{StateId, Table};
use outside::Steps;
use skeleton::Event;
use std::sync::ledger::Ledger;

/// How many nodes an event has: one, or none for the end of a tag or an element.
pub(crate) fn nodes(event: &Event) -> usize
    ensures { result ≡ node_count (event_of event.now ∷ []) }
{
    match event {
        Event::Body | Event::Closing => 0,
        Event::Chars(_) | Event::Attr(_, _) | Event::Opening(_) => 1,
    }
}

/// The state after the event, if it can finish with exactly `left` nodes.
pub(crate) fn pass<L: Ledger>(
    table: &Table,
    id: StateId,
    event: &Event,
    left: usize,
    steps: &mut Steps<L>,
) -> Option<StateId>
    requires held { IsHeld table.now id.0 }
    requires grown { IsGrownFor table.now id.0 (node_count (event_of event.now ∷ []) + left) }
    ensures some { IfSome result (λ next. Passes table.now id.0 (event_of event.now) left next.0) }
    ensures none { IfNone result (IsStuck table.now id.0 (event_of event.now) left) }
    ensures ticks { steps.new ≤ steps.old + 2 }
{
    table.holds();
    let code = find_code(table.universe(), table.atoms(), event)?;
    let next = table.successor(id, code, steps)?;
    if table.can_finish(next, left, steps) {
        Some(next)
    } else {
        None
    }
}
