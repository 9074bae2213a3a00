// The walk over the table's states, forth to the least codes and back to the last code above which there is another.
ghost use Rattle.std.specs.Prelude.{◌≡◌, ◌+◌, ◌*◌, ◌≤◌, ℕ, [], length, IfSome, IfNone};
ghost use Rattle.rng_model.specs.Codes.{nodes as node_count};
ghost use Rattle.rng_model.specs.Universe.{event_count};
ghost use Rattle.table_laws.specs.Walking.{NothingAbove};
ghost use Rattle.feasibility.specs.Tables.{lists};
ghost use Rattle.lister.specs.Descents.{listed_codes, LeadsUpTo, IsDocument, Descends, Completes, GoesBack};

use crate::closing::{close_all, nodes};
use crate::path::Path;
use feasibility::{StateId, Table};
use outside::Steps;
use std::sync::ledger::Ledger;

/// Goes on with the least codes until no node is left.
fn descend<L: Ledger>(
    path: &mut Path,
    table: &Table,
    start: StateId,
    left: usize,
    steps: &mut Steps<L>,
)
    requires { LeadsUpTo table.now path.old start.0 left }
    ensures codes { Descends table.now (node_count path.old.codes + left) path.old path.new }
    ensures leads { (id : ℕ) × LeadsUpTo table.now path.new id 0 }
    ensures size { node_count path.new.codes ≡ node_count path.old.codes + left }
    ensures ticks { steps.new + 2 * event_count (lists table.now) * length path.old.codes ≤
        steps.old + 2 * event_count (lists table.now) * length path.new.codes }
{
    table.holds();
    let mut id = start;
    let mut rest = left;
    while rest > 0 {
        let Some((code, next)) = table.next_code(id, None, rest, steps) else {
            unreachable!()
        };
        path.push_step(id, code);
        rest -= nodes(code);
        id = next;
    }
}

/// Goes on to the least document that begins with the path.
pub(crate) fn complete<L: Ledger>(
    path: &mut Path,
    table: &Table,
    start: StateId,
    left: usize,
    steps: &mut Steps<L>,
)
    requires { LeadsUpTo table.now path.old start.0 left }
    ensures codes { Completes table.now (node_count path.old.codes + left) path.old path.new }
    ensures ticks { steps.new ≤ steps.old + 2 * event_count (lists table.now) * (3 * path.old.room) }
{
    table.holds();
    descend(path, table, start, left, steps);
    close_all(path);
}

/// Goes back to the last code above which there is another, and takes that one. The answer is the state after it, and how many nodes are
/// left.
pub(crate) fn go_back<L: Ledger>(
    path: &mut Path,
    table: &Table,
    steps: &mut Steps<L>,
) -> Option<(StateId, usize)>
    requires { IsDocument table.now path.old }
    ensures next { IfSome result (λ _. GoesBack table.now (node_count path.old.codes) path.old path.new) }
    ensures leads { IfSome result (λ found. LeadsUpTo table.now path.new found.0.0 found.1) }
    ensures size { IfSome result (λ found. node_count path.new.codes + found.1 ≡ node_count path.old.codes) }
    ensures none { IfNone result (NothingAbove (listed_codes table.now (node_count path.old.codes)) [] path.old.codes) }
    ensures room { path.new.room ≡ path.old.room }
    ensures ticks { steps.new ≤ steps.old + 2 * event_count (lists table.now) * (3 * path.old.room) }
{
    table.holds();
    let mut rest = 0;
    while let Some((id, code)) = path.pop_step() {
        rest += nodes(code);
        if let Some((greater, next)) = table.next_code(id, Some(code), rest, steps) {
            path.push_step(id, greater);
            return Some((next, rest - nodes(greater)));
        }
    }
    None
}
