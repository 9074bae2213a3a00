// The next document of a size.
ghost use Rattle.std.specs.Prelude.{◌≡◌, ◌+◌, ◌*◌, ◌≤◌};
ghost use Rattle.rng_model.specs.Codes.{nodes as node_count};
ghost use Rattle.rng_model.specs.Universe.{event_count};
ghost use Rattle.feasibility.specs.Tables.{lists};
ghost use Rattle.lister.specs.Walks.{IsWalkOf, IsStep, IsSet};
ghost use Rattle.lister.specs.Descents.{IsDocument};
ghost use Rattle.lister.specs.Phases.{IsSound, IsFoundFirst, IsFoundNext, StandsAtFound, IsUnchanged, found_stage, stage_of};

use crate::descent::{complete, go_back};
use crate::path::Path;
use feasibility::Table;
use outside::Steps;
use std::sync::ledger::Ledger;

/// Where a walk stands: no size was set, before the first document of the size, at a document, or past the last.
#[derive(Clone, Copy)]
pub(crate) enum Phase {
    Nowhere,
    Before,
    At,
    Past,
}

// Goes to the first document of a size, if there is one. None of its codes stands as in another one before it.
fn find_first<L: Ledger>(
    path: &mut Path,
    size: usize,
    table: &Table,
    steps: &mut Steps<L>,
) -> Option<usize>
    requires some { 1 ≤ size }
    requires most { size ≤ path.old.room }
    requires grown { size ≤ table.now.grown }
    ensures first { IsFoundFirst table.now size result path.new }
    ensures stands { StandsAtFound table.now size result path.new }
    ensures room { path.new.room ≡ path.old.room }
    ensures ticks { steps.new ≤ steps.old + 1 + 2 * event_count (lists table.now) * (3 * path.old.room) }
{
    table.holds();
    path.clear();
    let start = table.start_id()?;
    if !table.can_finish(start, size, steps) {
        return None;
    }
    complete(path, table, start, size, steps);
    Some(0)
}

// Goes to the next document of the size, if there is one. The answer is how many codes, from the first on, stand as before.
fn find_next<L: Ledger>(path: &mut Path, table: &Table, steps: &mut Steps<L>) -> Option<usize>
    requires { IsDocument table.now path.old }
    ensures next { IsFoundNext table.now path.old result path.new }
    ensures stands { StandsAtFound table.now (node_count path.old.codes) result path.new }
    ensures room { path.new.room ≡ path.old.room }
    ensures ticks { steps.new ≤ steps.old + 2 * (2 * event_count (lists table.now) * (3 * path.old.room)) }
{
    let (id, left) = go_back(path, table, steps)?;
    let unchanged = path.codes().len() - 1;
    complete(path, table, id, left, steps);
    Some(unchanged)
}

/// Goes to the next document of a size from where the walk stands, if one follows. The answer is how many codes, from the first on, stand
/// as in the document before it.
pub(crate) fn find<L: Ledger>(
    path: &mut Path,
    phase: Phase,
    size: usize,
    table: &Table,
    steps: &mut Steps<L>,
) -> Option<usize>
    requires set { IsSet (stage_of phase path.old) }
    requires sound { IsSound phase size path.old }
    requires grown { size ≤ table.now.grown }
    requires own { IsWalkOf table.now size (stage_of phase path.old) }
    ensures step { IsStep table.now size (stage_of phase path.old) (found_stage result path.new) }
    ensures stands { StandsAtFound table.now size result path.new }
    ensures unchanged { IsUnchanged (stage_of phase path.old) result (found_stage result path.new) }
    ensures room { path.new.room ≡ path.old.room }
    ensures ticks { steps.new ≤ steps.old + 12 * path.old.room * event_count (lists table.now) }
{
    match phase {
        Phase::Before => find_first(path, size, table, steps),
        Phase::At => find_next(path, table, steps),
        Phase::Nowhere | Phase::Past => None,
    }
}
