// Where a cursor stands among what is listed.
ghost use Rattle.std.specs.Prelude.{◌≡◌, ◌+◌, ◌*◌, ◌≤◌, max, OnOk, OnErr, IfErr};
ghost use Rattle.rng_model.specs.Hedges.{size as size_of};
ghost use Rattle.feasibility.specs.Tables.{Keeps, group_total};
ghost use Rattle.list_command.specs.Asking.{IsPlaced, IsNotPlaced};

use crate::outcome::{CursorRefusal, Outcome};
use cursor::{CursorFault, place};
use feasibility::{Table, TableFault};
use outside::Steps;
use skeleton::Skeleton;
use std::sync::ledger::Ledger;

/// Lets the table grow to the size of the cursor, and sees that the cursor is listed; else how the run ends.
pub(crate) fn place_cursor<L: Ledger>(
    table: &mut Table,
    cursor: &Skeleton,
    size: usize,
    steps: &mut Steps<L>,
) -> Result<(), Outcome>
    requires small { size_of cursor.now ≤ size }
    requires most { size ≤ 64 }
    ensures placed { OnOk result (IsPlaced table.new size cursor.now) }
    ensures refused { IfErr result (IsNotPlaced table.old cursor.now) }
    ensures kept { Keeps table.old table.new }
    ensures grown { OnOk result (table.new.grown ≡ max table.old.grown (size_of cursor.now)) }
    ensures spent { OnOk result (steps.new + table.old.spent ≤ steps.old + table.new.spent + 6 * size) }
    ensures stopped { OnErr result (steps.new + table.old.spent ≤ steps.old + group_total table.old * (table.old.limit + 1) + 6 * size) }
{
    match table.grow_to(cursor.size(), steps) {
        Ok(()) => {}
        Err(TableFault::StateLimit { size, count }) => {
            return Err(Outcome::StateLimit { size, count });
        }
        Err(TableFault::OutOfMemory) => return Err(Outcome::OutOfMemory),
    }
    table.holds();
    match place(table, cursor, size, steps) {
        Ok(()) => Ok(()),
        Err(CursorFault::CursorTooLarge) => {
            Err(Outcome::CursorRefused(CursorRefusal::CursorTooLarge))
        }
        Err(CursorFault::CursorStray { line }) => {
            Err(Outcome::CursorRefused(CursorRefusal::CursorStray { line }))
        }
    }
}
