// What a table tells of the states that follow.
ghost use Rattle.std.specs.Prelude.{◌≡◌, ◌+◌, ◌↔◌, IsTrue};
ghost use Rattle.table_laws.specs.Finishing.{Finish};
ghost use Rattle.feasibility.specs.Following.{IsGrownFor, IsHeld};
ghost use Rattle.feasibility.specs.Tables.{lists, state_of};

use crate::table::Table;
use outside::Steps;
use std::sync::ledger::Ledger;
use transitions::StateId;

impl Table {
    /// Whether some codes with exactly `rest` nodes lead from the state to one that accepts. It counts one step and takes no memory.
    pub fn can_finish<L: Ledger>(&self, id: StateId, rest: usize, steps: &mut Steps<L>) -> bool
        requires held { IsHeld self.now id.0 }
        requires grown { IsGrownFor self.now id.0 rest }
        ensures finish { IsTrue result ↔ Finish self.now.schema (lists self.now) rest (state_of self.now id.0) }
        ensures ticks { steps.new ≡ steps.old + 1 }
    {
        steps.tick();
        self.marks.mark(rest, id)
    }
}
