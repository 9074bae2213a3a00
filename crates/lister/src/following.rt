// The path of a document that is given.
ghost use Rattle.std.specs.Prelude.{◌≡◌, ◌+◌, ◌*◌, ◌≤◌};
ghost use Rattle.rng_model.specs.Hedges.{size as size_of};
ghost use Rattle.rng_model.specs.Events.{events};
ghost use Rattle.rng_model.specs.Codes.{AreCodes};
ghost use Rattle.rng_model.specs.Listing.{IsListed};
ghost use Rattle.feasibility.specs.Tables.{lists};
ghost use Rattle.lister.specs.Walks.{AreStates};
ghost use Rattle.lister.specs.Paths.{IsKept};
ghost use Rattle.lister.specs.Descents.{listed_codes};

use crate::path::Path;
use event_codes::find_code;
use feasibility::Table;
use outside::Steps;
use skeleton::Skeleton;
use std::sync::ledger::Ledger;

/// Goes along a listed document, event by event.
pub(crate) fn follow<L: Ledger>(
    path: &mut Path,
    table: &Table,
    cursor: &Skeleton,
    steps: &mut Steps<L>,
)
    requires listed { IsListed table.now.schema (lists table.now) path.old.room cursor.now }
    requires grown { size_of cursor.now ≤ table.now.grown }
    ensures codes { AreCodes (lists table.now) (events cursor.now) path.new.codes }
    ensures listed { listed_codes table.now (size_of cursor.now) path.new.codes }
    ensures states { AreStates table.now path.new.codes path.new.states }
    ensures kept { IsKept path.new }
    ensures room { path.new.room ≡ path.old.room }
    ensures ticks { steps.new ≤ steps.old + 3 * path.old.room }
{
    table.holds();
    path.clear();
    let Some(start) = table.start_id() else {
        unreachable!()
    };
    let mut id = start;
    for event in cursor.events() {
        let Some(code) = find_code(table.universe(), table.atoms(), event) else {
            unreachable!()
        };
        let Some(next) = table.successor(id, code, steps) else {
            unreachable!()
        };
        path.push_step(id, code);
        id = next;
    }
}
