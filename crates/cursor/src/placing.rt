// Whether a cursor is listed.
ghost use Rattle.std.specs.Prelude.{◌+◌, ◌*◌, ◌≤◌, IfErr, OnOk};
ghost use Rattle.rng_model.specs.Hedges.{size};
ghost use Rattle.rng_model.specs.Listing.{IsListed};
ghost use Rattle.feasibility.specs.Tables.{lists};
ghost use Rattle.cursor.specs.Strays.{IsRefused};

use crate::passing::{nodes, pass};
use feasibility::Table;
use outside::Steps;
use skeleton::Skeleton;
use std::sync::ledger::Ledger;
use thiserror::Error;

/// Why a listing can't go on after a document.
#[derive(Clone, Copy, Debug, PartialEq, Eq, Error)]
pub enum CursorFault {
    /// It has more nodes than are asked for.
    #[error("the cursor has too many nodes")]
    CursorTooLarge,
    /// It isn't listed: `line`, counted from 1, is the first through which its lines begin no listed document of its size.
    #[error("the cursor isn't listed: line {line}")]
    CursorStray { line: usize },
}

/// Whether the cursor is one of the listed documents of at most `n` nodes. It takes no memory, and counts at most six steps for each node.
pub fn place<L: Ledger>(
    table: &Table,
    cursor: &Skeleton,
    n: usize,
    steps: &mut Steps<L>,
) -> Result<(), CursorFault>
    requires grown { size cursor.now ≤ n → size cursor.now ≤ table.now.grown }
    ensures listed { OnOk result (IsListed table.now.schema (lists table.now) n cursor.now) }
    ensures refused { IfErr result (IsRefused table.now.schema (lists table.now) n cursor.now) }
    ensures ticks { steps.new ≤ steps.old + 6 * n }
{
    table.holds();
    let mut rest = cursor.size();
    if rest > n {
        return Err(CursorFault::CursorTooLarge);
    }
    let Some(start) = table.start_id() else {
        return Err(CursorFault::CursorStray { line: 1 });
    };
    let mut id = start;
    for (position, event) in cursor.events().iter().enumerate() {
        let left = rest - nodes(event);
        let Some(next) = pass(table, id, event, left, steps) else {
            return Err(CursorFault::CursorStray { line: position + 1 });
        };
        id = next;
        rest = left;
    }
    Ok(())
}
