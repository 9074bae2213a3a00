// The numbers of states, size after size.
ghost use Rattle.std.specs.Prelude.{◌≡◌, ℕ, ◌+◌, ◌*◌, ◌≤◌, List, Option, None, OnOk, is_some};
ghost use Rattle.feasibility.specs.Tables.{Keeps, group_total};
ghost use Rattle.listing.specs.Progress.{asked_of};
ghost use Rattle.listing.specs.Endings.{HasCauseOf, HasCauseIn};
ghost use Rattle.listing.specs.Counting.{IsCountedBelow, CountsAs, CountsOn};

use crate::listing_end::ListingEnd;
use event_lines::WriteFault;
use feasibility::{Table, TableFault};
use outside::{Sink, Steps};
use std::sync::ledger::Ledger;
use summary::write_state_line;

/// Grows the table by one size, and writes the line of that size.
fn write_count<O: Sink, L: Ledger>(
    table: &mut Table,
    m: usize,
    out: &mut O,
    steps: &mut Steps<L>,
) -> Result<(), ListingEnd>
    requires some { 1 ≤ m }
    requires most { m ≤ 64 }
    requires next { table.old.grown + 1 ≡ m }
    ensures counts_on { (n : ℕ) (taken : Option (List ℕ)) → m ≤ n →
        IsCountedBelow (asked_of table.old n None) m taken (O.taken out.old) →
        CountsOn (asked_of table.old n None) m taken (O.taken out.new) result }
    ensures grown { OnOk result (table.new.grown ≡ m) }
    ensures kept { Keeps table.old table.new }
    ensures told { is_some (O.taken out.new) ≡ is_some (O.taken out.old) }
    ensures cause { HasCauseIn (O.faults out.old) (O.faults out.new) result }
    ensures spent { OnOk result (steps.new + table.old.spent ≤ steps.old + table.new.spent) }
    ensures ticks { steps.new + table.old.spent ≤ steps.old + group_total table.old * (table.old.limit + 1) }
{
    match table.grow_to(m, steps) {
        Err(TableFault::StateLimit { size, count }) => return Err(ListingEnd::Stopped {
            size,
            count,
        }),
        Err(TableFault::OutOfMemory) => return Err(ListingEnd::OutOfMemory),
        Ok(()) => {}
    }
    table.holds();
    match write_state_line(m as u64, table.state_count() as u64, out) {
        Ok(()) => Ok(()),
        Err(WriteFault) => Err(ListingEnd::WriteFault),
    }
}

/// Writes a line of a size and its number of states for each size from 1 to `size`, at most 64, as far as there are no more than the limit.
/// The table is a new one. The count of steps rises by at most one for each group of alike codes and each state up to one more than the limit.
pub fn write_counts<O: Sink, L: Ledger>(
    table: &mut Table,
    size: usize,
    out: &mut O,
    steps: &mut Steps<L>,
) -> ListingEnd
    requires some { 1 ≤ size }
    requires most { size ≤ 64 }
    requires fresh { table.old.grown ≡ 0 }
    ensures ends { CountsAs (asked_of table.old size None) (O.taken out.old) (O.taken out.new) result }
    ensures cause { HasCauseOf (O.faults out.old) (O.faults out.new) result }
    ensures told { is_some (O.taken out.new) ≡ is_some (O.taken out.old) }
    ensures kept { Keeps table.old table.new }
    ensures ticks { steps.new + table.old.spent ≤ steps.old + group_total table.old * (table.old.limit + 1) }
{
    let mut m = 1;
    while m <= size {
        if let Err(end) = write_count(table, m, out, steps) {
            return end;
        }
        m += 1;
    }
    table.holds();
    ListingEnd::Whole
}
