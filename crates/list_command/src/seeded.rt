// The summary of what is listed of a schema that is made for a number.
ghost use Rattle.std.specs.Prelude.{◌≡◌, ◌⊎◌, ◌↔◌, ◌≤◌, ℕ, IsTrue, length};
ghost use Rattle.rng_model.specs.Patterns.{Schema as SchemaValue};
ghost use Rattle.rng_model.specs.Restrictions.{BreaksNoRule};
ghost use Rattle.command_words.specs.Words.{Command as CommandValue};
ghost use Rattle.command_words.specs.Requests.{request_of};
ghost use Rattle.list_command.specs.Asking.{IsTableOf, EndsMade, EndsSummed, IsSummedUp};
ghost use Rattle.list_command.specs.Causes.{HasWriteCause};
ghost use Rattle.list_command.specs.Accepting.{Accepts};
ghost use Rattle.list_command.specs.Ticks.{SumsWithin};
ghost use Rattle.seeded_schema.specs.Made.{made};

use crate::document_list::outcome_of;
use crate::laws::{one_is_owed, owed_is_asked, schemas_are_decided};
use crate::outcome::{Outcome, SchemaFault, refused};
use crate::schema::{ReadSchemaFault, read_schema};
use crate::schema_file::SCHEMA_LIMIT;
use crate::table::table_of;
use command_words::{CommandLine, Size};
use feasibility::Table;
use listing::{ListingEnd, sum_listing};
use outside::{Sink, Steps};
use pattern_intern::Schema;
use seeded_schema::make;
use std::alloc::Global;
use std::sync::ledger::Ledger;

/// Sums up what is listed of the schema that is made for the number.
pub(crate) fn sum_seeded<O: Sink, L: Ledger>(
    alloc: Global,
    asked: &CommandLine<'_>,
    number: u32,
    size: Size,
    out: &mut O,
    steps: &mut Steps<L>,
) -> Outcome
    ensures owed { (request_of asked.now).command ≡ CommandValue.seeded number size.nodes →
        EndsMade (request_of asked.now) (O.taken out.old) (O.taken out.new) (O.faults out.old) (O.faults out.new) result }
    ensures cause { HasWriteCause (O.faults out.old) (O.faults out.new) result }
    ensures within { (g : SchemaValue) → Accepts (made number) g → SumsWithin steps.old steps.new g (request_of asked.now) size.nodes result }
    ensures accepted { (steps.new ≡ steps.old) ⊎ ((g : SchemaValue) × Accepts (made number) g) }
{
    let Ok(text) = make(alloc, number) else {
        return Outcome::OutOfMemory;
    };
    let bytes = text.as_slice();
    if !is_short(bytes) {
        return refused(alloc, SchemaFault::TooLong, "");
    }
    schemas_are_decided();
    match read_schema(alloc, bytes) {
        Ok(schema) => sum_schema(alloc, schema, asked, size, out, steps),
        Err(ReadSchemaFault::OutOfMemory) => Outcome::OutOfMemory,
        Err(ReadSchemaFault::Refused(fault)) => refused(alloc, fault, ""),
    }
}

/// Sums up what is listed of the schema.
fn sum_schema<O: Sink, L: Ledger>(
    alloc: Global,
    schema: Schema,
    asked: &CommandLine<'_>,
    size: Size,
    out: &mut O,
    steps: &mut Steps<L>,
) -> Outcome
    requires sound { BreaksNoRule schema.schema }
    ensures owed { (z : ℕ) → (request_of asked.now).command ≡ CommandValue.seeded z size.nodes →
        EndsSummed (request_of asked.now) (O.taken out.old) (O.taken out.new) schema.schema z (O.faults out.old) (O.faults out.new) result }
    ensures cause { HasWriteCause (O.faults out.old) (O.faults out.new) result }
    ensures within { SumsWithin steps.old steps.new schema.schema (request_of asked.now) size.nodes result }
{
    let Ok(mut table) = table_of(alloc, schema, asked) else {
        return Outcome::OutOfMemory;
    };
    let outcome = sum_table(alloc, &mut table, asked, size, out, steps);
    drop(table);
    outcome
}

/// Sums up what is listed over the table.
fn sum_table<O: Sink, L: Ledger>(
    alloc: Global,
    table: &mut Table,
    asked: &CommandLine<'_>,
    size: Size,
    out: &mut O,
    steps: &mut Steps<L>,
) -> Outcome
    ensures owed { (g : SchemaValue) (z : ℕ) → IsTableOf table.old g (request_of asked.now) →
        (request_of asked.now).command ≡ CommandValue.seeded z size.nodes →
        EndsSummed (request_of asked.now) (O.taken out.old) (O.taken out.new) g z (O.faults out.old) (O.faults out.new) result }
    ensures cause { HasWriteCause (O.faults out.old) (O.faults out.new) result }
    ensures within { (g : SchemaValue) → IsTableOf table.old g (request_of asked.now) → table.old.grown ≡ 0 → table.old.spent ≡ 0 →
        SumsWithin steps.old steps.new g (request_of asked.now) size.nodes result }
{
    owed_is_asked();
    one_is_owed();
    let (end, tally) = sum_listing(alloc, table, size.nodes as usize, asked.page, steps);
    table.holds();
    if !is_summed_up(end) {
        return outcome_of(end);
    }
    match tally.write_summary(out) {
        Ok(()) => outcome_of(end),
        Err(_) => Outcome::WriteFault,
    }
}

/// Whether a schema may have so many bytes.
fn is_short(bytes: &[u8]) -> bool
    ensures { IsTrue result ↔ (length bytes.now ≤ 1048576) }
{
    bytes.len() <= SCHEMA_LIMIT
}

/// Whether a listing that ended so is summed up.
fn is_summed_up(end: ListingEnd) -> bool
    ensures { IsTrue result ↔ IsSummedUp end }
{
    matches!(end, ListingEnd::Full | ListingEnd::Whole)
}
