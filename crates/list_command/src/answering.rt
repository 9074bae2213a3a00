// What is asked for, done.
ghost use Rattle.std.specs.Prelude.{◌≡◌, ◌⊎◌, ℕ, Some, IfSome};
ghost use Rattle.rng_model.specs.Texts.{Text};
ghost use Rattle.rng_model.specs.Restrictions.{BreaksNoRule};
ghost use Rattle.outside.specs.Counts.{RisesAtMost};
ghost use Rattle.outside.specs.Devices.{Shelved};
ghost use Rattle.command_words.specs.Words.{HasFile};
ghost use Rattle.command_words.specs.Requests.{request_of};
ghost use Rattle.list_command.specs.Asking.{EndsOver, MissesCursor, cursor_calls};
ghost use Rattle.list_command.specs.Causes.{HasCauses};
ghost use Rattle.list_command.specs.Runs.{AnswersAsOwed, MissesAsOwed, CallsAsAsked};
ghost use Rattle.list_command.specs.Ticks.{CountsAccepted, ListsUpTo, ListsWithin, MadeWithin, WritesWithin};

use crate::after_cursor::resume;
use crate::document_list::list;
use crate::laws::{owed_is_asked, schemas_are_decided};
use crate::outcome::Outcome;
use crate::schema_file::read_file;
use crate::seeded::sum_seeded;
use crate::states::count_states;
use crate::universe::show_universe;
use command_words::{Command, CommandLine};
use outside::{Shelf, Sink, Steps};
use pattern_intern::Schema;
use std::alloc::Global;
use std::sync::ledger::Ledger;

/// Does what is asked for.
pub(crate) fn answer<F: Shelf, O: Sink, L: Ledger>(
    alloc: Global,
    asked: &CommandLine<'_>,
    shelf: &mut F,
    out: &mut O,
    steps: &mut Steps<L>,
) -> Outcome
    ensures owed { (files : Shelved) → F.files shelf.old ≡ Some files →
        AnswersAsOwed (request_of asked.now) files (O.taken out.old) (O.taken out.new)
        (F.faults shelf.old) (F.faults shelf.new) (O.faults out.old) (O.faults out.new) result }
    ensures cause { HasCauses (MissesAsOwed (request_of asked.now) (F.files shelf.old)) (F.faults shelf.old) (F.faults shelf.new)
        (O.faults out.old) (O.faults out.new) result }
    ensures misses { (F.misses shelf.new ≡ F.misses shelf.old) ⊎ MissesAsOwed (request_of asked.now) (F.files shelf.old) }
    ensures calls { CallsAsAsked (request_of asked.now) (F.files shelf.old) (F.calls shelf.old) (F.calls shelf.new) }
    ensures lists { (files : Shelved) → F.files shelf.old ≡ Some files →
        ListsWithin steps.old steps.new (request_of asked.now) files (O.taken out.old) (O.taken out.new) result }
    ensures sums { MadeWithin steps.old steps.new (request_of asked.now) result }
    ensures accepted { (files : Shelved) → F.files shelf.old ≡ Some files → CountsAccepted steps.old steps.new (request_of asked.now) files }
{
    if let Command::Seeded { number, size } = asked.command {
        return sum_seeded(alloc, asked, number, size, out, steps);
    }
    let Some(file) = asked.command.file() else {
        unreachable!()
    };
    answer_in_file(alloc, file, asked, shelf, out, steps)
}

/// Does what is asked for with the schema in the file.
fn answer_in_file<F: Shelf, O: Sink, L: Ledger>(
    alloc: Global,
    file: &str,
    asked: &CommandLine<'_>,
    shelf: &mut F,
    out: &mut O,
    steps: &mut Steps<L>,
) -> Outcome
    requires in_file { HasFile (request_of asked.now).command file.now }
    ensures owed { (files : Shelved) → F.files shelf.old ≡ Some files →
        AnswersAsOwed (request_of asked.now) files (O.taken out.old) (O.taken out.new)
        (F.faults shelf.old) (F.faults shelf.new) (O.faults out.old) (O.faults out.new) result }
    ensures cause { HasCauses (MissesAsOwed (request_of asked.now) (F.files shelf.old)) (F.faults shelf.old) (F.faults shelf.new)
        (O.faults out.old) (O.faults out.new) result }
    ensures misses { (F.misses shelf.new ≡ F.misses shelf.old) ⊎ MissesAsOwed (request_of asked.now) (F.files shelf.old) }
    ensures calls { CallsAsAsked (request_of asked.now) (F.files shelf.old) (F.calls shelf.old) (F.calls shelf.new) }
    ensures lists { (files : Shelved) → F.files shelf.old ≡ Some files →
        ListsWithin steps.old steps.new (request_of asked.now) files (O.taken out.old) (O.taken out.new) result }
    ensures accepted { (files : Shelved) → F.files shelf.old ≡ Some files → CountsAccepted steps.old steps.new (request_of asked.now) files }
{
    owed_is_asked();
    schemas_are_decided();
    match read_file(alloc, file, shelf) {
        Ok(schema) => answer_over(alloc, schema, asked, shelf, out, steps),
        Err(outcome) => outcome,
    }
}

/// Does what is asked for with the schema of the command's file.
fn answer_over<F: Shelf, O: Sink, L: Ledger>(
    alloc: Global,
    schema: Schema,
    asked: &CommandLine<'_>,
    shelf: &mut F,
    out: &mut O,
    steps: &mut Steps<L>,
) -> Outcome
    requires sound { BreaksNoRule schema.schema }
    requires in_file { (file : Text) × HasFile (request_of asked.now).command file }
    ensures owed { (file : Text) (files : Shelved) → F.files shelf.old ≡ Some files → HasFile (request_of asked.now).command file →
        EndsOver (request_of asked.now) (O.taken out.old) (O.taken out.new) schema.schema file files
        (F.faults shelf.old) (F.faults shelf.new) (O.faults out.old) (O.faults out.new) result }
    ensures cause { HasCauses (MissesCursor (request_of asked.now) (F.files shelf.old)) (F.faults shelf.old) (F.faults shelf.new)
        (O.faults out.old) (O.faults out.new) result }
    ensures misses { (F.misses shelf.new ≡ F.misses shelf.old) ⊎ MissesCursor (request_of asked.now) (F.files shelf.old) }
    ensures calls { IfSome (F.files shelf.old) (λ files.
        RisesAtMost (cursor_calls files (request_of asked.now).command) (F.calls shelf.old) (F.calls shelf.new)) }
    ensures within { (n : ℕ) → ListsUpTo (request_of asked.now).command n →
        WritesWithin steps.old steps.new schema.schema (request_of asked.now) n (O.taken out.old) (O.taken out.new) result }
{
    match asked.command {
        Command::List { size, .. } => list(alloc, schema, asked, size, out, steps),
        Command::Resume { size, cursor, .. } => {
            resume(alloc, schema, asked, size, cursor, shelf, out, steps)
        }
        Command::Universe { .. } => show_universe(alloc, &schema, asked, out),
        Command::States { size, .. } => count_states(alloc, schema, asked, size, out, steps),
        Command::Seeded { .. } => unreachable!(),
    }
}
