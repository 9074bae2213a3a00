// The listing of what follows a document.
ghost use Rattle.std.specs.Prelude.{◌≡◌, ◌⊎◌, ◌+◌, Some, IfSome};
ghost use Rattle.rng_model.specs.Texts.{Text};
ghost use Rattle.rng_model.specs.Patterns.{Schema as SchemaValue};
ghost use Rattle.rng_model.specs.Restrictions.{BreaksNoRule};
ghost use Rattle.outside.specs.Counts.{RisesAtMost};
ghost use Rattle.outside.specs.Devices.{Shelved, IsMissing, length_of};
ghost use Rattle.command_words.specs.Words.{Command as CommandValue};
ghost use Rattle.command_words.specs.Requests.{request_of};
ghost use Rattle.list_command.specs.Asking.{IsTableOf, EndsOver, EndsAfter};
ghost use Rattle.list_command.specs.Causes.{HasWriteCause, HasCauses};
ghost use Rattle.list_command.specs.Ticks.{WritesWithin};

use crate::cursor_file::read_cursor;
use crate::document_list::outcome_of;
use crate::laws::owed_is_asked;
use crate::outcome::{CursorRefusal, Outcome};
use crate::placing::place_cursor;
use crate::table::table_of;
use command_words::{CommandLine, Size};
use feasibility::Table;
use line_laws::texts_differ;
use listing::write_listing;
use outside::{Shelf, Sink, Steps};
use pattern_intern::Schema;
use skeleton::Skeleton;
use std::alloc::Global;
use std::sync::ledger::Ledger;

/// Lists the documents of the schema with at most so many nodes that follow the one whose text the file has.
pub(crate) fn resume<F: Shelf, O: Sink, L: Ledger>(
    alloc: Global,
    schema: Schema,
    asked: &CommandLine<'_>,
    size: Size,
    cursor: &str,
    shelf: &mut F,
    out: &mut O,
    steps: &mut Steps<L>,
) -> Outcome
    requires sound { BreaksNoRule schema.schema }
    ensures owed { (file : Text) (files : Shelved) → (request_of asked.now).command ≡ CommandValue.resume size.nodes file cursor.now →
        F.files shelf.old ≡ Some files → EndsOver (request_of asked.now) (O.taken out.old) (O.taken out.new) schema.schema file files
        (F.faults shelf.old) (F.faults shelf.new) (O.faults out.old) (O.faults out.new) result }
    ensures cause { HasCauses (IsMissing (F.files shelf.old) cursor.now) (F.faults shelf.old) (F.faults shelf.new)
        (O.faults out.old) (O.faults out.new) result }
    ensures misses { (F.misses shelf.new ≡ F.misses shelf.old) ⊎ IsMissing (F.files shelf.old) cursor.now }
    ensures calls { IfSome (F.files shelf.old) (λ files. RisesAtMost (length_of files cursor.now + 2) (F.calls shelf.old) (F.calls shelf.new)) }
    ensures within { WritesWithin steps.old steps.new schema.schema (request_of asked.now) size.nodes (O.taken out.old) (O.taken out.new) result }
{
    let Ok(mut table) = table_of(alloc, schema, asked) else {
        return Outcome::OutOfMemory;
    };
    match read_cursor(alloc, cursor, shelf) {
        Ok(cursor) => {
            let outcome = list_after(alloc, &mut table, asked, size, &cursor, out, steps);
            drop(table);
            outcome
        }
        Err(outcome) => {
            drop(table);
            outcome
        }
    }
}

/// Lists the documents over the table with at most so many nodes that follow the cursor.
fn list_after<O: Sink, L: Ledger>(
    alloc: Global,
    table: &mut Table,
    asked: &CommandLine<'_>,
    size: Size,
    cursor: &Skeleton,
    out: &mut O,
    steps: &mut Steps<L>,
) -> Outcome
    ensures owed { (g : SchemaValue) (file name : Text) → IsTableOf table.old g (request_of asked.now) →
        (request_of asked.now).command ≡ CommandValue.resume size.nodes file name →
        EndsAfter (request_of asked.now) (O.taken out.old) (O.taken out.new) g file name cursor.now
        (O.faults out.old) (O.faults out.new) result }
    ensures cause { HasWriteCause (O.faults out.old) (O.faults out.new) result }
    ensures within { (g : SchemaValue) → IsTableOf table.old g (request_of asked.now) → table.old.grown ≡ 0 → table.old.spent ≡ 0 →
        WritesWithin steps.old steps.new g (request_of asked.now) size.nodes (O.taken out.old) (O.taken out.new) result }
{
    table.holds();
    let nodes = size.nodes as usize;
    if nodes < cursor.size() {
        return Outcome::CursorRefused(CursorRefusal::CursorTooLarge);
    }
    if let Err(outcome) = place_cursor(table, cursor, nodes, steps) {
        return outcome;
    }
    owed_is_asked();
    texts_differ();
    let end = write_listing(alloc, table, nodes, Some(cursor), asked.page, out, steps);
    table.holds();
    outcome_of(end)
}
