// The numbers of states.
ghost use Rattle.std.specs.Prelude.{◌≡◌, ℕ};
ghost use Rattle.rng_model.specs.Texts.{Text};
ghost use Rattle.rng_model.specs.Restrictions.{BreaksNoRule};
ghost use Rattle.outside.specs.Devices.{Shelved};
ghost use Rattle.command_words.specs.Words.{Command as CommandValue};
ghost use Rattle.command_words.specs.Requests.{request_of};
ghost use Rattle.list_command.specs.Causes.{HasWriteCause};
ghost use Rattle.list_command.specs.Asking.{EndsOver};

use crate::document_list::outcome_of;
use crate::laws::owed_is_asked;
use crate::outcome::Outcome;
use crate::table::table_of;
use command_words::{CommandLine, Size};
use listing::write_counts;
use outside::{Sink, Steps};
use pattern_intern::Schema;
use std::alloc::Global;
use std::sync::ledger::Ledger;

/// Counts the states of the schema for each size up to this one.
pub(crate) fn count_states<O: Sink, L: Ledger>(
    alloc: Global,
    schema: Schema,
    asked: &CommandLine<'_>,
    size: Size,
    out: &mut O,
    steps: &mut Steps<L>,
) -> Outcome
    requires sound { BreaksNoRule schema.schema }
    ensures owed { (file : Text) (files : Shelved) (reads : ℕ) → (request_of asked.now).command ≡ CommandValue.states size.nodes file →
        EndsOver (request_of asked.now) (O.taken out.old) (O.taken out.new) schema.schema file files reads reads (O.faults out.old) (O.faults out.new) result }
    ensures cause { HasWriteCause (O.faults out.old) (O.faults out.new) result }
{
    let Ok(mut table) = table_of(alloc, schema, asked) else {
        return Outcome::OutOfMemory;
    };
    owed_is_asked();
    let end = write_counts(&mut table, size.nodes as usize, out, steps);
    drop(table);
    outcome_of(end)
}
