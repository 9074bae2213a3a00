// The listing of a schema.
ghost use Rattle.std.specs.Prelude.{◌≡◌, ◌≤◌, ℕ, IfSome};
ghost use Rattle.rng_model.specs.Texts.{Text};
ghost use Rattle.rng_model.specs.Restrictions.{BreaksNoRule};
ghost use Rattle.outside.specs.Devices.{Shelved};
ghost use Rattle.command_words.specs.Words.{Command as CommandValue};
ghost use Rattle.command_words.specs.Requests.{request_of};
ghost use Rattle.list_command.specs.Asking.{outcome_from, EndsOver};
ghost use Rattle.list_command.specs.Causes.{HasWriteCause};
ghost use Rattle.list_command.specs.Ticks.{WritesWithin};

use crate::laws::owed_is_asked;
use crate::outcome::Outcome;
use crate::table::table_of;
use command_words::{CommandLine, Size};
use line_laws::texts_differ;
use listing::{ListingEnd, write_listing};
use outside::{Sink, Steps};
use pattern_intern::Schema;
use std::alloc::Global;
use std::sync::ledger::Ledger;

/// How a run ends whose listing ends so.
pub(crate) fn outcome_of(end: ListingEnd) -> Outcome
    ensures { result ≡ outcome_from end }
{
    match end {
        ListingEnd::Full => Outcome::Page,
        ListingEnd::Stopped { size, count } => Outcome::StateLimit { size, count },
        ListingEnd::Whole => Outcome::Done,
        ListingEnd::WriteFault => Outcome::WriteFault,
        ListingEnd::OutOfMemory => Outcome::OutOfMemory,
    }
}

// The page limit is at least 1, if there is one.
fn has_page(asked: &CommandLine<'_>)
    ensures { IfSome asked.now.page (λ k. 1 ≤ k) }
{
    let _page = asked.page;
}

/// Lists the documents of the schema with at most so many nodes.
pub(crate) fn list<O: Sink, L: Ledger>(
    alloc: Global,
    schema: Schema,
    asked: &CommandLine<'_>,
    size: Size,
    out: &mut O,
    steps: &mut Steps<L>,
) -> Outcome
    requires sound { BreaksNoRule schema.schema }
    ensures owed { (file : Text) (files : Shelved) (reads : ℕ) → (request_of asked.now).command ≡ CommandValue.list size.nodes file →
        EndsOver (request_of asked.now) (O.taken out.old) (O.taken out.new) schema.schema file files reads reads (O.faults out.old) (O.faults out.new) result }
    ensures cause { HasWriteCause (O.faults out.old) (O.faults out.new) result }
    ensures within { WritesWithin steps.old steps.new schema.schema (request_of asked.now) size.nodes (O.taken out.old) (O.taken out.new) result }
{
    let Ok(mut table) = table_of(alloc, schema, asked) else {
        return Outcome::OutOfMemory;
    };
    owed_is_asked();
    texts_differ();
    has_page(asked);
    let end = write_listing(
        alloc,
        &mut table,
        size.nodes as usize,
        None,
        asked.page,
        out,
        steps,
    );
    table.holds();
    drop(table);
    outcome_of(end)
}
