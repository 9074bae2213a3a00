// The table of a schema over its names and texts.
ghost use Rattle.std.specs.Prelude.{◌≡◌, IfOk};
ghost use Rattle.rng_model.specs.Restrictions.{BreaksNoRule};
ghost use Rattle.rng_model.specs.Universe.{AreLists};
ghost use Rattle.event_lines.specs.Coded.{lists_of};
ghost use Rattle.command_words.specs.Requests.{request_of};
ghost use Rattle.list_command.specs.Asking.{IsTableOf};

use command_words::CommandLine;
use feasibility::Table;
use name_universe::Universe;
use pattern_intern::Schema;
use std::alloc::{AllocError, Global};
use text_atoms::Atoms;

/// The names and texts of the schema, with the fresh names and the extra texts that are asked for.
pub(crate) fn names_and_texts(
    alloc: Global,
    schema: &Schema,
    asked: &CommandLine<'_>,
) -> Result<(Universe, Atoms), AllocError>
    ensures { IfOk result (λ l. AreLists schema.now.schema (request_of asked.now).fresh (request_of asked.now).texts (lists_of l.0 l.1)) }
{
    let universe = Universe::of(alloc, schema, asked.fresh)?;
    let literals = schema.literals(alloc)?;
    let texts = asked.extra_texts(alloc)?;
    let atoms = Atoms::of(alloc, &literals, &texts)?;
    Ok((universe, atoms))
}

/// The table of the schema over these names and texts, with the limit of states that is asked for.
pub(crate) fn table_of(
    alloc: Global,
    schema: Schema,
    asked: &CommandLine<'_>,
) -> Result<Table, AllocError>
    requires sound { BreaksNoRule schema.schema }
    ensures asked { IfOk result (λ t. IsTableOf t schema.schema (request_of asked.now)) }
    ensures empty { IfOk result (λ t. t.grown ≡ 0) }
    ensures unspent { IfOk result (λ t. t.spent ≡ 0) }
{
    let (universe, atoms) = names_and_texts(alloc, &schema, asked)?;
    Table::new(alloc, schema, universe, atoms, asked.limit as usize)
}
