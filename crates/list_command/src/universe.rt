// The universe and the atoms of a schema, as lines.
ghost use Rattle.std.specs.Prelude.{◌≡◌, ℕ};
ghost use Rattle.rng_model.specs.Texts.{Text};
ghost use Rattle.outside.specs.Devices.{Shelved};
ghost use Rattle.command_words.specs.Words.{Command as CommandValue};
ghost use Rattle.command_words.specs.Requests.{request_of};
ghost use Rattle.list_command.specs.Causes.{HasWriteCause};
ghost use Rattle.list_command.specs.Asking.{EndsOver};

use crate::laws::one_is_owed;
use crate::outcome::Outcome;
use crate::table::names_and_texts;
use command_words::CommandLine;
use event_lines::write_universe;
use outside::Sink;
use pattern_intern::Schema;
use std::alloc::Global;

/// Writes the names and texts of the schema.
pub(crate) fn show_universe<O: Sink>(
    alloc: Global,
    schema: &Schema,
    asked: &CommandLine<'_>,
    out: &mut O,
) -> Outcome
    ensures owed { (file : Text) (files : Shelved) (reads : ℕ) → (request_of asked.now).command ≡ CommandValue.universe file →
        EndsOver (request_of asked.now) (O.taken out.old) (O.taken out.new) schema.now.schema file files reads reads (O.faults out.old) (O.faults out.new) result }
    ensures cause { HasWriteCause (O.faults out.old) (O.faults out.new) result }
{
    let Ok((universe, atoms)) = names_and_texts(alloc, schema, asked) else {
        return Outcome::OutOfMemory;
    };
    one_is_owed();
    match write_universe(&universe, &atoms, out) {
        Ok(()) => Outcome::Done,
        Err(_) => Outcome::WriteFault,
    }
}
