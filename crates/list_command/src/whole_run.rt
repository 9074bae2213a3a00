// A whole run.
ghost use Rattle.std.specs.Prelude.{◌≡◌, ◌⊎◌, ◌↔◌, [], List, Some, map, string_bytes};
ghost use Rattle.outside.specs.Counts.{Rose};
ghost use Rattle.outside.specs.Devices.{Shelved};
ghost use Rattle.rng_model.specs.Texts.{Text};
ghost use Rattle.command_words.specs.Words.{Request, HasForm, HasNoForm};
ghost use Rattle.list_command.specs.Causes.{HasCauses};
ghost use Rattle.list_command.specs.Whole.{EndsWhole};
ghost use Rattle.list_command.specs.Runs.{EndsAsOwed, OwesFor, IsReadFaultOwed, IsFault, CallsAsNeeded, WritesFaultLine};
ghost use Rattle.list_command.specs.Ticks.{ListsWithin, MadeWithin};

use crate::answering::answer;
use crate::fault_lines::write_fault_line;
use crate::laws::{fitting_runs_are_whole, owed_is_asked, schemas_are_decided};
use crate::outcome::{Outcome, SchemaFault};
use command_words::read_words;
use outside::{Shelf, Sink, Steps};
use std::alloc::Global;
use std::sync::ledger::Ledger;

/// Does what the words ask for, and writes a fault line where there is one.
pub fn run<F: Shelf, O: Sink, E: Sink, L: Ledger>(
    alloc: Global,
    words: &Vec<String>,
    shelf: &mut F,
    out: &mut O,
    err: &mut E,
    steps: &mut Steps<L>,
) -> Outcome
    // The headline.
    ensures owed { (files : Shelved) → F.files shelf.old ≡ Some files →
        EndsAsOwed (map string_bytes words.now.items) files (O.taken out.old) (O.taken out.new)
        (F.faults shelf.old) (F.faults shelf.new) (O.faults out.old) (O.faults out.new) result }

    ensures whole { (files : Shelved) → F.files shelf.old ≡ Some files →
        EndsWhole (map string_bytes words.now.items) files (F.faults shelf.old) (F.faults shelf.new) (O.faults out.old) (O.faults out.new) result }

    // For every shelf and sink, telling or not.
    ensures words { (result ≡ Outcome.Words) ↔ HasNoForm (map string_bytes words.now.items) }
    ensures read_fault { result ≡ Outcome.ReadFault →
        Rose (F.faults shelf.old) (F.faults shelf.new) ⊎ IsReadFaultOwed (map string_bytes words.now.items) (F.files shelf.old) }
    ensures write_fault { result ≡ Outcome.WriteFault → Rose (O.faults out.old) (O.faults out.new) }

    // After a failed read or write the run ends with that fault.
    ensures no_fault { IsFault result ⊎ ((F.faults shelf.new ≡ F.faults shelf.old) × (O.faults out.new ≡ O.faults out.old)) }
    ensures misses { (F.misses shelf.new ≡ F.misses shelf.old) ⊎ IsReadFaultOwed (map string_bytes words.now.items) (F.files shelf.old) }
    ensures calls { CallsAsNeeded (map string_bytes words.now.items) (F.files shelf.old) (F.calls shelf.old) (F.calls shelf.new) }

    // How many steps it counts: for what is listed and summed, and none without a schema that is accepted.
    ensures lists { (files : Shelved) (request : Request) → F.files shelf.old ≡ Some files → HasForm (map string_bytes words.now.items) request →
        ListsWithin steps.old steps.new request files (O.taken out.old) (O.taken out.new) result }
    ensures sums { (request : Request) → HasForm (map string_bytes words.now.items) request → MadeWithin steps.old steps.new request result }
    ensures formless { HasNoForm (map string_bytes words.now.items) → steps.new ≡ steps.old }
    ensures refused { (files : Shelved) (needed : List Text) (fault : SchemaFault) (name : Text) → F.files shelf.old ≡ Some files →
        OwesFor (map string_bytes words.now.items) files needed (Outcome.SchemaRefused fault name) [] → steps.new ≡ steps.old }

    ensures line { WritesFaultLine result (E.taken err.old) (E.taken err.new) (E.faults err.old) (E.faults err.new) }
{
    fitting_runs_are_whole();
    let outcome = obey(alloc, words.as_slice(), shelf, out, steps);
    write_fault_line(&outcome, err);
    outcome
}

/// Does what the words ask for.
fn obey<F: Shelf, O: Sink, L: Ledger>(
    alloc: Global,
    words: &[String],
    shelf: &mut F,
    out: &mut O,
    steps: &mut Steps<L>,
) -> Outcome
    ensures owed { (files : Shelved) → F.files shelf.old ≡ Some files →
        EndsAsOwed (map string_bytes words.now) files (O.taken out.old) (O.taken out.new)
        (F.faults shelf.old) (F.faults shelf.new) (O.faults out.old) (O.faults out.new) result }

    ensures words { (result ≡ Outcome.Words) ↔ HasNoForm (map string_bytes words.now) }
    ensures cause { (result ≡ Outcome.Words) ⊎ HasCauses (IsReadFaultOwed (map string_bytes words.now) (F.files shelf.old))
        (F.faults shelf.old) (F.faults shelf.new) (O.faults out.old) (O.faults out.new) result }
    ensures kept { result ≡ Outcome.Words → (F.faults shelf.new ≡ F.faults shelf.old) × (O.faults out.new ≡ O.faults out.old) }
    ensures misses { (F.misses shelf.new ≡ F.misses shelf.old) ⊎ IsReadFaultOwed (map string_bytes words.now) (F.files shelf.old) }
    ensures calls { CallsAsNeeded (map string_bytes words.now) (F.files shelf.old) (F.calls shelf.old) (F.calls shelf.new) }

    ensures lists { (files : Shelved) (request : Request) → F.files shelf.old ≡ Some files → HasForm (map string_bytes words.now) request →
        ListsWithin steps.old steps.new request files (O.taken out.old) (O.taken out.new) result }
    ensures sums { (request : Request) → HasForm (map string_bytes words.now) request → MadeWithin steps.old steps.new request result }
    ensures formless { HasNoForm (map string_bytes words.now) → steps.new ≡ steps.old }
    ensures refused { (files : Shelved) (needed : List Text) (fault : SchemaFault) (name : Text) → F.files shelf.old ≡ Some files →
        OwesFor (map string_bytes words.now) files needed (Outcome.SchemaRefused fault name) [] → steps.new ≡ steps.old }
{
    let Some(asked) = read_words(words) else {
        return Outcome::Words;
    };
    owed_is_asked();
    schemas_are_decided();
    answer(alloc, &asked, shelf, out, steps)
}
