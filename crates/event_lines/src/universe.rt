// The lines of a universe and its atoms.
ghost use Rattle.std.specs.Prelude.{◌≡◌, ◌<◌, [], flat_map, is_some, OnOk, OnErr};
ghost use Rattle.std.specs.Io.KnownBytes.{Appends};
ghost use Rattle.outside.specs.Counts.{HasCause};
ghost use Rattle.outside.specs.Devices.{AppendsFront};
ghost use Rattle.text_atoms.specs.Origins.{texts_of};
ghost use Rattle.event_lines.specs.Pieces.{Sends, Fails, progress};
ghost use Rattle.event_lines.specs.Parts.{name_line, text_line, universe_text};
ghost use Rattle.event_lines.specs.Coded.{lists_of};

use crate::line_buffer::LineBuffer;
use crate::lines::{put_name_line, put_text_line};
use crate::writing::WriteFault;
use name_classes::Name;
use name_universe::Universe;
use outside::{Failed, Sink};
use text_atoms::Atoms;

/// Appends a line for each name and text: `E` and the name for each element name, then `A` and the name for each attribute name, then
/// `T` and the text for each atom. Each line is handed over as by `write_name_line` and `write_text_line`.
pub fn write_universe<O: Sink>(
    universe: &Universe,
    atoms: &Atoms,
    sink: &mut O,
) -> Result<(), WriteFault>
    ensures ok { OnOk result (Appends (O.taken sink.old) (O.taken sink.new) (universe_text (lists_of universe.now atoms.now))) }
    ensures err { OnErr result (AppendsFront (O.taken sink.old) (O.taken sink.new) (universe_text (lists_of universe.now atoms.now))) }
    ensures told { is_some (O.taken sink.new) ≡ is_some (O.taken sink.old) }
    ensures cause { HasCause (O.faults sink.old) (O.faults sink.new) result }
{
    let mut buffer = LineBuffer::new();
    match put_universe(&mut buffer, sink, universe, atoms) {
        Ok(()) => Ok(()),
        Err(Failed) => Err(WriteFault),
    }
}

/// Puts the lines of a universe and its atoms.
fn put_universe<O: Sink>(
    buffer: &mut LineBuffer,
    sink: &mut O,
    universe: &Universe,
    atoms: &Atoms,
) -> Result<(), Failed>
    requires { buffer.old ≡ [] }
    ensures ok { OnOk result (Sends (progress (O.taken sink.old) buffer.old (O.faults sink.old))
        (progress (O.taken sink.new) buffer.new (O.faults sink.new)) (universe_text (lists_of universe.now atoms.now))) }
    ensures empty { OnOk result (buffer.new ≡ []) }
    ensures err { OnErr result (Fails (progress (O.taken sink.old) buffer.old (O.faults sink.old))
        (progress (O.taken sink.new) buffer.new (O.faults sink.new)) (universe_text (lists_of universe.now atoms.now))) }
{
    put_names(buffer, sink, b'E', universe.elements().as_slice())?;
    put_names(buffer, sink, b'A', universe.attributes().as_slice())?;
    put_texts(buffer, sink, atoms)
}

/// Puts a line of the byte and the name for each name.
fn put_names<O: Sink>(
    buffer: &mut LineBuffer,
    sink: &mut O,
    first: u8,
    names: &[Name],
) -> Result<(), Failed>
    requires { buffer.old ≡ [] }
    ensures ok { OnOk result (Sends (progress (O.taken sink.old) buffer.old (O.faults sink.old))
        (progress (O.taken sink.new) buffer.new (O.faults sink.new)) (flat_map (name_line first) names.now)) }
    ensures empty { OnOk result (buffer.new ≡ []) }
    ensures err { OnErr result (Fails (progress (O.taken sink.old) buffer.old (O.faults sink.old))
        (progress (O.taken sink.new) buffer.new (O.faults sink.new)) (flat_map (name_line first) names.now)) }
{
    for name in names {
        put_name_line(buffer, sink, first, name)?;
    }
    Ok(())
}

/// Puts a line of `T` and the text for each atom.
fn put_texts<O: Sink>(buffer: &mut LineBuffer, sink: &mut O, atoms: &Atoms) -> Result<(), Failed>
    requires { buffer.old ≡ [] }
    ensures ok { OnOk result (Sends (progress (O.taken sink.old) buffer.old (O.faults sink.old))
        (progress (O.taken sink.new) buffer.new (O.faults sink.new)) (flat_map (text_line 84) (texts_of atoms.now))) }
    ensures empty { OnOk result (buffer.new ≡ []) }
    ensures err { OnErr result (Fails (progress (O.taken sink.old) buffer.old (O.faults sink.old))
        (progress (O.taken sink.new) buffer.new (O.faults sink.new)) (flat_map (text_line 84) (texts_of atoms.now))) }
{
    for position in 0..atoms.len() {
        put_text_line(buffer, sink, b'T', atoms.get(position))?;
    }
    Ok(())
}
