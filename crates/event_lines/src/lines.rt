// The lines of events.
ghost use Rattle.std.specs.Prelude.{◌≡◌, [], OnOk, OnErr};
ghost use Rattle.rng_model.specs.Lines.{event_line};
ghost use Rattle.skeleton.specs.Views.{event_of};
ghost use Rattle.event_lines.specs.Pieces.{Sends, Fails, progress};
ghost use Rattle.event_lines.specs.Parts.{name_line, text_line, attribute_line, attribute_front, lines_of};

use crate::line_buffer::LineBuffer;
use crate::pieces::{end_line, flush, put, put_name, put_text};
use name_classes::Name;
use outside::{Failed, Sink};
use skeleton::Event;
use text_atoms::Text;

/// Puts bytes as they are, and hands them over with what is held: a line, its line end included, or the end of one.
pub(crate) fn put_line<O: Sink>(
    buffer: &mut LineBuffer,
    sink: &mut O,
    line: &[u8],
) -> Result<(), Failed>
    ensures ok { OnOk result (Sends (progress (O.taken sink.old) buffer.old (O.faults sink.old))
        (progress (O.taken sink.new) buffer.new (O.faults sink.new)) line.now) }
    ensures empty { OnOk result (buffer.new ≡ []) }
    ensures err { OnErr result (Fails (progress (O.taken sink.old) buffer.old (O.faults sink.old))
        (progress (O.taken sink.new) buffer.new (O.faults sink.new)) line.now) }
{
    put(buffer, sink, line)?;
    flush(buffer, sink)
}

/// Puts a line of a byte and a name.
pub(crate) fn put_name_line<O: Sink>(
    buffer: &mut LineBuffer,
    sink: &mut O,
    first: u8,
    name: &Name,
) -> Result<(), Failed>
    ensures ok { OnOk result (Sends (progress (O.taken sink.old) buffer.old (O.faults sink.old))
        (progress (O.taken sink.new) buffer.new (O.faults sink.new)) (name_line first name.now)) }
    ensures empty { OnOk result (buffer.new ≡ []) }
    ensures err { OnErr result (Fails (progress (O.taken sink.old) buffer.old (O.faults sink.old))
        (progress (O.taken sink.new) buffer.new (O.faults sink.new)) (name_line first name.now)) }
{
    put(buffer, sink, &[first])?;
    put_name(buffer, sink, name)?;
    end_line(buffer, sink)
}

/// Puts a line of a byte and a text.
pub(crate) fn put_text_line<O: Sink>(
    buffer: &mut LineBuffer,
    sink: &mut O,
    first: u8,
    text: &Text,
) -> Result<(), Failed>
    ensures ok { OnOk result (Sends (progress (O.taken sink.old) buffer.old (O.faults sink.old))
        (progress (O.taken sink.new) buffer.new (O.faults sink.new)) (text_line first text.now)) }
    ensures empty { OnOk result (buffer.new ≡ []) }
    ensures err { OnErr result (Fails (progress (O.taken sink.old) buffer.old (O.faults sink.old))
        (progress (O.taken sink.new) buffer.new (O.faults sink.new)) (text_line first text.now)) }
{
    put(buffer, sink, &[first])?;
    put_text(buffer, sink, text)?;
    end_line(buffer, sink)
}

/// Puts what stands before the text in the line of an attribute, and hands it over.
pub(crate) fn put_attribute_front<O: Sink>(
    buffer: &mut LineBuffer,
    sink: &mut O,
    name: &Name,
) -> Result<(), Failed>
    ensures ok { OnOk result (Sends (progress (O.taken sink.old) buffer.old (O.faults sink.old))
        (progress (O.taken sink.new) buffer.new (O.faults sink.new)) (attribute_front name.now)) }
    ensures empty { OnOk result (buffer.new ≡ []) }
    ensures err { OnErr result (Fails (progress (O.taken sink.old) buffer.old (O.faults sink.old))
        (progress (O.taken sink.new) buffer.new (O.faults sink.new)) (attribute_front name.now)) }
{
    put(buffer, sink, b"A")?;
    put_name(buffer, sink, name)?;
    put_line(buffer, sink, b" ")
}

/// Puts the line of an attribute.
pub(crate) fn put_attribute_line<O: Sink>(
    buffer: &mut LineBuffer,
    sink: &mut O,
    name: &Name,
    text: &Text,
) -> Result<(), Failed>
    ensures ok { OnOk result (Sends (progress (O.taken sink.old) buffer.old (O.faults sink.old))
        (progress (O.taken sink.new) buffer.new (O.faults sink.new)) (attribute_line name.now text.now)) }
    ensures err { OnErr result (Fails (progress (O.taken sink.old) buffer.old (O.faults sink.old))
        (progress (O.taken sink.new) buffer.new (O.faults sink.new)) (attribute_line name.now text.now)) }
{
    put(buffer, sink, b"A")?;
    put_name(buffer, sink, name)?;
    put_text_line(buffer, sink, b' ', text)
}

/// Puts the line of an event.
fn put_event<O: Sink>(buffer: &mut LineBuffer, sink: &mut O, event: &Event) -> Result<(), Failed>
    ensures ok { OnOk result (Sends (progress (O.taken sink.old) buffer.old (O.faults sink.old))
        (progress (O.taken sink.new) buffer.new (O.faults sink.new)) (event_line (event_of event.now))) }
    ensures err { OnErr result (Fails (progress (O.taken sink.old) buffer.old (O.faults sink.old))
        (progress (O.taken sink.new) buffer.new (O.faults sink.new)) (event_line (event_of event.now))) }
{
    match event {
        Event::Opening(name) => put_name_line(buffer, sink, b'(', name),
        Event::Attr(name, text) => put_attribute_line(buffer, sink, name, text),
        Event::Body => put_line(buffer, sink, b">\n"),
        Event::Chars(text) => put_text_line(buffer, sink, b'-', text),
        Event::Closing => put_line(buffer, sink, b")\n"),
    }
}

/// Puts the lines of events, and an empty line.
pub(crate) fn put_events<O: Sink>(
    buffer: &mut LineBuffer,
    sink: &mut O,
    events: &[Event],
) -> Result<(), Failed>
    ensures ok { OnOk result (Sends (progress (O.taken sink.old) buffer.old (O.faults sink.old))
        (progress (O.taken sink.new) buffer.new (O.faults sink.new)) (lines_of events.now)) }
    ensures empty { OnOk result (buffer.new ≡ []) }
    ensures err { OnErr result (Fails (progress (O.taken sink.old) buffer.old (O.faults sink.old))
        (progress (O.taken sink.new) buffer.new (O.faults sink.new)) (lines_of events.now)) }
{
    for event in events {
        put_event(buffer, sink, event)?;
    }
    put_line(buffer, sink, b"\n")
}
