// The lines of codes.
ghost use Rattle.std.specs.Prelude.{◌≡◌, ◌↔◌, [], ◌++◌, IsTrue, OnOk, OnErr};
ghost use Rattle.std.specs.List.{All};
ghost use Rattle.rng_model.specs.Codes.{IsInRange};
ghost use Rattle.skeleton.specs.Views.{code_of};
ghost use Rattle.event_lines.specs.Pieces.{Sends, Fails, progress};
ghost use Rattle.event_lines.specs.Coded.{AreInRange, lists_of};
ghost use Rattle.event_lines.specs.Spelled.{HasSpelling, spelled_line, spelled_lines};

use crate::line_buffer::LineBuffer;
use crate::lines::put_line;
use crate::pieces::put;
use crate::spellings::Spellings;
use name_universe::Universe;
use outside::{Failed, Sink, write_all};
use skeleton::Code;
use text_atoms::Atoms;

fn is_in_range(code: Code, universe: &Universe, atoms: &Atoms) -> bool
    ensures { IsTrue result ↔ IsInRange (lists_of universe.now atoms.now) (code_of code) }
{
    match code {
        Code::Opening(name) => name < universe.elements().len(),
        Code::Attr(name, text) => name < universe.attributes().len() && text < atoms.len(),
        Code::Chars(text) => text < atoms.len(),
        Code::Body | Code::Closing => true,
    }
}

/// Whether each code's positions are below the lengths of the lists of names and atoms, which is the condition of `measure`, and of
/// `DocumentLines::write` where these lists were spelled.
pub fn are_in_range(codes: &[Code], universe: &Universe, atoms: &Atoms) -> bool
    ensures { IsTrue result ↔ AreInRange (lists_of universe.now atoms.now) codes.now }
{
    codes.iter().all(|code| is_in_range(*code, universe, atoms))
}

/// Hands over a line that is spelled already, past the empty buffer.
fn send_line<O: Sink>(buffer: &LineBuffer, sink: &mut O, line: &[u8]) -> Result<(), Failed>
    requires { buffer.now ≡ [] }
    ensures ok { OnOk result (Sends (progress (O.taken sink.old) buffer.now (O.faults sink.old))
        (progress (O.taken sink.new) buffer.now (O.faults sink.new)) line.now) }
    ensures err { OnErr result (Fails (progress (O.taken sink.old) buffer.now (O.faults sink.old))
        (progress (O.taken sink.new) buffer.now (O.faults sink.new)) line.now) }
{
    write_all(sink, line)
}

/// Puts the line of an attribute, of its two parts.
fn put_parts<O: Sink>(
    buffer: &mut LineBuffer,
    sink: &mut O,
    front: &[u8],
    value: &[u8],
) -> Result<(), Failed>
    ensures ok { OnOk result (Sends (progress (O.taken sink.old) buffer.old (O.faults sink.old))
        (progress (O.taken sink.new) buffer.new (O.faults sink.new)) (front.now ++ value.now)) }
    ensures empty { OnOk result (buffer.new ≡ []) }
    ensures err { OnErr result (Fails (progress (O.taken sink.old) buffer.old (O.faults sink.old))
        (progress (O.taken sink.new) buffer.new (O.faults sink.new)) (front.now ++ value.now)) }
{
    put(buffer, sink, front)?;
    put_line(buffer, sink, value)
}

/// Hands over the line of the event that a code is by position. The buffer is empty before and after.
fn put_code<O: Sink>(
    buffer: &mut LineBuffer,
    sink: &mut O,
    code: Code,
    spellings: &Spellings,
) -> Result<(), Failed>
    requires empty { buffer.old ≡ [] }
    requires spelled { HasSpelling spellings.now (code_of code) }
    ensures ok { OnOk result (Sends (progress (O.taken sink.old) buffer.old (O.faults sink.old))
        (progress (O.taken sink.new) buffer.new (O.faults sink.new)) (spelled_line spellings.now code)) }
    ensures empty { OnOk result (buffer.new ≡ []) }
    ensures err { OnErr result (Fails (progress (O.taken sink.old) buffer.old (O.faults sink.old))
        (progress (O.taken sink.new) buffer.new (O.faults sink.new)) (spelled_line spellings.now code)) }
{
    match code {
        Code::Opening(name) => send_line(buffer, sink, spellings.opening(name)),
        Code::Attr(name, text) => {
            put_parts(buffer, sink, spellings.front(name), spellings.value(text))
        }
        Code::Body => send_line(buffer, sink, b">\n"),
        Code::Chars(text) => send_line(buffer, sink, spellings.text(text)),
        Code::Closing => send_line(buffer, sink, b")\n"),
    }
}

/// Hands over the lines of the events that codes are by position, and an empty line.
pub(crate) fn put_codes<O: Sink>(
    buffer: &mut LineBuffer,
    sink: &mut O,
    codes: &[Code],
    spellings: &Spellings,
) -> Result<(), Failed>
    requires empty { buffer.old ≡ [] }
    requires spelled { All (λ c. HasSpelling spellings.now (code_of c)) codes.now }
    ensures ok { OnOk result (Sends (progress (O.taken sink.old) buffer.old (O.faults sink.old))
        (progress (O.taken sink.new) buffer.new (O.faults sink.new)) (spelled_lines spellings.now codes.now)) }
    ensures empty { OnOk result (buffer.new ≡ []) }
    ensures err { OnErr result (Fails (progress (O.taken sink.old) buffer.old (O.faults sink.old))
        (progress (O.taken sink.new) buffer.new (O.faults sink.new)) (spelled_lines spellings.now codes.now)) }
{
    for code in codes {
        put_code(buffer, sink, *code, spellings)?;
    }
    send_line(buffer, sink, b"\n")
}
