// Handing bytes over through a buffer.
ghost use Rattle.std.specs.Prelude.{◌≡◌, ◌≤◌, ◌<◌, [], codes, flat_map, length, take, IfOk, OnOk, OnErr};
ghost use Rattle.rng_model.specs.Lines.{name_spelling, namespace_escape, text_escape};
ghost use Rattle.event_lines.specs.Escapes.{spelling, qualified};
ghost use Rattle.event_lines.specs.Pieces.{Sends, Fails, progress};

use crate::escapes::Escapes;
use crate::line_buffer::LineBuffer;
use name_classes::Name;
use outside::{Failed, Sink, write_all};
use text_atoms::Text;

/// Hands over what is held, as one piece.
pub(crate) fn flush<O: Sink>(buffer: &mut LineBuffer, sink: &mut O) -> Result<(), Failed>
    ensures ok { OnOk result (Sends (progress (O.taken sink.old) buffer.old (O.faults sink.old))
        (progress (O.taken sink.new) buffer.new (O.faults sink.new)) []) }
    ensures empty { OnOk result (buffer.new ≡ []) }
    ensures err { OnErr result (Fails (progress (O.taken sink.old) buffer.old (O.faults sink.old))
        (progress (O.taken sink.new) buffer.new (O.faults sink.new)) []) }
{
    write_all(sink, buffer.as_bytes())?;
    buffer.clear();
    Ok(())
}

/// Holds the bytes, or hands them over behind what is held where the buffer has no room.
pub(crate) fn put<O: Sink>(
    buffer: &mut LineBuffer,
    sink: &mut O,
    bytes: &[u8],
) -> Result<(), Failed>
    ensures ok { OnOk result (Sends (progress (O.taken sink.old) buffer.old (O.faults sink.old))
        (progress (O.taken sink.new) buffer.new (O.faults sink.new)) bytes.now) }
    ensures err { OnErr result (Fails (progress (O.taken sink.old) buffer.old (O.faults sink.old))
        (progress (O.taken sink.new) buffer.new (O.faults sink.new)) bytes.now) }
{
    if bytes.len() <= buffer.room() {
        buffer.push(bytes);
        return Ok(());
    }
    flush(buffer, sink)?;
    write_all(sink, bytes)
}

/// How many of the first bytes stand for themselves.
fn plain_len(escapes: Escapes, bytes: &[u8]) -> usize
    ensures within { result ≤ length bytes.now }
    ensures plain { flat_map (spelling escapes) (take result bytes.now) ≡ take result bytes.now }
{
    for (i, byte) in bytes.iter().enumerate() {
        if escapes.letter(*byte).is_some() {
            return i;
        }
    }
    bytes.len()
}

/// Puts a byte with its escape.
fn put_byte<O: Sink>(
    escapes: Escapes,
    buffer: &mut LineBuffer,
    sink: &mut O,
    byte: u8,
) -> Result<(), Failed>
    ensures ok { OnOk result (Sends (progress (O.taken sink.old) buffer.old (O.faults sink.old))
        (progress (O.taken sink.new) buffer.new (O.faults sink.new)) (spelling escapes byte)) }
    ensures err { OnErr result (Fails (progress (O.taken sink.old) buffer.old (O.faults sink.old))
        (progress (O.taken sink.new) buffer.new (O.faults sink.new)) (spelling escapes byte)) }
{
    match escapes.letter(byte) {
        Some(letter) => put(buffer, sink, &[b'\\', letter]),
        None => put(buffer, sink, &[byte]),
    }
}

/// Puts the first bytes that stand for themselves and one byte more with its escape, and answers how many these are.
fn put_front<O: Sink>(
    escapes: Escapes,
    buffer: &mut LineBuffer,
    sink: &mut O,
    bytes: &[u8],
) -> Result<usize, Failed>
    requires { 0 < length bytes.now }
    ensures some { IfOk result (λ count. 0 < count) }
    ensures within { IfOk result (λ count. count ≤ length bytes.now) }
    ensures ok { IfOk result (λ count. Sends (progress (O.taken sink.old) buffer.old (O.faults sink.old))
        (progress (O.taken sink.new) buffer.new (O.faults sink.new)) (flat_map (spelling escapes) (take count bytes.now))) }
    ensures err { OnErr result (Fails (progress (O.taken sink.old) buffer.old (O.faults sink.old))
        (progress (O.taken sink.new) buffer.new (O.faults sink.new)) (flat_map (spelling escapes) bytes.now)) }
{
    let plain = plain_len(escapes, bytes);
    put(buffer, sink, &bytes[..plain])?;
    if plain == bytes.len() {
        return Ok(plain);
    }
    put_byte(escapes, buffer, sink, bytes[plain])?;
    Ok(plain + 1)
}

/// Puts bytes with their escapes.
fn put_escaped<O: Sink>(
    escapes: Escapes,
    buffer: &mut LineBuffer,
    sink: &mut O,
    bytes: &[u8],
) -> Result<(), Failed>
    ensures ok { OnOk result (Sends (progress (O.taken sink.old) buffer.old (O.faults sink.old))
        (progress (O.taken sink.new) buffer.new (O.faults sink.new)) (flat_map (spelling escapes) bytes.now)) }
    ensures err { OnErr result (Fails (progress (O.taken sink.old) buffer.old (O.faults sink.old))
        (progress (O.taken sink.new) buffer.new (O.faults sink.new)) (flat_map (spelling escapes) bytes.now)) }
{
    let mut done = 0;
    while done < bytes.len() {
        done += put_front(escapes, buffer, sink, &bytes[done..])?;
    }
    Ok(())
}

/// Puts a name: the local name, behind the namespace in braces unless it is empty.
pub(crate) fn put_name<O: Sink>(
    buffer: &mut LineBuffer,
    sink: &mut O,
    name: &Name,
) -> Result<(), Failed>
    ensures ok { OnOk result (Sends (progress (O.taken sink.old) buffer.old (O.faults sink.old))
        (progress (O.taken sink.new) buffer.new (O.faults sink.new)) (name_spelling name.now)) }
    ensures err { OnErr result (Fails (progress (O.taken sink.old) buffer.old (O.faults sink.old))
        (progress (O.taken sink.new) buffer.new (O.faults sink.new)) (name_spelling name.now)) }
{
    let ns = name.ns().as_str();
    if !ns.is_empty() {
        return put_qualified(buffer, sink, ns, name.local().as_str());
    }
    put_plain(buffer, sink, name.local().as_str())
}

/// Puts the namespace in braces, and the local name.
fn put_qualified<O: Sink>(
    buffer: &mut LineBuffer,
    sink: &mut O,
    ns: &str,
    local: &str,
) -> Result<(), Failed>
    ensures ok { OnOk result (Sends (progress (O.taken sink.old) buffer.old (O.faults sink.old))
        (progress (O.taken sink.new) buffer.new (O.faults sink.new)) (qualified ns.now local.now)) }
    ensures err { OnErr result (Fails (progress (O.taken sink.old) buffer.old (O.faults sink.old))
        (progress (O.taken sink.new) buffer.new (O.faults sink.new)) (qualified ns.now local.now)) }
{
    put(buffer, sink, b"{")?;
    put_namespace(buffer, sink, ns)?;
    put(buffer, sink, b"}")?;
    put_plain(buffer, sink, local)
}

/// Puts a namespace with its escapes.
fn put_namespace<O: Sink>(buffer: &mut LineBuffer, sink: &mut O, ns: &str) -> Result<(), Failed>
    ensures ok { OnOk result (Sends (progress (O.taken sink.old) buffer.old (O.faults sink.old))
        (progress (O.taken sink.new) buffer.new (O.faults sink.new)) (flat_map namespace_escape ns.now)) }
    ensures err { OnErr result (Fails (progress (O.taken sink.old) buffer.old (O.faults sink.old))
        (progress (O.taken sink.new) buffer.new (O.faults sink.new)) (flat_map namespace_escape ns.now)) }
{
    put_escaped(Escapes::Namespace, buffer, sink, ns.as_bytes())
}

/// Puts a text as it is.
fn put_plain<O: Sink>(buffer: &mut LineBuffer, sink: &mut O, text: &str) -> Result<(), Failed>
    ensures ok { OnOk result (Sends (progress (O.taken sink.old) buffer.old (O.faults sink.old))
        (progress (O.taken sink.new) buffer.new (O.faults sink.new)) text.now) }
    ensures err { OnErr result (Fails (progress (O.taken sink.old) buffer.old (O.faults sink.old))
        (progress (O.taken sink.new) buffer.new (O.faults sink.new)) text.now) }
{
    put(buffer, sink, text.as_bytes())
}

/// Puts a text with its escapes.
pub(crate) fn put_text<O: Sink>(
    buffer: &mut LineBuffer,
    sink: &mut O,
    text: &Text,
) -> Result<(), Failed>
    ensures ok { OnOk result (Sends (progress (O.taken sink.old) buffer.old (O.faults sink.old))
        (progress (O.taken sink.new) buffer.new (O.faults sink.new)) (flat_map text_escape text.now)) }
    ensures err { OnErr result (Fails (progress (O.taken sink.old) buffer.old (O.faults sink.old))
        (progress (O.taken sink.new) buffer.new (O.faults sink.new)) (flat_map text_escape text.now)) }
{
    put_escaped(Escapes::Text, buffer, sink, text.as_str().as_bytes())
}

/// Ends the line, and hands it over.
pub(crate) fn end_line<O: Sink>(buffer: &mut LineBuffer, sink: &mut O) -> Result<(), Failed>
    ensures ok { OnOk result (Sends (progress (O.taken sink.old) buffer.old (O.faults sink.old))
        (progress (O.taken sink.new) buffer.new (O.faults sink.new)) (codes "\n")) }
    ensures empty { OnOk result (buffer.new ≡ []) }
    ensures err { OnErr result (Fails (progress (O.taken sink.old) buffer.old (O.faults sink.old))
        (progress (O.taken sink.new) buffer.new (O.faults sink.new)) (codes "\n")) }
{
    put(buffer, sink, b"\n")?;
    flush(buffer, sink)
}
