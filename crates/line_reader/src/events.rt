// Events read from their lines.
ghost use Rattle.std.specs.Prelude.{◌≡◌, ◌≤◌, ◌<◌, ◌++◌, ◌∷◌, flat_map, drop, length, IfOk, IfSome, MatchOption};
ghost use Rattle.rng_model.specs.Events as model;
ghost use Rattle.rng_model.specs.Lines.{event_line};
ghost use Rattle.line_laws.specs.EventLists.{IsEvent};
ghost use Rattle.skeleton.specs.Views.{event_of};
ghost use Rattle.line_reader.specs.Spellings.{event_body, BeginsNoLine};

use crate::cuts::cut_at;
use crate::names::read_name;
use crate::texts::read_text;
use skeleton::{Event, Events};
use std::alloc::{AllocError as OutOfMemory, Global};

/// The attribute whose line is `A` and the bytes: its name, one space and its text.
fn read_attribute(alloc: Global, bytes: &[u8]) -> Result<Option<Event>, OutOfMemory>
    ensures { IfOk result (λ read. MatchOption read
        ((e : model.Event) → IsEvent e → event_body e ≡ 65 ∷ bytes.now → ⊥)
        (λ event. event_body (event_of event) ≡ 65 ∷ bytes.now)) }
{
    let Some((name, text)) = cut_at(bytes, b' ') else {
        return Ok(None);
    };
    let Some(name) = read_name(alloc, name)? else {
        return Ok(None);
    };
    match read_text(alloc, text)? {
        Some(text) => Ok(Some(Event::Attr(name, text))),
        None => Ok(None),
    }
}

/// The event whose line is the bytes and a line feed.
fn read_body(alloc: Global, bytes: &[u8]) -> Result<Option<Event>, OutOfMemory>
    ensures { IfOk result (λ read. MatchOption read
        ((e : model.Event) → IsEvent e → event_body e ≡ bytes.now → ⊥)
        (λ event. event_body (event_of event) ≡ bytes.now)) }
{
    match bytes {
        b">" => Ok(Some(Event::Body)),
        b")" => Ok(Some(Event::Closing)),
        [b'(', name @ ..] => Ok(read_name(alloc, name)?.map(Event::Opening)),
        [b'A', rest @ ..] => read_attribute(alloc, rest),
        [b'-', text @ ..] => Ok(read_text(alloc, text)?.map(Event::Chars)),
        _ => Ok(None),
    }
}

/// The event whose line the bytes begin with, and how many bytes that line has.
fn read_line(alloc: Global, bytes: &[u8]) -> Result<Option<(Event, usize)>, OutOfMemory>
    ensures value { IfOk result (λ read. MatchOption read (BeginsNoLine bytes.now)
        (λ line. bytes.now ≡ event_line (event_of line.0) ++ drop line.1 bytes.now)) }
    ensures within { IfOk result (λ read. IfSome read (λ line. line.1 ≤ length bytes.now)) }
    ensures some { IfOk result (λ read. IfSome read (λ line. 0 < line.1)) }
{
    let Some((body, _)) = cut_at(bytes, b'\n') else {
        return Ok(None);
    };
    let len = body.len() + 1;
    match read_body(alloc, body)? {
        Some(event) => Ok(Some((event, len))),
        None => Ok(None),
    }
}

/// The events of the first lines, as far as these are the lines of events, and how many bytes they have.
pub(crate) fn read_events(alloc: Global, bytes: &[u8]) -> Result<(Events, usize), OutOfMemory>
    ensures within { IfOk result (λ read. read.1 ≤ length bytes.now) }
    ensures lines { IfOk result (λ read.
        bytes.now ≡ flat_map event_line read.0 ++ drop read.1 bytes.now) }
    ensures all { IfOk result (λ read. BeginsNoLine (drop read.1 bytes.now)) }
{
    let mut events = Events::new(alloc);
    let mut done = 0;
    while let Some((event, len)) = read_line(alloc, &bytes[done..])? {
        events.push(event)?;
        done += len;
    }
    Ok((events, done))
}
