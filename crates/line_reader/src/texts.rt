// Texts read from their spellings.
ghost use Rattle.std.specs.Prelude.{◌≡◌, ◌≤◌, ◌++◌, flat_map, drop, length, IsUtf8, IfOk, MatchOption};
ghost use Rattle.rng_model.specs.Lines.{text_escape};
ghost use Rattle.rng_model.specs.Texts as texts;
ghost use Rattle.line_reader.specs.Spellings.{spelling, StopsAt};

use crate::escapes::Escapes;
use std::alloc::{AllocError as OutOfMemory, Global};
use text_atoms::Text;

/// The text of the bytes, where they are UTF-8.
pub(crate) fn text_of(bytes: Vec<u8>) -> Option<Text>
    ensures { MatchOption result (IsUtf8 bytes.items → ⊥) (λ text. text ≡ bytes.items) }
{
    match String::from_utf8(bytes) {
        Ok(string) => Some(Text::from_string(string)),
        Err(_) => None,
    }
}

/// What the longest front of the bytes spells, and how many bytes that front has.
pub(crate) fn read_front(
    alloc: Global,
    escapes: Escapes,
    bytes: &[u8],
) -> Result<(Vec<u8>, usize), OutOfMemory>
    ensures within { IfOk result (λ read. read.1 ≤ length bytes.now) }
    ensures front { IfOk result (λ read.
        bytes.now ≡ flat_map (spelling escapes) read.0.items ++ drop read.1 bytes.now) }
    ensures longest { IfOk result (λ read. StopsAt escapes (drop read.1 bytes.now)) }
{
    let mut spelled = Vec::new(alloc);
    let mut done = 0;
    while let Some((byte, len)) = escapes.first_byte(&bytes[done..]) {
        spelled.push(byte)?;
        done += len;
    }
    Ok((spelled, done))
}

/// The text that the bytes spell, where they spell one.
pub(crate) fn read_text(alloc: Global, bytes: &[u8]) -> Result<Option<Text>, OutOfMemory>
    ensures { IfOk result (λ read. MatchOption read
        ((text : texts.Text) → IsUtf8 text → flat_map text_escape text ≡ bytes.now → ⊥)
        (λ text. flat_map text_escape text ≡ bytes.now)) }
{
    let (spelled, len) = read_front(alloc, Escapes::Text, bytes)?;
    if len < bytes.len() {
        return Ok(None);
    }
    Ok(text_of(spelled))
}
