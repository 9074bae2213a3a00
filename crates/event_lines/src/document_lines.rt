// Documents that are written one after the other.
ghost use Rattle.std.specs.Prelude.{◌≡◌, ◌≤◌, ◌+◌, ◌-◌, [], drop, is_some, length, map, take, List, IfOk, OnOk, OnErr};
ghost use Rattle.std.specs.Io.KnownBytes.{Appends};
ghost use Rattle.std.specs.List.{All};
ghost use Rattle.outside.specs.Counts.{HasCause};
ghost use Rattle.outside.specs.Devices.{AppendsFront};
ghost use Rattle.rng_model.specs.Events.{Event};
ghost use Rattle.rng_model.specs.Universe.{Lists};
ghost use Rattle.skeleton.specs.Views.{code_of};
ghost use Rattle.event_lines.specs.Pieces.{Sends, Fails, progress};
ghost use Rattle.event_lines.specs.Coded.{AreCodesOf, events_text, lists_of};
ghost use Rattle.event_lines.specs.Spelled.{AreSpellings, AreSpelled, HasSpelling, spelled_lines};
ghost use Rattle.event_lines.specs.Held.{BeginsWith, HoldsLines, closings as closing_codes};

use crate::closings::{closing_lines, closings_behind};
use crate::codes::put_codes;
use crate::held_lines::HeldLines;
use crate::holding::hold_front;
use crate::line_buffer::LineBuffer;
use crate::spellings::Spellings;
use crate::writing::WriteFault;
use name_universe::Universe;
use outside::{Failed, Sink};
use skeleton::Code;
use std::alloc::{AllocError, Global};
use std::marker::Model;
use text_atoms::Atoms;

/// The names and texts of a universe and its atoms, spelled once for many documents, and the lines of the first codes of the document
/// that was written last. Contracts see the spellings, and the codes whose lines are held.
#[derive(Drop)]
pub struct DocumentLines {
    spellings: Spellings,
    held: HeldLines,
    line: LineBuffer,
}

impl Model for DocumentLines {
    ghost use Rattle.std.specs.Prelude.{map};
    ghost use Rattle.skeleton.specs.Views.{code_of};
    ghost use Rattle.event_lines.specs.Held.{HoldsLines, SpelledCodes};

    ghost Value = { SpelledCodes };

    ghost view = { λ d. record { spellings = d.spellings; codes = map code_of d.held.codes } };

    ghost invariant = { λ d. HoldsLines d.spellings d.held };
}

impl DocumentLines {
    /// Spells the names and texts, and holds no lines. Refused for want of memory alone; none is taken later.
    pub fn of(
        alloc: Global,
        universe: &Universe,
        atoms: &Atoms,
    ) -> Result<DocumentLines, AllocError>
        ensures spelled { IfOk result (λ lines. AreSpellings (lists_of universe.now atoms.now) lines.spellings) }
        ensures none { IfOk result (λ lines. lines.codes ≡ []) }
    {
        Ok(DocumentLines {
            spellings: Spellings::of(alloc, universe, atoms)?,
            held: HeldLines::new(),
            line: LineBuffer::new(),
        })
    }

    /// Appends the lines of the events that the codes are by position in the lists that were spelled, and an empty line: where the
    /// events are a skeleton's, this is its text. `unchanged` is any number of codes, from the first on, that the document shares with
    /// the one that was written last: their lines are kept as far as they are held, and only the others are put together. The Closing
    /// codes at the end, up to 32, need no line of their own. They, and up to 256 codes before them, are handed over in one call where
    /// their lines have less than 32,768 bytes in all; else what is behind the lines that are held goes line by line. After a failed
    /// write nothing more is handed over.
    pub fn write<O: Sink>(
        &mut self,
        codes: &[Code],
        unchanged: usize,
        sink: &mut O,
    ) -> Result<(), WriteFault>
        requires spelled { AreSpelled self.old.spellings codes.now }
        requires unchanged { BeginsWith (map code_of codes.now) (take unchanged self.old.codes) }
        ensures ok { (u : Lists) (es : List Event) → AreSpellings u self.old.spellings → AreCodesOf u es codes.now →
            OnOk result (Appends (O.taken sink.old) (O.taken sink.new) (events_text es)) }
        ensures err { (u : Lists) (es : List Event) → AreSpellings u self.old.spellings → AreCodesOf u es codes.now →
            OnErr result (AppendsFront (O.taken sink.old) (O.taken sink.new) (events_text es)) }
        ensures told { is_some (O.taken sink.new) ≡ is_some (O.taken sink.old) }
        ensures cause { HasCause (O.faults sink.old) (O.faults sink.new) result }
        ensures spellings { self.new.spellings ≡ self.old.spellings }
        ensures held { BeginsWith (map code_of codes.now) self.new.codes }
    {
        match self.send(codes, unchanged, sink) {
            Ok(()) => Ok(()),
            Err(Failed) => Err(WriteFault),
        }
    }

    /// Hands the lines of codes over, and an empty line.
    fn send<O: Sink>(
        &mut self,
        codes: &[Code],
        unchanged: usize,
        sink: &mut O,
    ) -> Result<(), Failed>
        requires spelled { All (λ c. HasSpelling self.old.spellings (code_of c)) codes.now }
        requires unchanged { BeginsWith (map code_of codes.now) (take unchanged self.old.codes) }
        ensures ok { OnOk result (Sends (progress (O.taken sink.old) [] (O.faults sink.old))
            (progress (O.taken sink.new) [] (O.faults sink.new)) (spelled_lines self.old.spellings codes.now)) }
        ensures err { OnErr result (Fails (progress (O.taken sink.old) [] (O.faults sink.old))
            (progress (O.taken sink.new) [] (O.faults sink.new)) (spelled_lines self.old.spellings codes.now)) }
        ensures spellings { self.new.spellings ≡ self.old.spellings }
        ensures held { BeginsWith (map code_of codes.now) self.new.codes }
    {
        let closings = closings_behind(codes);
        let front = &codes[..codes.len() - closings];
        hold_front(&mut self.held, front, unchanged, &self.spellings);
        send_document(
            &mut self.held,
            &mut self.line,
            sink,
            codes,
            closings,
            &self.spellings,
        )
    }
}

/// Hands the document over whose first lines are held, and whose last codes are so many Closing codes.
fn send_document<O: Sink>(
    held: &mut HeldLines,
    line: &mut LineBuffer,
    sink: &mut O,
    codes: &[Code],
    closings: usize,
    spellings: &Spellings,
) -> Result<(), Failed>
    requires holds { HoldsLines spellings.now held.old }
    requires spelled { All (λ c. HasSpelling spellings.now (code_of c)) codes.now }
    requires count { length held.old.codes + closings ≤ length codes.now }
    requires front { held.old.codes ≡ take (length held.old.codes) codes.now }
    requires most { closings ≤ 32 }
    requires closings { drop (length codes.now - closings) codes.now ≡ closing_codes closings }
    ensures ok { OnOk result (Sends (progress (O.taken sink.old) [] (O.faults sink.old))
        (progress (O.taken sink.new) [] (O.faults sink.new)) (spelled_lines spellings.now codes.now)) }
    ensures err { OnErr result (Fails (progress (O.taken sink.old) [] (O.faults sink.old))
        (progress (O.taken sink.new) [] (O.faults sink.new)) (spelled_lines spellings.now codes.now)) }
    ensures same { held.new ≡ held.old }
{
    let count = held.codes().len();
    let end = closing_lines(closings);
    if count + closings == codes.len() && held.has_room(end) {
        return held.send_whole(end, sink);
    }
    held.send(sink)?;
    line.clear();
    put_codes(line, sink, &codes[count..], spellings)
}
