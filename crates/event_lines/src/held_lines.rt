// Lines of codes that are held from one document to the next.
ghost use Rattle.std.specs.Prelude.{◌≡◌, ◌+◌, ◌≤◌, [], ◌∷◌, ◌++◌, IsTrue, false, get_or, length, take, OnOk, OnErr};
ghost use Rattle.event_lines.specs.Pieces.{Sends, Fails, progress};
ghost use Rattle.event_lines.specs.Held.{HoldsLines};
ghost use Rattle.event_lines.specs.Spelled.{spelled_line};
ghost use Rattle.event_lines.specs.declared.spellings.Spellings.{Spellings};

use crate::line_buffer::LineBuffer;
use outside::{Failed, Sink};
use skeleton::Code;
use std::marker::Model;

/// The most codes whose lines are held.
const MOST: usize = 256;

/// Codes with their lines, one behind the other, and where each line starts; behind the last line there is room for an empty one.
#[derive(Drop)]
pub(crate) struct HeldLines {
    text: LineBuffer,
    codes: [Code; 256],
    starts: [usize; 257],
    len: usize,
}

impl Model for HeldLines {
    ghost use Rattle.std.specs.Prelude.{◌≡◌, ◌≤◌, ◌<◌, length, take};
    ghost use Rattle.event_lines.specs.Held.{Held};

    ghost Value = { Held };

    ghost view = { λ l. record { text = l.text; codes = take l.len l.codes; starts = l.starts } };

    ghost invariant = { λ l. (l.len ≤ 256) × (length l.text < 32768) };
}

impl HeldLines {
    /// No codes, and no lines.
    pub(crate) fn new() -> Self
        ensures none { result.codes ≡ [] }
        ensures holds { (s : Spellings) → HoldsLines s result }
    {
        HeldLines {
            text: LineBuffer::new(),
            codes: [Code::Body; 256],
            starts: [0; 257],
            len: 0,
        }
    }

    /// The codes.
    pub(crate) fn codes(&self) -> &[Code]
        ensures { result.now ≡ self.now.codes }
    {
        &self.codes[..self.len]
    }

    /// Keeps the first codes, and their lines.
    pub(crate) fn keep(&mut self, count: usize)
        requires within { count ≤ length self.old.codes }
        requires start { get_or self.old.starts count 0 ≤ length self.old.text }
        ensures codes { self.new.codes ≡ take count self.old.codes }
        ensures holds { (s : Spellings) → HoldsLines s self.old → HoldsLines s self.new }
    {
        self.text.truncate(self.starts[count]);
        self.len = count;
    }

    /// Adds a code with its line, where there is room.
    pub(crate) fn add(&mut self, code: Code, line: &[u8]) -> bool
        ensures codes { IsTrue result → self.new.codes ≡ self.old.codes ++ code ∷ [] }
        ensures full { result ≡ false → self.new ≡ self.old }
        ensures holds { (s : Spellings) → HoldsLines s self.old → line.now ≡ spelled_line s code → HoldsLines s self.new }
    {
        if self.len == MOST || line.len() >= self.text.room() {
            return false;
        }
        self.text.push(line);
        self.codes[self.len] = code;
        self.len += 1;
        self.starts[self.len] = self.text.len();
        true
    }

    /// Adds a code with its line, which is given in two parts, where there is room.
    pub(crate) fn add_parts(&mut self, code: Code, front: &[u8], rest: &[u8]) -> bool
        ensures codes { IsTrue result → self.new.codes ≡ self.old.codes ++ code ∷ [] }
        ensures full { result ≡ false → self.new ≡ self.old }
        ensures holds { (s : Spellings) → HoldsLines s self.old → front.now ++ rest.now ≡ spelled_line s code → HoldsLines s self.new }
    {
        if self.len == MOST || front.len() + rest.len() >= self.text.room() {
            return false;
        }
        self.text.push(front);
        self.text.push(rest);
        self.codes[self.len] = code;
        self.len += 1;
        self.starts[self.len] = self.text.len();
        true
    }

    /// Whether there is room for these bytes behind the lines.
    pub(crate) fn has_room(&self, bytes: &[u8]) -> bool
        ensures { IsTrue result → length self.now.text + length bytes.now ≤ 32768 }
    {
        bytes.len() <= self.text.room()
    }

    /// Hands the lines over.
    pub(crate) fn send<O: Sink>(&self, sink: &mut O) -> Result<(), Failed>
        ensures ok { OnOk result (Sends (progress (O.taken sink.old) [] (O.faults sink.old))
            (progress (O.taken sink.new) [] (O.faults sink.new)) self.now.text) }
        ensures err { OnErr result (Fails (progress (O.taken sink.old) [] (O.faults sink.old))
            (progress (O.taken sink.new) [] (O.faults sink.new)) self.now.text) }
    {
        sink.write_lines(self.text.as_bytes())
    }

    /// Hands the lines over, and these bytes behind them.
    pub(crate) fn send_whole<O: Sink>(&mut self, end: &[u8], sink: &mut O) -> Result<(), Failed>
        requires { length self.old.text + length end.now ≤ 32768 }
        ensures ok { OnOk result (Sends (progress (O.taken sink.old) [] (O.faults sink.old))
            (progress (O.taken sink.new) [] (O.faults sink.new)) (self.old.text ++ end.now)) }
        ensures err { OnErr result (Fails (progress (O.taken sink.old) [] (O.faults sink.old))
            (progress (O.taken sink.new) [] (O.faults sink.new)) (self.old.text ++ end.now)) }
        ensures same { self.new ≡ self.old }
    {
        let len = self.text.len();
        self.text.push(end);
        let sent = sink.write_lines(self.text.as_bytes());
        self.text.truncate(len);
        sent
    }
}
