// A standard stream as a sink.
ghost use Rattle.std.specs.Prelude.{None, ◌≡◌};
ghost use Rattle.outside.specs.Counts.{HasCause};

use crate::devices::{Failed, Sink};
use std::io::Write;

/// A stream. It tells no bytes, and its faults are the writes and flushes that failed, up to the greatest u64.
#[derive(Drop)]
pub struct StdSink<W: Write + Drop> {
    writer: W,
    faults: u64,
}

impl<W: Write + Drop> StdSink<W> {
    /// A sink that hands what it takes to the writer. No call has failed.
    pub fn new(writer: W) -> Self
        ensures { result.faults ≡ 0 }
    {
        StdSink { writer, faults: 0 }
    }

    /// The writer, with what it still holds back.
    pub fn into_inner(self) -> W
        ensures { result ≡ self.writer }
    {
        self.writer
    }

    /// Hands on what the writer still holds back. A flush that fails counts a fault.
    pub fn flush(&mut self) -> Result<(), Failed>
        ensures { HasCause self.old.faults self.new.faults result }
    {
        if self.writer.flush().is_ok() {
            return Ok(());
        }
        self.faults = self.faults.saturating_add(1);
        Err(Failed)
    }
}

impl<W: Write + Drop> Sink for StdSink<W> {
    ghost taken = { λ s. None };

    ghost faults = { λ s. s.faults };

    fn write(&mut self, piece: &[u8]) -> Result<usize, Failed> {
        let taken = self.writer.write(piece);
        if let Ok(count) = taken {
            if count > 0 {
                return Ok(count);
            }
        }
        self.faults = self.faults.saturating_add(1);
        Err(Failed)
    }

    fn write_lines(&mut self, lines: &[u8]) -> Result<(), Failed> {
        if self.writer.write_all(lines).is_ok() {
            return Ok(());
        }
        self.faults = self.faults.saturating_add(1);
        Err(Failed)
    }
}
