// A sink in memory, whose calls fail as it is told.
ghost use Rattle.std.specs.Prelude.{◌≡◌, ◌≤◌, ◌<◌, Some, [], length, IfOk};
ghost use Rattle.std.specs.Prelude.{is_some, is_ok, not};
ghost use Rattle.std.specs.Io.KnownBytes.{WriteAppends};
ghost use Rattle.outside.specs.Counts.{HasCause};
ghost use Rattle.outside.specs.Memory.{after_writing, is_refused};

use crate::devices::{Failed, Sink};
use crate::first_line::first_line_len;
use crate::lists::Calls;
use std::alloc::{AllocError as OutOfMemory, Global};
use std::marker::Model;

/// The bytes taken, in memory.
#[derive(Drop)]
pub struct MemSink {
    taken: Vec<u8>,
    room: usize,
    failing: Calls,
    most: usize,
    calls: u64,
    faults: u64,
}

impl Model for MemSink {
    ghost use Rattle.std.specs.Prelude.{◌≤◌, vec_len, vec_capacity};
    ghost use Rattle.outside.specs.Memory.{SinkInMemory};

    ghost Value = { SinkInMemory };

    ghost view = { λ s. record {
      taken = s.taken.items;
      room = s.room;
      failing = s.failing;
      most = s.most;
      calls = s.calls;
      faults = s.faults;
    } };

    ghost invariant = { λ s. (vec_len s.taken ≤ s.room) × (s.room ≤ vec_capacity s.taken) × (1 ≤ s.most) };
}

impl MemSink {
    /// An empty sink with room for so many bytes. The writes with these numbers, counted from 0, fail, and a write takes
    /// at most `most` bytes.
    pub fn new(
        alloc: Global,
        room: usize,
        failing: Calls,
        most: usize,
    ) -> Result<MemSink, OutOfMemory>
        requires { 1 ≤ most }
        ensures { IfOk result (λ sink. sink ≡ record {
          taken = [];
          room = room;
          failing = failing;
          most = most;
          calls = 0;
          faults = 0;
        }) }
    {
        Ok(MemSink {
            taken: Vec::with_capacity(alloc, room)?,
            room,
            failing,
            most,
            calls: 0,
            faults: 0,
        })
    }

    /// The bytes taken so far.
    pub fn taken(&self) -> &[u8]
        ensures { result.now ≡ self.now.taken }
    {
        self.taken.as_slice()
    }
}

impl Sink for MemSink {
    ghost taken = { λ s. Some s.taken };

    ghost faults = { λ s. s.faults };

    fn write(&mut self, piece: &[u8]) -> Result<usize, Failed>
        requires { 0 < length piece.now }
        ensures some { IfOk result (λ count. 0 < count) }
        ensures bound { IfOk result (λ count. count ≤ length piece.now) }
        ensures bytes { WriteAppends (Some self.old.taken) (Some self.new.taken) result piece.now }
        ensures told { is_some (Some self.new.taken) ≡ is_some (Some self.old.taken) }
        ensures cause { HasCause self.old.faults self.new.faults result }

        // Beyond what every sink does.
        ensures after { self.new ≡ after_writing self.old piece.now }
        ensures ok { is_ok result ≡ not (is_refused self.old) }
    {
        let call = self.calls;
        self.calls = call.saturating_add(1);
        let left = self.room - self.taken.len();
        if self.failing.contains(call) || left == 0 {
            self.faults = self.faults.saturating_add(1);
            return Err(Failed);
        }
        let count = self.most.min(piece.len()).min(left);
        if self.taken.extend_from_slice(&piece[..count]).is_err() {
            self.faults = self.faults.saturating_add(1);
            return Err(Failed);
        }
        Ok(count)
    }

    fn write_lines(&mut self, lines: &[u8]) -> Result<(), Failed> {
        let mut rest = lines;
        while !rest.is_empty() {
            let end = first_line_len(rest);
            let count = self.write(&rest[..end])?;
            rest = &rest[count..];
        }
        Ok(())
    }
}
