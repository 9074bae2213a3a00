// A shelf in memory, whose calls fail as it is told.
ghost use Rattle.std.specs.Prelude.{◌≡◌, ◌≤◌, ◌<◌, Option, None, Some, is_some, length};
ghost use Rattle.std.specs.Prelude.{OnOk, OnErr, IsTrue, is_ok, not};
ghost use Rattle.std.specs.Io.{ReadsAtMost};
ghost use Rattle.std.specs.Io.KnownBytes.{ReadConsumes};
ghost use Rattle.outside.specs.Counts.{HasCause, IsOneMore};
ghost use Rattle.outside.specs.Devices.{IsOpened, Opens};
ghost use Rattle.outside.specs.Memory.{told_count, after_opening, after_reading, fails_next};

use crate::devices::{Failed, Shelf};
use crate::lists::{Calls, Files, copy_front};
use std::marker::Model;

/// Named files in memory.
#[derive(Drop)]
pub struct MemShelf {
    files: Files,
    failing: Calls,
    most: usize,
    current: Option<(usize, usize)>,
    calls: u64,
    faults: u64,
    misses: u64,
}

impl Model for MemShelf {
    ghost use Rattle.std.specs.Prelude.{◌≤◌};
    ghost use Rattle.outside.specs.Memory.{ShelfInMemory};
    ghost use Rattle.outside.specs.Kept.{left_from, IsPlaceIn};

    ghost Value = { ShelfInMemory };

    ghost view = { λ s. record {
      files = s.files;
      left = left_from s.files s.current;
      failing = s.failing;
      most = s.most;
      calls = s.calls;
      faults = s.faults;
      misses = s.misses;
    } };

    ghost invariant = { λ s. IsPlaceIn s.files s.current × (1 ≤ s.most) };
}

impl MemShelf {
    /// A shelf with these files. The calls with these numbers, counted from 0, fail, and a read gives at most `most`
    /// bytes.
    pub fn new(files: Files, failing: Calls, most: usize) -> Self
        requires { 1 ≤ most }
        ensures { result ≡ record {
          files = files;
          left = None;
          failing = failing;
          most = most;
          calls = 0;
          faults = 0;
          misses = 0;
        } }
    {
        MemShelf {
            files,
            failing,
            most,
            current: None,
            calls: 0,
            faults: 0,
            misses: 0,
        }
    }
}

impl Shelf for MemShelf {
    ghost files = { λ s. Some s.files };

    ghost left = { λ s. s.left };

    ghost has_current = { λ s. is_some s.left };

    ghost calls = { λ s. told_count s.calls };

    ghost faults = { λ s. s.faults };

    ghost misses = { λ s. s.misses };

    fn open_file(&mut self, name: &str) -> Result<(), Failed>
        ensures current { OnOk result (IsTrue (is_some self.new.left)) }
        ensures content { OnOk result (IsOpened (Some self.old.files) name.now self.new.left) }
        ensures none { OnErr result (IsTrue (is_some self.new.left) → ⊥) }
        ensures same_files { Some self.new.files ≡ Some self.old.files }
        ensures counted { IsOneMore (told_count self.old.calls) (told_count self.new.calls) }
        ensures cause { Opens (Some self.old.files) name.now self.old.faults self.new.faults self.old.misses self.new.misses result }

        // Beyond what every shelf does.
        ensures after { self.new ≡ after_opening self.old name.now }
        ensures ok { is_ok result ≡ is_some self.new.left }
    {
        let call = self.calls;
        self.calls = call.saturating_add(1);
        self.current = None;
        if self.failing.contains(call) {
            self.faults = self.faults.saturating_add(1);
            return Err(Failed);
        }
        match self.files.find(name) {
            Some(place) => {
                self.current = Some((place, 0));
                Ok(())
            }
            None => {
                self.misses = self.misses.saturating_add(1);
                Err(Failed)
            }
        }
    }

    fn read(&mut self, buf: &mut [u8]) -> Result<usize, Failed>
        requires { IsTrue (is_some self.old.left) }
        ensures bound { ReadsAtMost result buf.new }
        ensures bytes { ReadConsumes self.old.left self.new.left result buf.new }
        ensures current { IsTrue (is_some self.new.left) }
        ensures same_files { Some self.new.files ≡ Some self.old.files }
        ensures counted { IsOneMore (told_count self.old.calls) (told_count self.new.calls) }
        ensures cause { HasCause self.old.faults self.new.faults result }
        ensures misses { self.new.misses ≡ self.old.misses }

        // Beyond what every shelf does.
        ensures after { self.new ≡ after_reading self.old (length buf.old) }
        ensures ok { is_ok result ≡ not (fails_next self.old.failing self.old.calls) }
    {
        let call = self.calls;
        self.calls = call.saturating_add(1);
        if self.failing.contains(call) {
            self.faults = self.faults.saturating_add(1);
            return Err(Failed);
        }
        let Some((place, at)) = self.current else {
            return Ok(0);
        };
        let rest = &self.files.bytes(place)[at..];
        let count = copy_front(buf, rest, self.most);
        self.current = Some((place, at + count));
        Ok(count)
    }
}
