// Bytes that are collected in memory.
ghost use Rattle.std.specs.Prelude.{◌≡◌, [], Some};

use outside::{Failed, Sink};
use std::alloc::Global;

/// Takes all bytes that it is given, unless memory is wanting.
#[derive(Drop)]
pub(crate) struct Collected {
    bytes: Vec<u8>,
    faults: u64,
}

impl Collected {
    /// No bytes. The memory is taken from `alloc` as they come.
    pub(crate) fn new(alloc: Global) -> Self
        ensures { result.bytes.items ≡ [] }
    {
        Collected {
            bytes: Vec::new(alloc),
            faults: 0,
        }
    }

    /// The bytes.
    pub(crate) fn as_slice(&self) -> &[u8]
        ensures { result.now ≡ self.now.bytes.items }
    {
        self.bytes.as_slice()
    }
}

impl Sink for Collected {
    ghost taken = { λ c. Some c.bytes.items };

    ghost faults = { λ c. c.faults };

    fn write(&mut self, piece: &[u8]) -> Result<usize, Failed> {
        if self.bytes.extend_from_slice(piece).is_err() {
            self.faults = self.faults.saturating_add(1);
            return Err(Failed);
        }
        Ok(piece.len())
    }

    fn write_lines(&mut self, lines: &[u8]) -> Result<(), Failed> {
        if self.bytes.extend_from_slice(lines).is_err() {
            self.faults = self.faults.saturating_add(1);
            return Err(Failed);
        }
        Ok(())
    }
}
