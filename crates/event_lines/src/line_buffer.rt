// A line in a fixed buffer.
ghost use Rattle.std.specs.Prelude.{◌≡◌, ◌≤◌, ◌+◌, ◌-◌, ◌++◌, [], length, take};

use std::marker::Model;

/// The most bytes of a line that is handed over as one piece, its line end included.
const CAPACITY: usize = 32_768;

/// A line, or a part of a longer one, that is to be handed over as one piece. It holds 32,768 bytes.
#[derive(Drop)]
pub(crate) struct LineBuffer {
    bytes: [u8; 32_768],
    len: usize,
}

impl Model for LineBuffer {
    ghost use Rattle.std.specs.Prelude.{List, ℕ, take, ◌≤◌};

    ghost Value = { List ℕ };

    ghost view = { λ l. take l.len l.bytes };

    ghost invariant = { λ l. l.len ≤ 32768 };
}

impl LineBuffer {
    /// An empty buffer.
    pub(crate) fn new() -> Self
        ensures { result ≡ [] }
    {
        LineBuffer {
            bytes: [0; 32_768],
            len: 0,
        }
    }

    /// How many bytes more it holds.
    pub(crate) fn room(&self) -> usize
        ensures { result + length self.now ≡ 32768 }
    {
        CAPACITY - self.len
    }

    /// Adds bytes at the end.
    pub(crate) fn push(&mut self, bytes: &[u8])
        requires { length self.old + length bytes.now ≤ 32768 }
        ensures { self.new ≡ self.old ++ bytes.now }
    {
        let end = self.len + bytes.len();
        self.bytes[self.len..end].copy_from_slice(bytes);
        self.len = end;
    }

    /// Drops the bytes behind the first ones.
    pub(crate) fn truncate(&mut self, len: usize)
        requires { len ≤ length self.old }
        ensures { self.new ≡ take len self.old }
    {
        self.len = len;
    }

    /// How many bytes it holds.
    pub(crate) fn len(&self) -> usize
        ensures { result ≡ length self.now }
    {
        self.len
    }

    /// Drops all bytes.
    pub(crate) fn clear(&mut self)
        ensures { self.new ≡ [] }
    {
        self.len = 0;
    }

    /// The bytes.
    pub(crate) fn as_bytes(&self) -> &[u8]
        ensures { result.now ≡ self.now }
    {
        &self.bytes[..self.len]
    }
}
