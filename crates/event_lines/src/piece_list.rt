// Pieces in one list of bytes.
ghost use Rattle.std.specs.Prelude.{◌≡◌, ◌<◌, [], ◌∷◌, ◌++◌, get_or, length, OnOk};

use std::alloc::{AllocError, Global};
use std::marker::Model;

/// Pieces of bytes, one behind the other.
#[derive(Drop)]
pub(crate) struct PieceList {
    bytes: Vec<u8>,
    ranges: Vec<(usize, usize)>,
}

impl Model for PieceList {
    ghost use Rattle.std.specs.Prelude.{List, ℕ, map};
    ghost use Rattle.std.specs.List.{All};
    ghost use Rattle.event_lines.specs.PieceLists.{piece_at, IsRangeOf};

    ghost Value = { List (List ℕ) };

    ghost view = { λ l. map (piece_at l.bytes.items) l.ranges.items };

    ghost invariant = { λ l. All (IsRangeOf l.bytes.items) l.ranges.items };
}

impl PieceList {
    /// No pieces. The list takes its memory from `alloc` as it grows.
    pub(crate) fn new(alloc: Global) -> Self
        ensures { result ≡ [] }
    {
        PieceList {
            bytes: Vec::new(alloc),
            ranges: Vec::new(alloc),
        }
    }

    /// Adds a piece at the end.
    pub(crate) fn push(&mut self, piece: &[u8]) -> Result<(), AllocError>
        ensures { OnOk result (self.new ≡ self.old ++ piece.now ∷ []) }
    {
        let start = self.bytes.len();
        self.bytes.extend_from_slice(piece)?;
        self.ranges.push((start, self.bytes.len()))?;
        Ok(())
    }

    /// The piece at a position, counted from 0.
    pub(crate) fn get(&self, position: usize) -> &[u8]
        requires { position < length self.now }
        ensures { result.now ≡ get_or self.now position [] }
    {
        let (start, end) = self.ranges[position];
        &self.bytes[start..end]
    }
}
